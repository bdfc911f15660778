//! What the list of the words that differ is good for. Each is the contract of a function that does
//! nothing.

ghost use Rattle.store_copies.specs.Laws.{ExplainsBytes, ListsChanges};

/// Each mapped byte that differs lies in a word that is listed, or in one that other lines show.
pub fn changes_explain_bytes()
    ensures { ExplainsBytes }
{}

/// Each word that is listed is mapped and differs, and has the old and the new value that it shows.
pub fn changes_are_true()
    ensures { ListsChanges }
{}
