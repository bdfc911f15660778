//! A law of flex calls and slides of the module area, shown by the names of flex blocks. It is the
//! contract of a function that does nothing.

ghost use Rattle.law_machine.specs.sliding_names.Named.{TurnsGoByNames};

/// Over any list of flex calls and slides of the module area, what each name of a flex block shows
/// changes by the rule of a call that finds room, on the name of the call's word; a call that finds
/// none or is refused, and a slide, change nothing of it.
pub fn turns_go_by_names()
    ensures { TurnsGoByNames }
{}
