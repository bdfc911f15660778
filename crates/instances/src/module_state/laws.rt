//! Laws of module images: each is recorded whole, and no two share a byte. Each is the contract of
//! a function that does nothing.

ghost use Rattle.instances.specs.module_state.Laws.{ImagesAreApart, ImagesAreHeld};

/// Each image begins at a multiple of 4, and is recorded with its whole length. Where it stands in
/// the module area the record is all that a live block there holds; elsewhere it has no byte of a
/// heap.
pub fn images_are_held()
    ensures { ImagesAreHeld }
{}

/// No two images share a byte.
pub fn images_are_apart()
    ensures { ImagesAreApart }
{}
