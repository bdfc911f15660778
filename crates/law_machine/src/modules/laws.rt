//! Laws of the list of modules and of the module area, each the contract of a function that does
//! nothing.

ghost use Rattle.law_machine.specs.modules.Preferred.{RemovalsPreferOldest};
ghost use Rattle.law_machine.specs.modules.Tidied.{TidyFixes, TidyMovesAll};

/// A tidy leaves no room below a block that may move: the image of a module, or a block that just
/// one private word names, which holds no anchor, no heap and not the return address of the call.
/// It stands right behind the live block before it, or in the first place. Each other block stays.
pub fn tidying_moves_all()
    ensures moved { TidyMovesAll }
    ensures fixed { TidyFixes }
{}

/// When an instance is removed, the one that its module's title names is named still; where that is
/// the one that goes, the oldest other one is, and where there is no other the title names none.
/// Each other module stays as it is.
pub fn removals_prefer_the_oldest()
    ensures { RemovalsPreferOldest }
{}
