//! The reasons of calls that do many things: a number in R0 says which.

ghost use Rattle.std.specs.Prelude.{◌≡◌};
ghost use Rattle.profile.specs.Reasons.{area_reason, heap_reason, module_reason};

/// A reason of OS_Heap (RISC OS 3 Programmer's Reference Manual, "OS_Heap").
#[derive(Clone, Copy)]
pub enum HeapReason {
    /// 0: a heap is made.
    Initialise,
    /// 1: its largest free block and all that is free are asked for.
    Describe,
    /// 2: a block is claimed.
    Get,
    /// 3: a block is given back.
    Free,
    /// 4: a block becomes larger or smaller.
    Resize,
    /// 5: the heap becomes larger or smaller.
    ChangeSize,
    /// 6: the size of a block is asked for.
    BlockSize,
}

impl HeapReason {
    /// The reason of a number, or `None` where there is none.
    pub fn of(number: u32) -> Option<HeapReason>
        ensures { result ≡ heap_reason number }
    {
        match number {
            0 => Some(HeapReason::Initialise),
            1 => Some(HeapReason::Describe),
            2 => Some(HeapReason::Get),
            3 => Some(HeapReason::Free),
            4 => Some(HeapReason::Resize),
            5 => Some(HeapReason::ChangeSize),
            6 => Some(HeapReason::BlockSize),
            _ => None,
        }
    }
}

/// A reason of OS_DynamicArea (RISC OS 3 Programmer's Reference Manual, supplement,
/// "OS_DynamicArea").
#[derive(Clone, Copy)]
pub enum AreaReason {
    /// 0: an area is made.
    Create,
    /// 1: an area is taken away.
    Remove,
    /// 2: an area is asked about.
    Info,
    /// 3: the next area's number is asked for.
    Enumerate,
    /// 4: an area gets another number.
    Renumber,
}

impl AreaReason {
    /// The reason of a number, or `None` where there is none.
    pub fn of(number: u32) -> Option<AreaReason>
        ensures { result ≡ area_reason number }
    {
        match number {
            0 => Some(AreaReason::Create),
            1 => Some(AreaReason::Remove),
            2 => Some(AreaReason::Info),
            3 => Some(AreaReason::Enumerate),
            4 => Some(AreaReason::Renumber),
            _ => None,
        }
    }
}

/// A reason of OS_Module (RISC OS 3 Programmer's Reference Manual, "OS_Module"). Reason 17, which
/// adds a module of an expansion card, is left out.
#[derive(Clone, Copy)]
pub enum ModuleReason {
    /// 0: a module is loaded and entered.
    Run,
    /// 1: a module is loaded.
    Load,
    /// 2: a module is entered.
    Enter,
    /// 3: an instance is finalised and initialised again.
    Reinit,
    /// 4: an instance is taken away.
    Delete,
    /// 5: the largest free block of the module area and all that is free in it are asked for.
    DescribeArea,
    /// 6: a block of the module area is claimed.
    Claim,
    /// 7: a block of the module area is given back.
    Free,
    /// 8: the modules are moved to lower addresses.
    Tidy,
    /// 9: all modules are taken away.
    Clear,
    /// 10: an image is added where it stands.
    Insert,
    /// 11: a copy of an image is added.
    InsertCopy,
    /// 12: an instance is asked about.
    Info,
    /// 13: a block of the module area becomes larger or smaller.
    Extend,
    /// 14: an instance is added to a module.
    Instantiate,
    /// 15: an instance gets another name.
    Rename,
    /// 16: an instance becomes the preferred one of its module.
    Prefer,
    /// 18: a module is found by its name.
    Lookup,
}

impl ModuleReason {
    /// The reason of a number, or `None` where there is none.
    pub fn of(number: u32) -> Option<ModuleReason>
        ensures { result ≡ module_reason number }
    {
        match number {
            0 => Some(ModuleReason::Run),
            1 => Some(ModuleReason::Load),
            2 => Some(ModuleReason::Enter),
            3 => Some(ModuleReason::Reinit),
            4 => Some(ModuleReason::Delete),
            5 => Some(ModuleReason::DescribeArea),
            6 => Some(ModuleReason::Claim),
            7 => Some(ModuleReason::Free),
            8 => Some(ModuleReason::Tidy),
            9 => Some(ModuleReason::Clear),
            10 => Some(ModuleReason::Insert),
            11 => Some(ModuleReason::InsertCopy),
            12 => Some(ModuleReason::Info),
            13 => Some(ModuleReason::Extend),
            14 => Some(ModuleReason::Instantiate),
            15 => Some(ModuleReason::Rename),
            16 => Some(ModuleReason::Prefer),
            18 => Some(ModuleReason::Lookup),
            _ => None,
        }
    }
}
