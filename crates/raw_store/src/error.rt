//! The errors of store calls: their numbers, and the texts that stand in a guest's error block.

ghost use Rattle.std.specs.Prelude.{◌≡◌};
ghost use Rattle.raw_store.specs.ErrorNames.{error_code, error_name};

/// An error of a store call, which the guest sees by its number and its text.
///
/// RISC OS leaves numbers and texts to the modules that raise them ("Generating and handling
/// errors" in the RISC OS 3 Programmer's Reference Manual); these are this project's own. The
/// text of each is its name, but that a block which holds a heap has one text for both its numbers.
#[derive(Clone, Copy)]
pub enum ErrorNumber {
    /// A reason that OS_Heap does not know.
    HeapBadReason = 1,
    /// No heap of the table starts there.
    HeapBadDesc = 2,
    /// A heap's address or size is off a word, out of its limits or not mapped.
    HeapBadRegion = 3,
    /// The region meets memory that is recorded already.
    HeapOverlaps = 4,
    /// As many heaps as the table holds.
    HeapTableFull = 5,
    /// No live block of the heap has its payload there.
    HeapNotABlock = 6,
    /// A live flex anchor lies in the block.
    HeapHoldsAnchor = 7,
    /// The heap would end below its base.
    HeapBadShrink = 8,
    /// No free block fits, nor the room above the base.
    HeapNoRoom = 9,
    /// A heap lies in the block, which would have to move.
    BlockHoldsHeap = 10,
    /// A reason that OS_DynamicArea does not know.
    AreaBadReason = 16,
    /// No area has that number.
    AreaUnknown = 17,
    /// An area's number, size, place or name is outside its limits.
    AreaBad = 18,
    /// The number or the addresses are taken.
    AreaTaken = 19,
    /// As many areas as the table holds.
    AreaTableFull = 20,
    /// The pages hold what must stay.
    AreaInUse = 21,
    /// The pool or the maximum allows no more.
    AreaNoPages = 22,
    /// No live block of the module area has its payload there.
    RmaNotABlock = 32,
    /// A live flex anchor lies in the block.
    RmaHoldsAnchor = 33,
    /// The module area can't grow far enough.
    RmaNoRoom = 34,
    /// A heap lies in the block, which would have to move.
    RmaBlockHoldsHeap = 35,
    /// The image's header is refused.
    ModuleBadHeader = 48,
    /// A reason that OS_Module does not know.
    ModuleBadReason = 49,
    /// No such module or instance.
    ModuleNotFound = 50,
    /// No image has that name.
    ImageUnknown = 51,
    /// The module has an instance of that name.
    InstanceExists = 52,
    /// As many instances as the table holds.
    InstanceTableFull = 53,
    /// Module code is running that forbids the call.
    ModuleBusy = 54,
    /// As many frames are open as there may be.
    FrameLimit = 55,
    /// Flex_Init has not been called.
    FlexNotReady = 64,
    /// Flex_Init has been called.
    FlexAlready = 65,
    /// The range is off a word, not mapped or meets a record.
    FlexBadRange = 66,
    /// No anchor can stand, or stands, there.
    FlexBadAnchor = 67,
    /// A live anchor stands there.
    FlexAnchorInUse = 68,
    /// An anchor lies in the bytes that are to go, or would be moved off its word.
    FlexHoldsAnchor = 69,
    /// No call has that number.
    SwiUnknown = 80,
    /// A text is too long or runs into unmapped memory.
    BadString = 81,
    /// An address is off a word, unmapped or recorded.
    BadPointer = 82,
}

impl ErrorNumber {
    /// The number that the error block holds.
    pub fn number(self) -> u32
        ensures { result ≡ error_code self }
    {
        self as u32
    }
}

/// The text that the error block holds: the error's name, which two of them share.
pub fn error_text(error: ErrorNumber) -> &'static str
    ensures { result.now ≡ error_name error }
{
    match error {
        ErrorNumber::HeapBadReason => "HeapBadReason",
        ErrorNumber::HeapBadDesc => "HeapBadDesc",
        ErrorNumber::HeapBadRegion => "HeapBadRegion",
        ErrorNumber::HeapOverlaps => "HeapOverlaps",
        ErrorNumber::HeapTableFull => "HeapTableFull",
        ErrorNumber::HeapNotABlock => "HeapNotABlock",
        ErrorNumber::HeapHoldsAnchor => "HeapHoldsAnchor",
        ErrorNumber::HeapBadShrink => "HeapBadShrink",
        ErrorNumber::HeapNoRoom => "HeapNoRoom",
        ErrorNumber::BlockHoldsHeap => "BlockHoldsHeap",
        ErrorNumber::AreaBadReason => "AreaBadReason",
        ErrorNumber::AreaUnknown => "AreaUnknown",
        ErrorNumber::AreaBad => "AreaBad",
        ErrorNumber::AreaTaken => "AreaTaken",
        ErrorNumber::AreaTableFull => "AreaTableFull",
        ErrorNumber::AreaInUse => "AreaInUse",
        ErrorNumber::AreaNoPages => "AreaNoPages",
        ErrorNumber::RmaNotABlock => "RmaNotABlock",
        ErrorNumber::RmaHoldsAnchor => "RmaHoldsAnchor",
        ErrorNumber::RmaNoRoom => "RmaNoRoom",
        ErrorNumber::RmaBlockHoldsHeap => "BlockHoldsHeap",
        ErrorNumber::ModuleBadHeader => "ModuleBadHeader",
        ErrorNumber::ModuleBadReason => "ModuleBadReason",
        ErrorNumber::ModuleNotFound => "ModuleNotFound",
        ErrorNumber::ImageUnknown => "ImageUnknown",
        ErrorNumber::InstanceExists => "InstanceExists",
        ErrorNumber::InstanceTableFull => "InstanceTableFull",
        ErrorNumber::ModuleBusy => "ModuleBusy",
        ErrorNumber::FrameLimit => "FrameLimit",
        ErrorNumber::FlexNotReady => "FlexNotReady",
        ErrorNumber::FlexAlready => "FlexAlready",
        ErrorNumber::FlexBadRange => "FlexBadRange",
        ErrorNumber::FlexBadAnchor => "FlexBadAnchor",
        ErrorNumber::FlexAnchorInUse => "FlexAnchorInUse",
        ErrorNumber::FlexHoldsAnchor => "FlexHoldsAnchor",
        ErrorNumber::SwiUnknown => "SwiUnknown",
        ErrorNumber::BadString => "BadString",
        ErrorNumber::BadPointer => "BadPointer",
    }
}
