//! The SWIs that the machine knows, by number and by name.

ghost use Rattle.std.specs.Prelude.{◌≡◌};
ghost use Rattle.profile.specs.SwiNames.{swi_name, swi_of};

/// A store call that the machine knows, as the RISC OS 3 Programmer's Reference Manual names it
/// ("SWI calls by number"). The numbers of the flex calls are this project's own.
#[derive(Clone, Copy, PartialEq, Eq)]
pub enum SwiName {
    /// `OS_WriteC`, number &0.
    WriteC,
    /// `OS_WriteS`, number &1.
    WriteS,
    /// `OS_Write0`, number &2.
    Write0,
    /// `OS_NewLine`, number &3.
    NewLine,
    /// `OS_Exit`, number &11.
    Exit,
    /// `OS_EnterOS`, number &16.
    EnterOs,
    /// `OS_Heap`, number &1D.
    Heap,
    /// `OS_Module`, number &1E.
    Module,
    /// `OS_ChangeDynamicArea`, number &2A.
    ChangeDynamicArea,
    /// `OS_GenerateError`, number &2B.
    GenerateError,
    /// `OS_ReadDynamicArea`, number &5C.
    ReadDynamicArea,
    /// `OS_DynamicArea`, number &66.
    DynamicArea,
    /// `OS_WriteI`, number &100 and the 255 that follow.
    WriteI,
    /// `Flex_Init`, number &C0000.
    FlexInit,
    /// `Flex_Alloc`, number &C0001.
    FlexAlloc,
    /// `Flex_Free`, number &C0002.
    FlexFree,
    /// `Flex_Size`, number &C0003.
    FlexSize,
    /// `Flex_Extend`, number &C0004.
    FlexExtend,
    /// `Flex_MidExtend`, number &C0005.
    FlexMidExtend,
}

impl SwiName {
    /// The call of a number without its X bit, or `None` where there is none.
    pub fn of(number: u32) -> Option<SwiName>
        ensures { result ≡ swi_of number }
    {
        match number {
            0x0 => Some(SwiName::WriteC),
            0x1 => Some(SwiName::WriteS),
            0x2 => Some(SwiName::Write0),
            0x3 => Some(SwiName::NewLine),
            0x11 => Some(SwiName::Exit),
            0x16 => Some(SwiName::EnterOs),
            0x1D => Some(SwiName::Heap),
            0x1E => Some(SwiName::Module),
            0x2A => Some(SwiName::ChangeDynamicArea),
            0x2B => Some(SwiName::GenerateError),
            0x5C => Some(SwiName::ReadDynamicArea),
            0x66 => Some(SwiName::DynamicArea),
            0x100..=0x1FF => Some(SwiName::WriteI),
            0xC0000 => Some(SwiName::FlexInit),
            0xC0001 => Some(SwiName::FlexAlloc),
            0xC0002 => Some(SwiName::FlexFree),
            0xC0003 => Some(SwiName::FlexSize),
            0xC0004 => Some(SwiName::FlexExtend),
            0xC0005 => Some(SwiName::FlexMidExtend),
            _ => None,
        }
    }

    /// The call's name, as manuals and assemblers spell it.
    pub fn name(self) -> &'static str
        ensures { result.now ≡ swi_name self }
    {
        match self {
            SwiName::WriteC => "OS_WriteC",
            SwiName::WriteS => "OS_WriteS",
            SwiName::Write0 => "OS_Write0",
            SwiName::NewLine => "OS_NewLine",
            SwiName::Exit => "OS_Exit",
            SwiName::EnterOs => "OS_EnterOS",
            SwiName::Heap => "OS_Heap",
            SwiName::Module => "OS_Module",
            SwiName::ChangeDynamicArea => "OS_ChangeDynamicArea",
            SwiName::GenerateError => "OS_GenerateError",
            SwiName::ReadDynamicArea => "OS_ReadDynamicArea",
            SwiName::DynamicArea => "OS_DynamicArea",
            SwiName::WriteI => "OS_WriteI",
            SwiName::FlexInit => "Flex_Init",
            SwiName::FlexAlloc => "Flex_Alloc",
            SwiName::FlexFree => "Flex_Free",
            SwiName::FlexSize => "Flex_Size",
            SwiName::FlexExtend => "Flex_Extend",
            SwiName::FlexMidExtend => "Flex_MidExtend",
        }
    }
}
