//! Store calls in records: their names, reasons and arguments.

use address_map::AddressMap;
use arm_core::Cpu;
use profile::{AreaReason, HeapReason, ModuleReason, SwiName};
use std::alloc::AllocError;
use trace_effects::record_text::{Bracket, RecordText};
use trace_moments::plain_name;
use trace_text::calls::module_name;

/// The most characters of a string that a record has.
const MOST_CHARACTERS: u32 = 256;

/// What a call is for, and which registers it reads.
#[derive(Clone, Copy)]
struct CallUse {
    /// The reason's name, where there are reasons.
    does: Option<&'static [u8]>,
    /// The numbers of the registers.
    arguments: &'static [u32],
    /// The number of the register that points to a string, if one does.
    string: Option<u32>,
}

impl CallUse {
    // A call with no reason.
    fn plain(arguments: &'static [u32]) -> CallUse {
        CallUse {
            does: None,
            arguments,
            string: None,
        }
    }

    // A call by the name of its reason.
    fn reason(name: &'static [u8], arguments: &'static [u32]) -> CallUse {
        CallUse {
            does: Some(name),
            arguments,
            string: None,
        }
    }

    // One whose R1 points to a string.
    fn named(name: &'static [u8], arguments: &'static [u32]) -> CallUse {
        CallUse {
            does: Some(name),
            arguments,
            string: Some(1),
        }
    }

    // A reason that there isn't.
    fn unknown() -> CallUse {
        CallUse::plain(&[])
    }
}

/// Writes a store call by its number without the X bit, before it is made.
pub(crate) fn push_call(
    text: &mut RecordText,
    cpu: &Cpu,
    memory: &AddressMap,
    is_x: bool,
    number: u32,
) -> Result<(), AllocError> {
    text.open_field(b"swi", Bracket::Object)?;
    text.number_field(b"number", u64::from(number))?;
    if is_x {
        text.truth_field(b"x")?;
    }
    match SwiName::of(number) {
        Some(name) => {
            text.string_field(b"name", name.name().as_bytes())?;
            if has_reason(name) {
                text.number_field(b"reason", u64::from(cpu.register(0)))?;
            }
            push_use(text, cpu, memory, use_of(name, cpu.register(0)))?;
        }
        None => push_arguments(text, &[0, 1, 2, 3])?,
    }
    text.close(Bracket::Object)
}

/// Writes that a module is loaded from outside.
pub(crate) fn push_load(text: &mut RecordText) -> Result<(), AllocError> {
    text.open_field(b"swi", Bracket::Object)?;
    text.number_field(b"number", 0x1E)?;
    text.truth_field(b"x")?;
    text.string_field(b"name", SwiName::Module.name().as_bytes())?;
    text.number_field(b"reason", 1)?;
    text.string_field(b"does", b"Load")?;
    text.close(Bracket::Object)
}

fn has_reason(name: SwiName) -> bool {
    matches!(name, SwiName::Heap | SwiName::Module | SwiName::DynamicArea)
}

fn push_use(
    text: &mut RecordText,
    cpu: &Cpu,
    memory: &AddressMap,
    used: CallUse,
) -> Result<(), AllocError> {
    if let Some(name) = used.does {
        text.string_field(b"does", name)?;
    }
    push_arguments(text, used.arguments)?;
    match used.string {
        Some(1) => push_string(text, memory, 1, cpu.register(1)),
        Some(_) => push_string(text, memory, 0, cpu.register(0)),
        None => Ok(()),
    }
}

fn push_arguments(text: &mut RecordText, numbers: &[u32]) -> Result<(), AllocError> {
    if numbers.is_empty() {
        return Ok(());
    }
    text.open_field(b"args", Bracket::List)?;
    for number in numbers {
        text.string(plain_name(*number))?;
    }
    text.close(Bracket::List)
}

// The string that a register points to, up to a control character or where no memory is mapped.
fn push_string(
    text: &mut RecordText,
    memory: &AddressMap,
    number: u32,
    first: u32,
) -> Result<(), AllocError> {
    text.open_field(b"strings", Bracket::Object)?;
    text.name(plain_name(number))?;
    text.open_string()?;
    let mut at = first;
    for _characters in 0..MOST_CHARACTERS {
        match memory.load_byte(at) {
            Ok(byte) if byte >= b' ' => text.character(byte)?,
            _ => break,
        }
        at = at.wrapping_add(1);
    }
    text.close_string()?;
    text.close(Bracket::Object)
}

fn use_of(name: SwiName, reason: u32) -> CallUse {
    match name {
        SwiName::Heap => heap_use(HeapReason::of(reason)),
        SwiName::Module => module_use(ModuleReason::of(reason)),
        SwiName::DynamicArea => area_use(AreaReason::of(reason)),
        SwiName::Write0 => CallUse {
            does: None,
            arguments: &[0],
            string: Some(0),
        },
        SwiName::WriteC
        | SwiName::GenerateError
        | SwiName::ReadDynamicArea
        | SwiName::FlexFree
        | SwiName::FlexSize => CallUse::plain(&[0]),
        SwiName::ChangeDynamicArea | SwiName::FlexInit | SwiName::FlexAlloc | SwiName::FlexExtend =>
            CallUse::plain(&[0, 1]),
        SwiName::FlexMidExtend => CallUse::plain(&[0, 1, 2]),
        SwiName::WriteI | SwiName::WriteS | SwiName::NewLine | SwiName::Exit | SwiName::EnterOs =>
            CallUse::plain(&[]),
    }
}

fn heap_use(reason: Option<HeapReason>) -> CallUse {
    match reason {
        Some(HeapReason::Initialise) => CallUse::reason(b"Initialise", &[1, 3]),
        Some(HeapReason::Describe) => CallUse::reason(b"Describe", &[1]),
        Some(HeapReason::Get) => CallUse::reason(b"Get", &[1, 3]),
        Some(HeapReason::Free) => CallUse::reason(b"Free", &[1, 2]),
        Some(HeapReason::Resize) => CallUse::reason(b"Resize", &[1, 2, 3]),
        Some(HeapReason::ChangeSize) => CallUse::reason(b"ChangeSize", &[1, 3]),
        Some(HeapReason::BlockSize) => CallUse::reason(b"BlockSize", &[1, 2]),
        None => CallUse::unknown(),
    }
}

fn area_use(reason: Option<AreaReason>) -> CallUse {
    match reason {
        Some(AreaReason::Create) => CallUse::reason(b"Create", &[1, 2, 3, 4, 5, 6, 7, 8]),
        Some(AreaReason::Remove) => CallUse::reason(b"Remove", &[1]),
        Some(AreaReason::Info) => CallUse::reason(b"Info", &[1]),
        Some(AreaReason::Enumerate) => CallUse::reason(b"Enumerate", &[1]),
        Some(AreaReason::Renumber) => CallUse::reason(b"Renumber", &[1, 2]),
        None => CallUse::unknown(),
    }
}

fn module_use(reason: Option<ModuleReason>) -> CallUse {
    let name = module_name(reason);
    match reason {
        Some(
            ModuleReason::Run
            | ModuleReason::Load
            | ModuleReason::Reinit
            | ModuleReason::Delete
            | ModuleReason::Instantiate
            | ModuleReason::Prefer
            | ModuleReason::Lookup,
        ) => CallUse::named(name, &[1]),
        Some(ModuleReason::Enter | ModuleReason::Rename) => CallUse::named(name, &[1, 2]),
        Some(ModuleReason::Claim) => CallUse::reason(name, &[3]),
        Some(ModuleReason::Free) => CallUse::reason(name, &[2]),
        Some(ModuleReason::Insert) => CallUse::reason(name, &[1]),
        Some(ModuleReason::InsertCopy | ModuleReason::Info) => CallUse::reason(name, &[1, 2]),
        Some(ModuleReason::Extend) => CallUse::reason(name, &[2, 3]),
        Some(ModuleReason::DescribeArea | ModuleReason::Tidy | ModuleReason::Clear) => {
            CallUse::reason(name, &[])
        }
        None => CallUse::unknown(),
    }
}
