//! A store call as words: its name, its reason and the registers that it reads.

ghost use Rattle.std.specs.Prelude.{◌≡◌, ◌≤◌};
ghost use Rattle.std.specs.List.{All};
ghost use Rattle.trace_effects.specs.Memory.{bytes_of};
ghost use Rattle.profile.specs.Output.{Writes};
ghost use Rattle.trace_text.specs.Calls.{area_words, argument_word, argument_words, call_words, heap_words, module_name, module_words, named_words, read_words, reason_word, reason_words, text_argument, text_reason_words};

use crate::strings::push_string;
use arm_core::Cpu;
use itoa::Buffer;
use profile::{
    AreaReason, HeapReason, HexText, ModuleReason, Sink, SwiName, WriteFault, push_all, push_parts,
};
use trace_effects::AddressMap;
use trace_store_text::push_quoted;

/// Writes a call's words, the first of them its name: ` XOS_Heap 2 Get R1=00009000 R3=00000014`. The
/// number is without its X bit.
pub fn push_call<W: Sink>(
    sink: &mut W,
    cpu: &Cpu,
    memory: &AddressMap,
    is_x: bool,
    number: u32,
) -> Result<(), WriteFault>
    ensures writes { Writes W.contents W.has_failed sink.old sink.new result
        (call_words cpu.now (bytes_of memory.now) is_x number) }
{
    let front = if is_x {
        b" X".as_slice()
    } else {
        b" ".as_slice()
    };
    push_all(sink, front)?;
    push_named(sink, cpu, memory, number, SwiName::of(number))
}

fn push_named<W: Sink>(
    sink: &mut W,
    cpu: &Cpu,
    memory: &AddressMap,
    number: u32,
    name: Option<SwiName>,
) -> Result<(), WriteFault>
    ensures { Writes W.contents W.has_failed sink.old sink.new result
        (named_words cpu.now (bytes_of memory.now) number name) }
{
    match name {
        Some(name) => {
            push_all(sink, name.name().as_bytes())?;
            push_read(sink, cpu, memory, number, name)
        }
        None => {
            push_parts(
                sink,
                &[b"SWI &".as_slice(), HexText::number(number).as_slice()],
            )?;
            push_arguments(sink, cpu, &[0, 1, 2, 3])
        }
    }
}

// What follows on a call's name.
fn push_read<W: Sink>(
    sink: &mut W,
    cpu: &Cpu,
    memory: &AddressMap,
    number: u32,
    name: SwiName,
) -> Result<(), WriteFault>
    ensures { Writes W.contents W.has_failed sink.old sink.new result
        (read_words cpu.now (bytes_of memory.now) number name) }
{
    match name {
        SwiName::Heap => push_heap(sink, cpu, HeapReason::of(cpu.register(0))),
        SwiName::Module => push_module(sink, cpu, memory, ModuleReason::of(cpu.register(0))),
        SwiName::DynamicArea => push_area(sink, cpu, AreaReason::of(cpu.register(0))),
        SwiName::Write0 => push_text_argument(sink, cpu, memory, 0),
        SwiName::WriteI => {
            push_all(sink, b" ")?;
            push_quoted(sink, &[(number % 256) as u8])
        }
        SwiName::WriteC
        | SwiName::GenerateError
        | SwiName::ReadDynamicArea
        | SwiName::FlexFree
        | SwiName::FlexSize => push_arguments(sink, cpu, &[0]),
        SwiName::ChangeDynamicArea | SwiName::FlexInit | SwiName::FlexAlloc | SwiName::FlexExtend =>
            push_arguments(sink, cpu, &[0, 1]),
        SwiName::FlexMidExtend => push_arguments(sink, cpu, &[0, 1, 2]),
        SwiName::WriteS | SwiName::NewLine | SwiName::Exit | SwiName::EnterOs => Ok(()),
    }
}

fn push_heap<W: Sink>(sink: &mut W, cpu: &Cpu, reason: Option<HeapReason>) -> Result<(), WriteFault>
    ensures { Writes W.contents W.has_failed sink.old sink.new result (heap_words cpu.now reason) }
{
    match reason {
        Some(HeapReason::Initialise) => push_reason(sink, cpu, b"Initialise", &[1, 3]),
        Some(HeapReason::Describe) => push_reason(sink, cpu, b"Describe", &[1]),
        Some(HeapReason::Get) => push_reason(sink, cpu, b"Get", &[1, 3]),
        Some(HeapReason::Free) => push_reason(sink, cpu, b"Free", &[1, 2]),
        Some(HeapReason::Resize) => push_reason(sink, cpu, b"Resize", &[1, 2, 3]),
        Some(HeapReason::ChangeSize) => push_reason(sink, cpu, b"ChangeSize", &[1, 3]),
        Some(HeapReason::BlockSize) => push_reason(sink, cpu, b"BlockSize", &[1, 2]),
        None => push_reason_word(sink, cpu, b"?"),
    }
}

fn push_area<W: Sink>(sink: &mut W, cpu: &Cpu, reason: Option<AreaReason>) -> Result<(), WriteFault>
    ensures { Writes W.contents W.has_failed sink.old sink.new result (area_words cpu.now reason) }
{
    match reason {
        Some(AreaReason::Create) => push_reason(sink, cpu, b"Create", &[1, 2, 3, 4, 5, 6, 7, 8]),
        Some(AreaReason::Remove) => push_reason(sink, cpu, b"Remove", &[1]),
        Some(AreaReason::Info) => push_reason(sink, cpu, b"Info", &[1]),
        Some(AreaReason::Enumerate) => push_reason(sink, cpu, b"Enumerate", &[1]),
        Some(AreaReason::Renumber) => push_reason(sink, cpu, b"Renumber", &[1, 2]),
        None => push_reason_word(sink, cpu, b"?"),
    }
}

fn push_module<W: Sink>(
    sink: &mut W,
    cpu: &Cpu,
    memory: &AddressMap,
    reason: Option<ModuleReason>,
) -> Result<(), WriteFault>
    ensures { Writes W.contents W.has_failed sink.old sink.new result
        (module_words cpu.now (bytes_of memory.now) reason) }
{
    let name = module_name(reason);
    match reason {
        Some(
            ModuleReason::Run
            | ModuleReason::Load
            | ModuleReason::Reinit
            | ModuleReason::Delete
            | ModuleReason::Instantiate
            | ModuleReason::Prefer
            | ModuleReason::Lookup,
        ) => push_text_reason(sink, cpu, memory, name, &[]),
        Some(ModuleReason::Enter | ModuleReason::Rename) => {
            push_text_reason(sink, cpu, memory, name, &[2])
        }
        Some(ModuleReason::Claim) => push_reason(sink, cpu, name, &[3]),
        Some(ModuleReason::Free) => push_reason(sink, cpu, name, &[2]),
        Some(ModuleReason::Insert) => push_reason(sink, cpu, name, &[1]),
        Some(ModuleReason::InsertCopy | ModuleReason::Info) => {
            push_reason(sink, cpu, name, &[1, 2])
        }
        Some(ModuleReason::Extend) => push_reason(sink, cpu, name, &[2, 3]),
        None | Some(ModuleReason::DescribeArea | ModuleReason::Tidy | ModuleReason::Clear) => {
            push_reason_word(sink, cpu, name)
        }
    }
}

/// The name of a reason of OS_Module, and a question mark where there is none.
pub fn module_name(reason: Option<ModuleReason>) -> &'static [u8]
    ensures { result.now ≡ module_name reason }
{
    match reason {
        Some(ModuleReason::Run) => b"Run",
        Some(ModuleReason::Load) => b"Load",
        Some(ModuleReason::Enter) => b"Enter",
        Some(ModuleReason::Reinit) => b"Reinit",
        Some(ModuleReason::Delete) => b"Delete",
        Some(ModuleReason::DescribeArea) => b"DescribeArea",
        Some(ModuleReason::Claim) => b"Claim",
        Some(ModuleReason::Free) => b"Free",
        Some(ModuleReason::Tidy) => b"Tidy",
        Some(ModuleReason::Clear) => b"Clear",
        Some(ModuleReason::Insert) => b"Insert",
        Some(ModuleReason::InsertCopy) => b"InsertCopy",
        Some(ModuleReason::Info) => b"Info",
        Some(ModuleReason::Extend) => b"Extend",
        Some(ModuleReason::Instantiate) => b"Instantiate",
        Some(ModuleReason::Rename) => b"Rename",
        Some(ModuleReason::Prefer) => b"Prefer",
        Some(ModuleReason::Lookup) => b"Lookup",
        None => b"?",
    }
}

// A reason, the text at R1 and further registers.
fn push_text_reason<W: Sink>(
    sink: &mut W,
    cpu: &Cpu,
    memory: &AddressMap,
    name: &[u8],
    numbers: &[u32],
) -> Result<(), WriteFault>
    requires { All (λ n. n ≤ 15) numbers.now }
    ensures { Writes W.contents W.has_failed sink.old sink.new result
        (text_reason_words cpu.now (bytes_of memory.now) name.now numbers.now) }
{
    push_reason_word(sink, cpu, name)?;
    push_text_argument(sink, cpu, memory, 1)?;
    push_arguments(sink, cpu, numbers)
}

// A reason and registers.
fn push_reason<W: Sink>(
    sink: &mut W,
    cpu: &Cpu,
    name: &[u8],
    numbers: &[u32],
) -> Result<(), WriteFault>
    requires { All (λ n. n ≤ 15) numbers.now }
    ensures { Writes W.contents W.has_failed sink.old sink.new result
        (reason_words cpu.now name.now numbers.now) }
{
    push_reason_word(sink, cpu, name)?;
    push_arguments(sink, cpu, numbers)
}

fn push_reason_word<W: Sink>(sink: &mut W, cpu: &Cpu, name: &[u8]) -> Result<(), WriteFault>
    ensures { Writes W.contents W.has_failed sink.old sink.new result (reason_word cpu.now name.now) }
{
    let mut digits = Buffer::new();
    push_parts(
        sink,
        &[
            b" ".as_slice(),
            digits.format(cpu.register(0)).as_bytes(),
            b" ".as_slice(),
            name,
        ],
    )
}

fn push_text_argument<W: Sink>(
    sink: &mut W,
    cpu: &Cpu,
    memory: &AddressMap,
    number: u32,
) -> Result<(), WriteFault>
    requires { number ≤ 15 }
    ensures { Writes W.contents W.has_failed sink.old sink.new result
        (text_argument cpu.now (bytes_of memory.now) number) }
{
    push_argument(sink, cpu, number)?;
    push_string(sink, memory, cpu.register(number))
}

fn push_arguments<W: Sink>(sink: &mut W, cpu: &Cpu, numbers: &[u32]) -> Result<(), WriteFault>
    requires { All (λ n. n ≤ 15) numbers.now }
    ensures { Writes W.contents W.has_failed sink.old sink.new result
        (argument_words cpu.now numbers.now) }
{
    for number in numbers {
        push_argument(sink, cpu, *number)?;
    }
    Ok(())
}

fn push_argument<W: Sink>(sink: &mut W, cpu: &Cpu, number: u32) -> Result<(), WriteFault>
    requires { number ≤ 15 }
    ensures { Writes W.contents W.has_failed sink.old sink.new result (argument_word cpu.now number) }
{
    let mut digits = Buffer::new();
    push_parts(
        sink,
        &[
            b" R".as_slice(),
            digits.format(number).as_bytes(),
            b"=".as_slice(),
            HexText::word(cpu.register(number)).as_slice(),
        ],
    )
}
