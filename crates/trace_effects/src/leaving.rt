//! Which store calls leave the machine's store as it is.

ghost use Rattle.std.specs.Prelude.{◌≡◌};
ghost use Rattle.trace_effects.specs.Leaving.{area_asks, call_leaves, heap_asks, module_asks, moves_no_block, stays_in_heap};

use profile::{AreaReason, HeapReason, ModuleReason, SwiName};

/// Whether a store call leaves memory and all that is recorded in it as they are, whatever it answers,
/// but for the system's error block; by its number without the X bit, and what is in R0.
pub fn call_leaves(r0: u32, number: u32) -> bool
    ensures value { result ≡ call_leaves r0 number }
{
    match SwiName::of(number) {
        Some(SwiName::Heap) => heap_asks(HeapReason::of(r0)),
        Some(SwiName::DynamicArea) => area_asks(AreaReason::of(r0)),
        Some(SwiName::Module) => module_asks(ModuleReason::of(r0)),
        None
        | Some(SwiName::WriteC)
        | Some(SwiName::WriteS)
        | Some(SwiName::Write0)
        | Some(SwiName::NewLine)
        | Some(SwiName::WriteI)
        | Some(SwiName::Exit)
        | Some(SwiName::EnterOs)
        | Some(SwiName::GenerateError)
        | Some(SwiName::ReadDynamicArea)
        | Some(SwiName::FlexSize) => true,
        Some(_) => false,
    }
}

fn heap_asks(reason: Option<HeapReason>) -> bool
    ensures { result ≡ heap_asks reason }
{
    matches!(
        reason,
        None | Some(HeapReason::Describe | HeapReason::BlockSize)
    )
}

fn area_asks(reason: Option<AreaReason>) -> bool
    ensures { result ≡ area_asks reason }
{
    !matches!(reason, Some(AreaReason::Create | AreaReason::Remove))
}

fn module_asks(reason: Option<ModuleReason>) -> bool
    ensures { result ≡ module_asks reason }
{
    matches!(
        reason,
        None | Some(ModuleReason::DescribeArea | ModuleReason::Info | ModuleReason::Lookup)
    )
}

/// Whether a store call writes only words that the list of its heap spells; by the same.
pub fn stays_in_heap(r0: u32, number: u32) -> bool
    ensures value { result ≡ stays_in_heap r0 number }
{
    match SwiName::of(number) {
        Some(SwiName::Heap) => moves_no_block(HeapReason::of(r0)),
        _ => false,
    }
}

fn moves_no_block(reason: Option<HeapReason>) -> bool
    ensures { result ≡ moves_no_block reason }
{
    !matches!(reason, Some(HeapReason::Resize))
}
