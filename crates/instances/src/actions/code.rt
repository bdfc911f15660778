//! The code that an action runs.

ghost use Rattle.std.specs.Prelude.{◌≡◌};
ghost use Rattle.instances.specs.actions.Codes.{code_among, code_to_enter, entry_offset};

use instances_table::plans::{Code, CodeKind, Header, PlanAction, private_word};
use instances_table::{ENVIRONMENT_TEXT, InstanceTable};

/// The code that an action runs, if the module of its instance has that entry.
///
/// RISC OS 3 Programmer's Reference Manual, "Modules", "Initialisation entry point", "Finalisation
/// entry point".
#[tactic(auto, unfolding(crate::specs::actions::Codes::code_among))]
pub fn code_of(table: &InstanceTable, action: PlanAction) -> Option<Code>
    ensures { result ≡ code_among table.now action }
{
    match action {
        PlanAction::Finalise(slot, fatal) => entered(
            table,
            CodeKind::Finalise,
            slot,
            u32::from(fatal),
        ),
        PlanAction::Initialise(slot) => entered(
            table,
            CodeKind::Initialise,
            slot,
            ENVIRONMENT_TEXT,
        ),
        _ => None,
    }
}

/// The code at an entry of the module that has the instance of a slot.
fn entered(table: &InstanceTable, kind: CodeKind, slot: u32, r10: u32) -> Option<Code>
    ensures { result ≡ code_to_enter kind slot r10 table.now }
{
    let place = table.place_of_slot(slot)?;
    let entry = entry_of(table.header(place.number)?, kind);
    let image = table.module(place.number)?.image;
    table.known();
    if entry == 0 {
        return None;
    }
    Some(Code {
        kind,
        slot,
        at: image.wrapping_add(entry),
        r10,
        r11: place.instance,
        r12: private_word(slot),
    })
}

fn entry_of(header: &Header, kind: CodeKind) -> u32
    ensures { result ≡ entry_offset kind header.now }
{
    match kind {
        CodeKind::Initialise => header.initialise,
        CodeKind::Finalise => header.finalise,
    }
}
