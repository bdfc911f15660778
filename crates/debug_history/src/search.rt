//! What can be looked for in the past, and what is found.

ghost use Rattle.std.specs.Prelude.{◌≡◌, ◌+◌};
ghost use Rattle.debug_labels.specs.Payloads.{payload_of};
ghost use Rattle.debug_history.specs.Search.{block_headed_at, block_round, is_same_seen, passes, value_in};
ghost use Rattle.debug_tables.specs.GuestState.{state_of};

use arm_core::Mode;
use command_shell_lines::{RegisterNumber, WordAddress};
use debug_labels::Payload;
use debug_tables::Machine;

/// How many bytes of a block stand before those that it holds: its length.
const BLOCK_HEAD: u32 = 4;

/// What is looked for: the last change of a part of the machine, or the last time that it stood somewhere.
#[derive(Clone, Copy)]
pub enum Sought {
    /// A change of a word.
    Word(WordAddress),
    /// A change of a byte.
    Byte(u32),
    /// A change of one of R0 to R14 of the mode that the machine was in when it was asked for.
    Register(Mode, RegisterNumber),
    /// A change of a register of a mode's bank, asked for by the mode.
    Banked(Mode, RegisterNumber),
    /// A change of the status: the flags, the interrupt bits, or the mode.
    Status,
    /// A step from an address.
    Stood(u32),
    /// Another live block of a heap round an address than before, or none.
    Block(u32),
    /// Another live block of a heap round an address than before, if there was one.
    Claimed(u32),
    /// Another live block of a heap round an address than before, or none any more.
    Freed(u32),
}

/// The last time that it was so.
#[derive(Clone, Copy)]
pub struct PastFound {
    /// How many steps were counted before it.
    pub step: u64,
    /// The number of the line that did it.
    pub line: u64,
    /// Whether it was a step that was counted; else it was a change from outside.
    pub is_step: bool,
    /// What was seen before it; `None` where no memory is mapped.
    pub before: Option<u32>,
    /// What was seen after it.
    pub after: Option<u32>,
}

impl Sought {
    /// What is seen on a machine of what is looked at.
    pub(crate) fn seen(&self, machine: &Machine) -> Option<u32>
        ensures { result ≡ value_in self.now (state_of machine.now.guest) }
    {
        match self {
            Sought::Word(address) => machine.memory().load_word(address.address()).ok(),
            Sought::Byte(address) => machine.memory().load_byte(*address).ok().map(u32::from),
            Sought::Register(mode, number) | Sought::Banked(mode, number) => Some(
                machine.cpu().register_in(*mode, number.number()),
            ),
            Sought::Status => Some(machine.cpu().psr().bits()),
            Sought::Stood(_) => Some(machine.cpu().pc()),
            Sought::Block(address) | Sought::Claimed(address) | Sought::Freed(address) => {
                block_round(machine, *address)
            }
        }
    }

    /// Whether something that counts so many steps, and before and after which this is seen, is sought.
    pub(crate) fn passes(&self, steps: u64, before: Option<u32>, after: Option<u32>) -> bool
        ensures { result ≡ passes self.now steps before after }
    {
        match self {
            Sought::Stood(address) => steps > 0 && is_same_seen(before, Some(*address)),
            Sought::Claimed(_) => after.is_some() && !is_same_seen(before, after),
            Sought::Freed(_) => before.is_some() && !is_same_seen(before, after),
            _ => !is_same_seen(before, after),
        }
    }
}

// Where the live block of a heap stands that has an address, its length word or a byte that it holds.
fn block_round(machine: &Machine, address: u32) -> Option<u32>
    ensures { result ≡ block_round (state_of machine.now.guest).store address }
{
    match machine.heaps().live_payload(machine.memory(), address) {
        Payload::Inside { at, len: _ } => Some(at.saturating_sub(BLOCK_HEAD)),
        Payload::Outside | Payload::Other => match address.checked_add(BLOCK_HEAD) {
            Some(held) => block_holding(machine, address, held),
            None => None,
        },
    }
}

// The live block at an address, where the first byte that it holds is that one.
fn block_holding(machine: &Machine, address: u32, held: u32) -> Option<u32>
    requires { held ≡ address + 4 }
    ensures { result
        ≡ block_headed_at address (payload_of (state_of machine.now.guest).store.heaps (address + 4)) }
{
    match machine.heaps().live_payload(machine.memory(), held) {
        Payload::Inside { at, len: _ } if at == held => Some(address),
        _ => None,
    }
}

fn is_same_seen(one: Option<u32>, other: Option<u32>) -> bool
    ensures { result ≡ is_same_seen one other }
{
    match (one, other) {
        (None, None) => true,
        (Some(one), Some(other)) => one == other,
        _ => false,
    }
}
