//! What the step of a word does to memory, and where it goes on, as its bits show it.

ghost use Rattle.std.specs.Prelude.{◌≡◌, ◌≤◌, ◌^◌};
ghost use Rattle.debug_tables.specs.WordFlows.{transfer_flow, word_flow};

use arm_decode::{Form, row_of};
use profile::word::is_bit_set;

/// What a word does to memory, carried out or not, and where its step goes on, where it is done.
#[derive(Clone, Copy)]
pub enum WordFlow {
    /// Memory stays, and the next word comes next.
    Straight,
    /// Memory stays, and the next word comes next, or this one.
    Branches(u32),
    /// Memory stays.
    Anywhere,
    /// Memory may change.
    Stores,
}

/// The flow of a word at an address.
#[tactic(auto, unfolding(crate::specs::WordFlows::word_flow))]
pub fn word_flow(at: u32, word: u32) -> WordFlow
    requires { at ≤ 2 ^ 26 }
    ensures { result ≡ word_flow at word }
{
    match row_of(word) {
        Ok(Form::ShiftByNumber | Form::ShiftByRegister | Form::Immediate)
            if word >> 12 & 15 != 15 => WordFlow::Straight,
        Ok(Form::Branch) if !is_bit_set(word, 24) => {
            WordFlow::Branches((at + 8 + 4 * (word % (1 << 24))) % (1 << 26))
        }
        Ok(Form::OffsetByNumber | Form::OffsetByRegister) => transfer_flow(word),
        Ok(Form::BlockTransfer) if !is_bit_set(word, 20) => WordFlow::Stores,
        _ => WordFlow::Anywhere,
    }
}

// That of LDR and STR: a load goes straight on that writes no R15, as its base neither.
fn transfer_flow(word: u32) -> WordFlow
    ensures { result ≡ transfer_flow word }
{
    if !is_bit_set(word, 20) {
        return WordFlow::Stores;
    }
    let writes_base = !is_bit_set(word, 24) || is_bit_set(word, 21);
    if word >> 12 & 15 == 15 || (word >> 16 & 15 == 15 && writes_base) {
        return WordFlow::Anywhere;
    }
    WordFlow::Straight
}
