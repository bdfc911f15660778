//! What a step asks for outside of the core, of one look at its word.

ghost use Rattle.std.specs.Prelude.{◌≡◌, ◌≤◌};
ghost use Rattle.trace_effects.specs.Cause.{swi_of_cause};
ghost use Rattle.arm_decode.specs.Table.{form_of};
ghost use Rattle.trace_effects.specs.Effects.{no_effects, stays_inside};
ghost use Rattle.trace_effects.specs.Loaded.{loaded_register, loaded_words};
ghost use Rattle.trace_effects.specs.Stored.{stored_words};

use crate::cause::{Cause, swi_of_action};
use crate::loaded::{loads_of_action, register_of_action};
use crate::stored::{StoredWords, no_words, words_of_action};
use arm_core::Cpu;
use arm_decode::{Form, decode, row_of};

/// What a step asks for outside of the core: the software interrupt that is taken, if it is one, the words
/// that it stores to and loads, and the register that an LDR loads.
#[derive(Clone, Copy)]
pub struct Effects {
    pub swi: Option<u32>,
    pub stored: StoredWords,
    pub loaded: StoredWords,
    pub target: Option<u32>,
}

/// What the step of a core asks for at whose program counter this stands, where it is refused too.
pub fn effects_of(cause: Cause, cpu: &Cpu) -> Effects
    ensures swi { result.swi ≡ swi_of_cause cause }
    ensures stored { result.stored ≡ stored_words cause cpu.now }
    ensures loaded { result.loaded ≡ loaded_words cause cpu.now }
    ensures target { result.target ≡ loaded_register cause }
    ensures few { result.stored.count ≤ 16 }
{
    match cause {
        Cause::Word(word) if !stays_inside(word) => match decode(word) {
            Ok(instr) => Effects {
                swi: swi_of_action(instr.action()),
                stored: words_of_action(cpu, instr.action()),
                loaded: loads_of_action(cpu, instr.action()),
                target: register_of_action(instr.action()),
            },
            Err(_) => no_effects(),
        },
        _ => no_effects(),
    }
}

// Whether a word's form is one that asks for nothing outside of the core: such words aren't decoded.
fn stays_inside(word: u32) -> bool
    ensures { result ≡ stays_inside (form_of word) }
{
    match row_of(word) {
        Ok(Form::Multiply | Form::ShiftByNumber | Form::ShiftByRegister) => true,
        Ok(Form::Immediate | Form::Branch) => true,
        _ => false,
    }
}

fn no_effects() -> Effects
    ensures { result ≡ no_effects }
{
    Effects {
        swi: None,
        stored: no_words(),
        loaded: no_words(),
        target: None,
    }
}
