//! MUL and MLA predecoded.

ghost use Rattle.std.specs.Prelude.{◌≡◌, ◌<◌, Ok, None, false};
ghost use Rattle.arm_core.specs.Fields.{condition_in, multiply_in};
ghost use Rattle.arm_core.specs.Refusals.{refusal};
ghost use Rattle.arm_core.specs.Table.{form_of};
ghost use Rattle.arm_core.specs.Action.{Action};
ghost use Rattle.arm_core.specs.Condition.{Condition};
ghost use Rattle.arm_core.specs.Form.{Form};
ghost use Rattle.arm_predecode.specs.Kinds.{KindMeans, MultipliesPlainly};
ghost use Rattle.arm_predecode.specs.OpValue.{OpValue};

use crate::kind::OpKind;
use crate::op::Op;
use arm_core::{Multiply, Shift};

/// The kind of MUL, or of MLA.
#[tactic(auto, using(crate::proofs::SameKinds::same_product))]
fn product_kind(accumulates: bool) -> OpKind
    ensures { (op : OpValue) → MultipliesPlainly accumulates op → KindMeans result op }
{
    match accumulates {
        false => OpKind::Multiply,
        true => OpKind::MultiplyAdd,
    }
}

impl Op {
    /// MUL or MLA without S; any other word is left to its fields.
    pub(crate) fn multiply(word: u32) -> Op
        requires form { form_of word ≡ Ok Form.Multiply }
        requires always { condition_in word ≡ Condition.Always }
        ensures { result.word ≡ word }
    {
        let multiply = Multiply::in_word(word);
        if multiply.refusal().is_some() || multiply.sets_flags {
            return Op::slow(word);
        }
        let Multiply { rd, rn, rs, rm, .. } = multiply;
        if rd.is_pc() || rn.is_pc() || rs.is_pc() || rm.is_pc() {
            return Op::slow(word);
        }
        Op::by_product(&multiply, word)
    }

    fn by_product(multiply: &Multiply, word: u32) -> Op
        requires form { form_of word ≡ Ok Form.Multiply }
        requires always { condition_in word ≡ Condition.Always }
        requires fields { multiply.now ≡ multiply_in word }
        requires allowed { refusal (Action.Multiply multiply.now) ≡ None }
        requires flags { multiply.now.sets_flags ≡ false }
        requires rd { multiply.now.rd < 15 }
        requires rn { multiply.now.rn < 15 }
        requires rs { multiply.now.rs < 15 }
        requires rm { multiply.now.rm < 15 }
        ensures { result.word ≡ word }
    {
        let kind = product_kind(multiply.accumulates);
        let added = multiply.rn.number();
        let product = multiply.rd.number();
        let left = multiply.rm.number();
        let right = multiply.rs.number();
        Op {
            word,
            value: 0,
            kind,
            rd: added as u8,
            rn: product as u8,
            rm: left as u8,
            rs: right as u8,
            shift: Shift::LogicalLeft,
            is_rotated: false,
        }
    }
}
