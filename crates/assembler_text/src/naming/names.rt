//! The names of registers, conditions, operations, shifts and block modes, in letters of either
//! case.

ghost use Rattle.std.specs.Prelude.{◌≡◌};
ghost use Rattle.assembler_text.specs.naming.Names.{block_mode_named, condition_named, names_block_mode, names_condition, names_operation, names_shift, numbered_register, operation_named, printed_condition, register, register_named, shift_named, stack_text};
ghost use Rattle.assembler_text.specs.naming.Words.{read_of};

use crate::names::{block_mode_text, condition_text, operation_text, shift_text};
use crate::naming::words::{Read, after_word, is_name, word};
use arm_decode::{BlockMode, Condition, Operation, Register, Shift};

static CONDITIONS: [Condition; 16] = [
    Condition::Equal,
    Condition::NotEqual,
    Condition::CarrySet,
    Condition::CarryClear,
    Condition::Minus,
    Condition::Plus,
    Condition::OverflowSet,
    Condition::OverflowClear,
    Condition::Higher,
    Condition::LowerOrSame,
    Condition::GreaterOrEqual,
    Condition::LessThan,
    Condition::GreaterThan,
    Condition::LessOrEqual,
    Condition::Always,
    Condition::Never,
];

static OPERATIONS: [Operation; 16] = [
    Operation::And,
    Operation::ExclusiveOr,
    Operation::Subtract,
    Operation::ReverseSubtract,
    Operation::Add,
    Operation::AddWithCarry,
    Operation::SubtractWithCarry,
    Operation::ReverseSubtractWithCarry,
    Operation::Test,
    Operation::TestEquivalence,
    Operation::Compare,
    Operation::CompareNegated,
    Operation::Or,
    Operation::Move,
    Operation::BitClear,
    Operation::MoveNot,
];

static SHIFTS: [Shift; 4] = [
    Shift::LogicalLeft,
    Shift::LogicalRight,
    Shift::ArithmeticRight,
    Shift::RotateRight,
];

static BLOCK_MODES: [BlockMode; 4] = [
    BlockMode::DecrementAfter,
    BlockMode::IncrementAfter,
    BlockMode::DecrementBefore,
    BlockMode::IncrementBefore,
];

/// The register at the front of a text: `R0` to `R15`, `SP`, `LR` or `PC`.
pub fn register(text: &[u8]) -> Read<'_, Register>
    ensures { read_of result ≡ register text.now }
{
    let named = register_named(word(text))?;
    Some((named, after_word(text)))
}

/// The register of this name.
pub fn register_named(name: &[u8]) -> Option<Register>
    ensures { result ≡ register_named name.now }
{
    if is_name(name, b"SP") {
        Some(Register::new(13))
    } else if is_name(name, b"LR") {
        Some(Register::new(14))
    } else if is_name(name, b"PC") {
        Some(Register::new(15))
    } else {
        numbered_register(name)
    }
}

fn numbered_register(name: &[u8]) -> Option<Register>
    ensures { result ≡ numbered_register name.now }
{
    match name {
        [b'R' | b'r', digit @ b'0'..=b'9'] => Some(Register::new(*digit - b'0')),
        [b'R' | b'r', b'1', digit @ b'0'..=b'5'] => Some(Register::new(*digit - 38)),
        _ => None,
    }
}

/// The condition of this suffix; none at all and `AL` both mean always.
pub fn condition_named(name: &[u8]) -> Option<Condition>
    ensures { result ≡ condition_named name.now }
{
    if is_name(name, b"AL") {
        Some(Condition::Always)
    } else {
        printed_condition(name)
    }
}

// The condition that is printed so.
fn printed_condition(name: &[u8]) -> Option<Condition>
    ensures { result ≡ printed_condition name.now }
{
    CONDITIONS
        .iter()
        .copied()
        .find(|condition| names_condition(name, *condition))
}

fn names_condition(name: &[u8], condition: Condition) -> bool
    ensures { result ≡ names_condition name.now condition }
{
    is_name(name, condition_text(condition))
}

/// The operation of this name, `AND` to `MVN`.
pub fn operation_named(name: &[u8]) -> Option<Operation>
    ensures { result ≡ operation_named name.now }
{
    OPERATIONS
        .iter()
        .copied()
        .find(|operation| names_operation(name, *operation))
}

fn names_operation(name: &[u8], operation: Operation) -> bool
    ensures { result ≡ names_operation name.now operation }
{
    is_name(name, operation_text(operation))
}

/// The shift of this name, `LSL` to `ROR`.
pub fn shift_named(name: &[u8]) -> Option<Shift>
    ensures { result ≡ shift_named name.now }
{
    SHIFTS
        .iter()
        .copied()
        .find(|shift| names_shift(name, *shift))
}

fn names_shift(name: &[u8], shift: Shift) -> bool
    ensures { result ≡ names_shift name.now shift }
{
    is_name(name, shift_text(shift))
}

/// The mode of a block transfer by its suffix, `IA` to `DB` or the name of a stack, `FD` to `EA`.
pub fn block_mode_named(loads: bool, name: &[u8]) -> Option<BlockMode>
    ensures { result ≡ block_mode_named loads name.now }
{
    BLOCK_MODES
        .iter()
        .copied()
        .find(|mode| names_block_mode(loads, name, *mode))
}

fn names_block_mode(loads: bool, name: &[u8], mode: BlockMode) -> bool
    ensures { result ≡ names_block_mode loads name.now mode }
{
    is_name(name, block_mode_text(mode)) || is_name(name, stack_text(loads, mode))
}

// What STM pushes, LDM of the same name pulls.
fn stack_text(loads: bool, mode: BlockMode) -> &'static [u8]
    ensures { result.now ≡ stack_text loads mode }
{
    match mode {
        BlockMode::IncrementAfter if loads => b"FD",
        BlockMode::DecrementAfter if loads => b"FA",
        BlockMode::IncrementBefore if loads => b"ED",
        BlockMode::DecrementBefore if loads => b"EA",
        BlockMode::DecrementBefore => b"FD",
        BlockMode::IncrementBefore => b"FA",
        BlockMode::DecrementAfter => b"ED",
        BlockMode::IncrementAfter => b"EA",
    }
}
