//! The second operand of data processing.

use crate::bits::Bits;
use crate::register::Register;
use crate::shift::{Shift, ShiftedRegister};

/// The second operand of data processing.
#[derive(Clone, Copy)]
pub enum Operand {
    /// A byte (bits 7 to 0) rotated right by twice the `rotation` (bits 11 to 8).
    Immediate {
        rotation: Bits<4>,
        byte: u8,
    },
    /// A register shifted by a number.
    Shifted(ShiftedRegister),
    /// Rm (bits 3 to 0) shifted by the low byte of Rs (bits 11 to 8).
    ShiftedByRegister {
        rm: Register,
        shift: Shift,
        rs: Register,
    },
}
