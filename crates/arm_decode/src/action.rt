//! What an instruction does, with its fields as they stand in the word.

use crate::address::{Address, BlockMode};
use crate::bits::Bits;
use crate::operand::Operand;
use crate::operation::Operation;
use crate::register::{Register, RegisterList};

/// Data processing: AND to MVN.
#[derive(Clone, Copy)]
pub struct Operate {
    /// What is computed, bits 24 to 21.
    pub operation: Operation,
    /// Bit 20, S: whether the flags are set.
    pub sets_flags: bool,
    /// The first operand, bits 19 to 16; 0 for MOV and MVN.
    pub rn: Register,
    /// The destination, bits 15 to 12; of a test 0, or 15 for its form P.
    pub rd: Register,
    /// The second operand.
    pub operand: Operand,
}

/// MUL and MLA: Rd is Rm times Rs, plus Rn for MLA.
#[derive(Clone, Copy)]
pub struct Multiply {
    /// Bit 21, A: whether Rn is added.
    pub accumulates: bool,
    /// Bit 20, S: whether the flags are set.
    pub sets_flags: bool,
    /// The destination, bits 19 to 16.
    pub rd: Register,
    /// What MLA adds, bits 15 to 12; 0 for MUL.
    pub rn: Register,
    /// The second factor, bits 11 to 8.
    pub rs: Register,
    /// The first factor, bits 3 to 0.
    pub rm: Register,
}

/// LDR and STR.
#[derive(Clone, Copy)]
pub struct Transfer {
    /// Bit 20, L: whether Rd is loaded or stored.
    pub loads: bool,
    /// Bit 22, B: whether a byte is moved or a word.
    pub is_byte: bool,
    /// The register loaded or stored, bits 15 to 12.
    pub rd: Register,
    /// Where it is loaded from or stored to.
    pub address: Address,
}

/// LDM and STM.
#[derive(Clone, Copy)]
pub struct BlockTransfer {
    /// Bit 20, L: whether the registers are loaded or stored.
    pub loads: bool,
    /// Where the words lie, bits 24 and 23.
    pub mode: BlockMode,
    /// Bit 22, S: the PSR is loaded with R15, or else the user bank is meant.
    pub psr_or_user: bool,
    /// Bit 21, W: whether the base is written back.
    pub writes_back: bool,
    /// The base register, bits 19 to 16.
    pub rn: Register,
    /// The registers loaded or stored, bits 15 to 0.
    pub list: RegisterList,
}

/// What an instruction does when its condition holds, with its fields as they stand in the word.
#[derive(Clone, Copy)]
pub enum Action {
    /// Data processing.
    Operate(Operate),
    /// MUL, MLA.
    Multiply(Multiply),
    /// LDR, STR.
    Transfer(Transfer),
    /// LDM, STM.
    BlockTransfer(BlockTransfer),
    /// B, and with `links` (bit 24) BL. The `distance`, bits 23 to 0, is a signed number of words
    /// in two's complement.
    Branch { links: bool, distance: Bits<24> },
    /// SWI, with the number in bits 23 to 0.
    SoftwareInterrupt(Bits<24>),
}
