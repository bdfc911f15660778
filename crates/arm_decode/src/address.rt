//! The addresses of LDR, STR, LDM and STM: offset, direction, indexing, and the mode of a block.

ghost use Rattle.std.specs.Prelude.{◌≡◌, ◌<◌};
ghost use Rattle.profile.specs.Word.{field, bit_of};
ghost use Rattle.arm_decode.specs.Names.{direction_of, indexing_of, block_mode_of, block_mode_code, is_up, is_pre_indexed, has_w};

use crate::bits::Bits;
use crate::fields::field_of;
use crate::register::Register;
use crate::shift::ShiftedRegister;
use profile::word::is_bit_set;

/// Whether an offset is added to the base or taken from it: bit 23, U.
#[derive(Clone, Copy)]
pub enum Direction {
    /// U clear: the offset is taken from the base.
    Down,
    /// U set: the offset is added to the base.
    Up,
}

/// When the offset is applied, and what bit 21, W, then means: bit 24, P.
#[derive(Clone, Copy)]
pub enum Indexing {
    /// P clear: the transfer is at the base, which the offset changes afterwards. With W (then T)
    /// the transfer is one of user mode.
    Post { translates: bool },
    /// P set: the transfer is at the base changed by the offset. With W that address is written
    /// back to the base.
    Pre { writes_back: bool },
}

/// The offset of a single transfer.
#[derive(Clone, Copy)]
pub enum Offset {
    /// A number of 12 bits, bits 11 to 0.
    Immediate(Bits<12>),
    /// A register shifted by a number.
    Shifted(ShiftedRegister),
}

/// Where a single transfer reads or writes.
#[derive(Clone, Copy)]
pub struct Address {
    /// When the offset is applied, and whether the base is written back.
    pub indexing: Indexing,
    /// Which way the offset counts.
    pub direction: Direction,
    /// The base register, bits 19 to 16.
    pub rn: Register,
    /// The offset.
    pub offset: Offset,
}

/// Where the words of a block transfer lie beside its base: bits 24 and 23, P and U.
#[derive(Clone, Copy)]
pub enum BlockMode {
    /// DA: the last word lies at the base.
    DecrementAfter,
    /// IA: the first word lies at the base.
    IncrementAfter,
    /// DB: the last word lies below the base.
    DecrementBefore,
    /// IB: the first word lies above the base.
    IncrementBefore,
}

impl Direction {
    /// The direction that bit U of a word gives.
    #[inline(always)]
    pub(crate) fn in_word(word: u32) -> Direction
        ensures { result ≡ direction_of (bit_of word 23) }
    {
        if is_bit_set(word, 23) {
            Direction::Up
        } else {
            Direction::Down
        }
    }

    /// Bit U.
    pub(crate) fn is_up(self) -> bool
        ensures { result ≡ is_up self }
    {
        match self {
            Direction::Up => true,
            Direction::Down => false,
        }
    }
}

impl Indexing {
    /// The indexing that bits P and W of a word give.
    #[inline(always)]
    pub(crate) fn in_word(word: u32) -> Indexing
        ensures { result ≡ indexing_of (bit_of word 24) (bit_of word 21) }
    {
        let w = is_bit_set(word, 21);
        if is_bit_set(word, 24) {
            Indexing::Pre { writes_back: w }
        } else {
            Indexing::Post { translates: w }
        }
    }

    /// Bit P.
    pub(crate) fn is_pre(self) -> bool
        ensures { result ≡ is_pre_indexed self }
    {
        match self {
            Indexing::Pre { .. } => true,
            Indexing::Post { .. } => false,
        }
    }

    /// Bit W: whether the address is written back, or after post-indexing T.
    pub(crate) fn has_w(self) -> bool
        ensures { result ≡ has_w self }
    {
        match self {
            Indexing::Pre { writes_back } => writes_back,
            Indexing::Post { translates } => translates,
        }
    }
}

impl BlockMode {
    /// The mode that bits P and U of a word give.
    #[inline(always)]
    pub(crate) fn in_word(word: u32) -> BlockMode
        ensures { result ≡ block_mode_of (field word 23 2) }
    {
        match field_of(word, 23, 2) {
            0 => BlockMode::DecrementAfter,
            1 => BlockMode::IncrementAfter,
            2 => BlockMode::DecrementBefore,
            _ => BlockMode::IncrementBefore,
        }
    }

    /// Bits P and U as a number, 0 to 3.
    pub(crate) fn code(self) -> u32
        ensures value { result ≡ block_mode_code self }
        ensures below { result < 4 }
    {
        self as u32
    }
}
