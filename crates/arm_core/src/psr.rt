//! The four modes and the processor status, as R15 holds them.

ghost use Rattle.std.specs.Prelude.{◌≡◌, ◌<◌, ◌≤◌, ◌^◌, ◌%◌};
ghost use Rattle.arm_core.specs.Psr.{psr_bits, psr_of, mode_number, mode_of, psr_taken};

use arm_decode::is_bit_set;

/// The four modes of the processor, as bits 1 and 0 of R15 number them (ARM2 data sheet,
/// "Processor modes").
#[derive(Clone, Copy, PartialEq, Eq)]
pub enum Mode {
    /// USR, mode 0.
    User,
    /// FIQ, mode 1.
    FastInterrupt,
    /// IRQ, mode 2.
    Interrupt,
    /// SVC, mode 3.
    Supervisor,
}

impl Mode {
    /// The mode that the two lowest bits of a word name.
    #[inline(always)]
    pub(crate) fn of(word: u32) -> Mode
        ensures { result ≡ mode_of word }
    {
        match word & 3 {
            0 => Mode::User,
            1 => Mode::FastInterrupt,
            2 => Mode::Interrupt,
            _ => Mode::Supervisor,
        }
    }

    /// The mode's number, from 0 to 3.
    #[inline(always)]
    pub(crate) fn number(self) -> u32
        ensures value { result ≡ mode_number self }
        ensures below { result < 4 }
    {
        match self {
            Mode::User => 0,
            Mode::FastInterrupt => 1,
            Mode::Interrupt => 2,
            Mode::Supervisor => 3,
        }
    }
}

/// The processor status: what R15 holds beside the program counter (ARM2 data sheet, "Register 15").
#[derive(Clone, Copy, PartialEq, Eq)]
pub struct Psr {
    /// N, bit 31.
    pub negative: bool,
    /// Z, bit 30.
    pub zero: bool,
    /// C, bit 29.
    pub carry: bool,
    /// V, bit 28.
    pub overflow: bool,
    /// I, bit 27: interrupts are off.
    pub interrupts_off: bool,
    /// F, bit 26: fast interrupts are off.
    pub fast_interrupts_off: bool,
    /// Bits 1 and 0.
    pub mode: Mode,
}

impl Psr {
    /// The status that a word holds in bits 31 to 26, 1 and 0.
    #[inline(always)]
    pub(crate) fn of(word: u32) -> Psr
        ensures { result ≡ psr_of word }
    {
        Psr {
            negative: is_bit_set(word, 31),
            zero: is_bit_set(word, 30),
            carry: is_bit_set(word, 29),
            overflow: is_bit_set(word, 28),
            interrupts_off: is_bit_set(word, 27),
            fast_interrupts_off: is_bit_set(word, 26),
            mode: Mode::of(word),
        }
    }

    /// The status as it stands in R15: bits 31 to 26, 1 and 0 of a word, all others being 0.
    #[inline(always)]
    pub fn bits(self) -> u32
        ensures value { result ≡ psr_bits self }
        ensures most { result ≤ 0xFC00_0003 }
    {
        let flags = (u32::from(self.negative) << 31)
            + (u32::from(self.zero) << 30)
            + (u32::from(self.carry) << 29)
            + (u32::from(self.overflow) << 28);
        let masks = (u32::from(self.interrupts_off) << 27)
            + (u32::from(self.fast_interrupts_off) << 26);
        flags + masks + self.mode.number()
    }

    /// This status after an instruction that sets `new`: user mode takes N, Z, C and V alone.
    #[inline(always)]
    pub(crate) fn taking(self, new: Psr) -> Psr
        ensures { result ≡ psr_taken self new }
    {
        match self.mode {
            Mode::User => Psr {
                negative: new.negative,
                zero: new.zero,
                carry: new.carry,
                overflow: new.overflow,
                ..self
            },
            _ => new,
        }
    }
}
