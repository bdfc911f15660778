//! The faults that stop a machine, and their names.

ghost use Rattle.std.specs.Prelude.{◌≡◌, Some};
ghost use Rattle.raw_store.specs.FaultNames.{fault_name, fault_text};

use std::error::Error;
use std::fmt;

/// Why a step stopped the machine. A step that ends so has changed nothing.
///
/// The faults of the instruction set are the undefined and unpredictable cases of the ARM2 data
/// sheet, under names of this project's own.
#[derive(Clone, Copy, Debug, PartialEq, Eq)]
pub enum Fault {
    /// The program counter stands where no memory is mapped.
    FetchUnmapped,
    /// The word lies in the part of the instruction set that traps.
    UndefinedInstruction,
    /// The word meets no form of the ARM2, or has a field that must be zero.
    Unallocated,
    /// R15 stands where the data sheet forbids it.
    PcOperand,
    /// A multiply whose destination is its first operand.
    MultiplySame,
    /// A block transfer of no register.
    EmptyList,
    /// A user bank transfer that writes its base back.
    UserBankWriteback,
    /// An address of 2^26 or more.
    AddressException,
    /// An address where no memory is mapped.
    DataUnmapped,
    /// A store to a word that the store calls keep their records in.
    OwnedWord,
    /// Module code came back with another stack pointer than it was entered with.
    StackChanged,
    /// A call without the X bit ended in the error of this number.
    ErrorStop(u32),
}

impl Fault {
    /// The fault's name, as the script language prints it.
    pub fn name(self) -> &'static str
        ensures { result.now ≡ fault_name self }
    {
        match self {
            Fault::FetchUnmapped => "FetchUnmapped",
            Fault::UndefinedInstruction => "UndefinedInstruction",
            Fault::Unallocated => "Unallocated",
            Fault::PcOperand => "PcOperand",
            Fault::MultiplySame => "MultiplySame",
            Fault::EmptyList => "EmptyList",
            Fault::UserBankWriteback => "UserBankWriteback",
            Fault::AddressException => "AddressException",
            Fault::DataUnmapped => "DataUnmapped",
            Fault::OwnedWord => "OwnedWord",
            Fault::StackChanged => "StackChanged",
            Fault::ErrorStop(_) => "ErrorStop",
        }
    }
}

/// The fault's name, and after `ErrorStop` the error's number.
impl fmt::Display for Fault {
    ghost output = { λ fault. Some (fault_text fault) };

    fn fmt<W: fmt::Write>(&self, f: &mut fmt::Formatter<W>) -> fmt::Result {
        match self {
            Fault::ErrorStop(number) => write!(f, "ErrorStop {number}"),
            _ => f.write_str(self.name()),
        }
    }
}

impl Error for Fault {}
