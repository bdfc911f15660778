//! The block that an error stands in: its number and then its text (RISC OS 3 Programmer's
//! Reference Manual, "Generating and handling errors").

ghost use Rattle.address_map.specs.MemoryMap.{error_block_start};
ghost use Rattle.std.specs.Prelude.{◌≡◌};
ghost use Rattle.instances_table.specs.ErrorNames.{error_code, error_name};
ghost use Rattle.address_map.specs.Bytes.{AreMapped};
ghost use Rattle.address_map.specs.Memory.{bytes_of, is_mapped, layout, class_of};
ghost use Rattle.swi_dispatch_answers.specs.Errors.{error_at, memory_with_error};

use address_map::{AddressMap, ERROR_BLOCK, ErrorNumber};
use instances_table::error_text;

/// The number of the error whose block stands at an address, or that of `BadPointer` where none can
/// stand there.
pub fn error_at(memory: &AddressMap, at: u32) -> u32
    ensures { result ≡ error_at (bytes_of memory.now) at }
{
    let no_block = ErrorNumber::BadPointer.number();
    if at % 4 != 0 {
        return no_block;
    }
    memory.load_word(at).unwrap_or(no_block)
}

/// The number and the text of an error, with a zero byte after it, go to the error block.
pub fn write_error(memory: &mut AddressMap, error: ErrorNumber)
    requires { AreMapped (is_mapped memory.old) error_block_start 256 }
    ensures bytes { bytes_of memory.new ≡ memory_with_error (bytes_of memory.old) (error_code error)
        (error_name error) }
    ensures layout { layout memory.new ≡ layout memory.old }
    ensures marks { class_of memory.new ≡ class_of memory.old }
{
    let text = error_text(error).as_bytes();
    memory.put_word(ERROR_BLOCK, error.number());
    memory.put_bytes(ERROR_BLOCK + 4, text);
    memory.put_bytes(ERROR_BLOCK + 4 + text.len() as u32, &[0]);
}
