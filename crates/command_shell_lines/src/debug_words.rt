//! What words of a debugging line stand for beside numbers of a script: values below 0, store calls and
//! errors by their names, bytes and texts; and what each line needs.
#![tactic(auto)]

mod error_names;
mod forms;
mod named_bytes;
mod past_texts;
mod spelling;
mod stubs;
mod texts;
mod values;

pub use assembler_text::naming::swi_named;
pub use error_names::error_shown;
pub use forms::{form_of_line, form_of_word};
pub use named_bytes::{bytes_named, bytes_written, names_bytes};
pub use past_texts::{no_history, push_address, push_number, push_step, undone_line, when_line};
pub use spelling::{is_spelt, is_well_spelt};
pub use stubs::{
    MOST_STUB_REGISTERS, MOST_STUB_WORDS, Stub, StubFlags, StubRegister, stub_of_line,
};
pub use texts::{between_quotes, byte_value, cut_at_quote, text_behind};
pub use values::{swi_shown, value_shown};
