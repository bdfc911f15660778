//! Why a line means nothing: by a word that is no number and no place, or by what such a line needs.

ghost use Rattle.std.specs.Prelude.{◌≡◌, Some};
ghost use Rattle.command_shell_lines.specs.Requests.{words};
ghost use Rattle.profile.specs.Output.{Writes};
ghost use Rattle.command_shell_lines.specs.debug_words.Forms.{form_of_line};
ghost use Rattle.debug_labels.specs.Reasons.{form_text, is_meant_as_label, is_meant_as_number};

use crate::lines::unnumbered_word;
use crate::words::PlaceNames;
use command_shell_lines::debug_words::form_of_line;
use profile::{Sink, WriteFault, push_all, push_parts};

impl PlaceNames<'_> {
    ghost use Rattle.debug_labels.specs.Lines.{unnumbered_word};
    ghost use Rattle.debug_labels.specs.Reasons.{reason_by_word};

    /// Writes why a tidy line means nothing, by the line with numbers in place of the words that name
    /// places: `STEP wants a number, as STEP 1`.
    pub fn push_reason<W: Sink>(
        &self,
        line: &[u8],
        numbered: &[u8],
        sink: &mut W,
    ) -> Result<(), WriteFault>
        ensures { Writes W.contents W.has_failed sink.old sink.new result (reason_by_word self.now.labels
            (form_text (form_of_line (words line.now))) (unnumbered_word (words numbered.now))) }
    {
        match unnumbered_word(numbered) {
            Some(word) => self.push_word_reason(line, word, sink),
            None => push_all(sink, form_text(line)),
        }
    }

    // By the first word that is no number where a number or a place may stand.
    fn push_word_reason<W: Sink>(
        &self,
        line: &[u8],
        word: &[u8],
        sink: &mut W,
    ) -> Result<(), WriteFault>
        ensures { Writes W.contents W.has_failed sink.old sink.new result (reason_by_word self.now.labels
            (form_text (form_of_line (words line.now))) (Some word.now)) }
    {
        if is_meant_as_number(word) {
            push_parts(
                sink,
                &[word, b": numbers are 16 or &10, below 2^32".as_slice()],
            )
        } else if is_meant_as_label(word) {
            self.push_no_label(word, sink)
        } else {
            push_all(sink, form_text(line))
        }
    }
}

// What a line lacks.
fn form_text(line: &[u8]) -> &[u8]
    ensures { result.now ≡ form_text (form_of_line (words line.now)) }
{
    match form_of_line(line) {
        Some(form) => form,
        None => b"no such line; HELP lists them",
    }
}

fn is_meant_as_number(word: &[u8]) -> bool
    ensures { result ≡ is_meant_as_number word.now }
{
    matches!(word, [b'0'..=b'9' | b'&' | b'-' | b'$' | b'#', ..])
}

fn is_meant_as_label(word: &[u8]) -> bool
    ensures { result ≡ is_meant_as_label word.now }
{
    matches!(word, [b'A'..=b'Z' | b'a'..=b'z' | b'_', ..])
}
