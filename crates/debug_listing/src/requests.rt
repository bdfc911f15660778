//! The lines that have to do with the code of modules, and with the errors of calls.

ghost use Rattle.std.specs.Prelude.{◌≡◌, ◌==◌};
ghost use Rattle.std.specs.List.{position};
ghost use Rattle.std.specs.Option.{option_map};
ghost use Rattle.debug_listing.specs.Requests.{command_request, compare_request, module_request, module_request_of, service_request, text_behind_word, whole_request, word_in_front};

use command_shell_lines::debug_words::text_behind;
use command_shell_lines::number_of;

/// What a line asks for that has to do with the code of modules, or with the errors of calls.
#[derive(Clone, Copy)]
pub enum ModuleRequest<'a> {
    /// `COMMAND name tail`: the command of that name, with what stands behind it.
    Command(&'a [u8], &'a [u8]),
    /// `SERVICE n`, `SERVICE n Title`: the service call of that number, to the module of a title or, where that is
    /// empty, to all.
    Service(u32, &'a [u8]),
    /// `COMMANDS`: the commands of all modules.
    Commands,
    /// `WHY ON` or `WHY OFF`: whether what WHY shows stands below each answer that ends with an error.
    Explain(bool),
    /// `LISTING name`: the listing of the image of that name.
    Listing(&'a [u8]),
    /// `COMPARE name other`: where the images of two names differ.
    Compare(&'a [u8], &'a [u8]),
}

/// What a tidy line asks for, if it has to do with the code of modules or with the errors of calls.
pub fn module_request(line: &[u8]) -> Option<ModuleRequest<'_>>
    ensures { option_map module_request_of result ≡ module_request line.now }
{
    match text_behind(b"COMMAND ", line) {
        Some(text) => Some(command_request(text)),
        None => match text_behind(b"SERVICE ", line) {
            Some(text) => service_request(text),
            None => match text_behind(b"LISTING ", line) {
                Some(name) => Some(ModuleRequest::Listing(name)),
                None => match text_behind(b"COMPARE ", line) {
                    Some(text) => compare_request(text),
                    None => whole_request(line),
                },
            },
        },
    }
}

// Lines of just these words.
fn whole_request(line: &[u8]) -> Option<ModuleRequest<'static>>
    ensures { option_map module_request_of result ≡ whole_request line.now }
{
    if line.eq_ignore_ascii_case(b"COMMANDS") {
        Some(ModuleRequest::Commands)
    } else if line.eq_ignore_ascii_case(b"WHY ON") {
        Some(ModuleRequest::Explain(true))
    } else if line.eq_ignore_ascii_case(b"WHY OFF") {
        Some(ModuleRequest::Explain(false))
    } else {
        None
    }
}

fn command_request(text: &[u8]) -> ModuleRequest<'_>
    ensures { module_request_of result ≡ command_request text.now }
{
    ModuleRequest::Command(word_in_front(text), text_behind_word(text))
}

fn service_request(text: &[u8]) -> Option<ModuleRequest<'_>>
    ensures { option_map module_request_of result ≡ service_request text.now }
{
    let service = number_of(word_in_front(text))?;
    Some(ModuleRequest::Service(service, text_behind_word(text)))
}

// Two names, and no word more.
fn compare_request(text: &[u8]) -> Option<ModuleRequest<'_>>
    ensures { option_map module_request_of result ≡ compare_request text.now }
{
    let other = text_behind_word(text);
    if other.is_empty() || space_in(other).is_some() {
        return None;
    }
    Some(ModuleRequest::Compare(word_in_front(text), other))
}

// The bytes before the first space.
fn word_in_front(text: &[u8]) -> &[u8]
    ensures { result.now ≡ word_in_front text.now }
{
    match space_in(text) {
        Some(place) => &text[..place],
        None => text,
    }
}

// The bytes behind the first space.
fn text_behind_word(text: &[u8]) -> &[u8]
    ensures { result.now ≡ text_behind_word text.now }
{
    match space_in(text) {
        Some(place) => &text[place + 1..],
        None => &[],
    }
}

fn space_in(text: &[u8]) -> Option<usize>
    ensures { result ≡ position (λ b. b == 32) text.now }
{
    text.iter().position(|byte| *byte == b' ')
}
