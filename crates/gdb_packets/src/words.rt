//! Packets that are words, or begin with one.

ghost use Rattle.std.specs.Prelude.{◌≡◌, option_map};
ghost use Rattle.gdb_packets.specs.Requests.{gdb_request, action_request, action_for_thread, action_of, actions_request, places_request, is_known_packet, host_answer_request, host_answer_flagged, parts_around, whole_word_request, opened_request, word_request, about_attachment, about_libraries, about_process, about_session, about_target};

use crate::numbers::number_of;
use crate::parts::{behind_opening, byte_range_of, is_call_result, parts_around, thread_in};
use crate::requests::{PlaceRange, Request, continue_with, step_with};

/// Of a word.
#[tactic(auto, unfolding(crate::specs::Requests::word_request))]
pub(crate) fn word_request(packet: &[u8]) -> Request<'_>
    ensures { gdb_request result ≡ word_request packet.now }
{
    match whole_word_request(packet) {
        Some(request) => request,
        None => opened_request(packet),
    }
}

#[tactic(auto, unfolding(crate::specs::Requests::whole_word_request))]
fn whole_word_request(packet: &[u8]) -> Option<Request<'static>>
    ensures { option_map gdb_request result ≡ whole_word_request packet.now }
{
    if packet == b"vCont?".as_slice() {
        Some(Request::Ways)
    } else if packet == b"qC".as_slice() {
        Some(Request::CurrentThread)
    } else if packet == b"qfThreadInfo".as_slice() {
        Some(Request::FirstThreads)
    } else if packet == b"qsThreadInfo".as_slice() {
        Some(Request::MoreThreads)
    } else if packet == b"qAttached".as_slice() {
        Some(Request::IsAttached)
    } else if packet == b"qSupported".as_slice() {
        Some(Request::Supported)
    } else if packet == b"QStartNoAckMode".as_slice() {
        Some(Request::NoAcks)
    } else {
        None
    }
}

#[tactic(auto, unfolding(crate::specs::Requests::opened_request))]
fn opened_request(packet: &[u8]) -> Request<'_>
    ensures { gdb_request result ≡ opened_request packet.now }
{
    match behind_opening(b"vCont;", packet) {
        Some(actions) => actions_request(actions),
        None => about_target(packet),
    }
}

#[tactic(auto, unfolding(crate::specs::Requests::about_target))]
fn about_target(packet: &[u8]) -> Request<'_>
    ensures { gdb_request result ≡ about_target packet.now }
{
    if let Some(pairs) = behind_opening(b"qRcmd,", packet) {
        return Request::Line(pairs);
    }
    let Some(range) = behind_opening(b"qXfer:features:read:target.xml:", packet) else {
        return about_libraries(packet);
    };
    match byte_range_of(range) {
        Some(range) => Request::Description(range),
        None => Request::Unknown,
    }
}

#[tactic(auto, unfolding(crate::specs::Requests::about_libraries))]
fn about_libraries(packet: &[u8]) -> Request<'static>
    ensures { gdb_request result ≡ about_libraries packet.now }
{
    let Some(range) = behind_opening(b"qXfer:libraries:read::", packet) else {
        return about_session(packet);
    };
    match byte_range_of(range) {
        Some(range) => Request::Libraries(range),
        None => Request::Unknown,
    }
}

#[tactic(auto, unfolding(crate::specs::Requests::about_session))]
fn about_session(packet: &[u8]) -> Request<'static>
    ensures { gdb_request result ≡ about_session packet.now }
{
    match behind_opening(b"qSupported:", packet) {
        Some(_) => Request::Supported,
        None => about_attachment(packet),
    }
}

#[tactic(auto, unfolding(crate::specs::Requests::about_attachment))]
fn about_attachment(packet: &[u8]) -> Request<'static>
    ensures { gdb_request result ≡ about_attachment packet.now }
{
    match behind_opening(b"qAttached:", packet) {
        Some(number) if number_of(number).is_some() => Request::IsAttached,
        Some(_) => Request::Unknown,
        None => about_process(packet),
    }
}

#[tactic(auto, unfolding(crate::specs::Requests::about_process))]
fn about_process(packet: &[u8]) -> Request<'static>
    ensures { gdb_request result ≡ about_process packet.now }
{
    match behind_opening(b"vKill;", packet) {
        Some(number) if number_of(number).is_some() => Request::KillProgram,
        Some(_) => Request::Unknown,
        None if behind_opening(b"vRun;", packet).is_some() => Request::RunProgram,
        None => Request::Unknown,
    }
}

// One action, or two, of which the first says what the one thread does.
fn actions_request(text: &[u8]) -> Request<'static>
    ensures { gdb_request result ≡ actions_request text.now }
{
    let Some(parts) = parts_around(b';', text) else {
        return action_for_thread(text);
    };
    if is_known_packet(&action_for_thread(parts.behind)) {
        action_for_thread(parts.before)
    } else {
        Request::Unknown
    }
}

fn is_known_packet(request: &Request<'_>) -> bool
    ensures { result ≡ is_known_packet (gdb_request request.now) }
{
    !matches!(request, Request::Unknown)
}

// An action, and `:` with a thread or not.
fn action_for_thread(text: &[u8]) -> Request<'static>
    ensures { gdb_request result ≡ action_for_thread text.now }
{
    match parts_around(b':', text) {
        None => action_request(text),
        Some(parts) => action_of(thread_in(parts.behind), action_request(parts.before)),
    }
}

// An action of a thread; of another than the one that there is none is taken.
fn action_of(is_own: Option<bool>, action: Request<'static>) -> Request<'static>
    ensures { gdb_request result ≡ action_of is_own (gdb_request action.entry) }
{
    match is_own {
        Some(true) => action,
        Some(false) if is_known_packet(&action) => Request::Thread(false),
        _ => Request::Unknown,
    }
}

// An action, with a signal or without; or steps within a range.
fn action_request(text: &[u8]) -> Request<'static>
    ensures { gdb_request result ≡ action_request text.now }
{
    match text {
        [b'c'] => Request::Continue,
        [b's'] => Request::Step,
        [b'C', signal @ ..] => continue_with(number_of(signal)),
        [b'S', signal @ ..] => step_with(number_of(signal)),
        [b'r', places @ ..] if !places.is_empty() => places_request(places),
        _ => Request::Unknown,
    }
}

// `a,b`: from the one address up to the other, which is left out.
fn places_request(text: &[u8]) -> Request<'static>
    ensures { gdb_request result ≡ places_request (parts_around 44 text.now) }
{
    let Some(parts) = parts_around(b',', text) else {
        return Request::Unknown;
    };
    match (number_of(parts.before), number_of(parts.behind)) {
        (Some(start), Some(end)) => Request::StepRange(PlaceRange { start, end }),
        _ => Request::Unknown,
    }
}

/// What a call to the other side came to; behind a comma an error's number; behind another `C`.
pub(crate) fn host_answer_request(text: &[u8]) -> Request<'static>
    ensures { gdb_request result ≡ host_answer_request text.now }
{
    match parts_around(b',', text) {
        None if is_call_result(text) => Request::HostAnswer(false),
        None => Request::Unknown,
        Some(parts) if is_call_result(parts.before) => host_answer_flagged(parts.behind),
        Some(_) => Request::Unknown,
    }
}

fn host_answer_flagged(text: &[u8]) -> Request<'static>
    ensures { gdb_request result ≡ host_answer_flagged (parts_around 44 text.now) text.now }
{
    let Some(parts) = parts_around(b',', text) else {
        return match number_of(text) {
            Some(_) => Request::HostAnswer(false),
            None => Request::Unknown,
        };
    };
    if number_of(parts.before).is_some() && parts.behind == b"C".as_slice() {
        Request::HostAnswer(true)
    } else {
        Request::Unknown
    }
}
