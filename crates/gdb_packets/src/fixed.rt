//! Requests whose answer is always the same, or depends on nothing but whether the program is there;
//! after which the bytes `+` and `-` are sent no more; and what extended mode changes.

ghost use Rattle.std.specs.Prelude.{◌≡◌, option_map};
ghost use Rattle.gdb_packets.specs.Requests.{gdb_request, packet_request};
ghost use Rattle.gdb_packets.specs.Fixed.{extends, fixed_reply as fixed_shown, is_taken_so, keeps_acks, meant_in, staying, threads_text};
ghost use Rattle.gdb_packets.specs.Ahead.{is_run_request};

use crate::requests::{Request, request_of};

/// What the other side may ask for.
const SUPPORTED: &[u8] = b"PacketSize=4000;QStartNoAckMode+;vContSupported+;swbreak+;hwbreak+;\
    qXfer:features:read+;qXfer:libraries:read+;ReverseStep+;ReverseContinue+";

/// What a request is answered with whose answer is always the same; `None` for other requests.
pub fn fixed_reply(request: &Request<'_>) -> Option<&'static [u8]>
    ensures { option_map (λ text. text.now) result ≡ fixed_shown (gdb_request request.now) }
{
    match request {
        Request::NoAcks | Request::Thread(true) | Request::Extended => Some(b"OK"),
        Request::Thread(false) => Some(b"E01"),
        Request::Supported => Some(SUPPORTED),
        Request::Ways => Some(b"vCont;c;C;s;S;r"),
        Request::IsAttached => Some(b"0"),
        Request::CurrentThread => Some(b"QC1"),
        Request::MoreThreads => Some(b"l"),
        Request::Unknown | Request::SetRegisters(_) => Some(b""),
        _ => None,
    }
}

/// The one thread, while the program is there.
pub fn threads(is_gone: bool) -> &'static [u8]
    ensures { result.now ≡ threads_text is_gone }
{
    if is_gone { b"l" } else { b"m1" }
}

/// Whether a packet that came spoilt is taken as it is.
pub fn is_taken_so(has_acks: bool, is_whole: bool) -> bool
    ensures { result ≡ is_taken_so has_acks is_whole }
{
    !has_acks && is_whole
}

/// Whether `+` and `-` are sent after a request too.
pub fn keeps_acks(request: &Request<'_>) -> bool
    ensures { result ≡ keeps_acks (gdb_request request.now) }
{
    !matches!(request, Request::NoAcks)
}

/// Whether the mode is extended after a request: the program can be run again.
pub fn extends(was_extended: bool, request: &Request<'_>) -> bool
    ensures { result ≡ extends was_extended (gdb_request request.now) }
{
    was_extended || matches!(request, Request::Extended)
}

/// Reads a packet in a mode: where it is extended none ends the other side.
pub fn request_in(is_extended: bool, packet: &[u8]) -> Request<'_>
    ensures { gdb_request result ≡ meant_in is_extended (packet_request packet.now) }
{
    let request = request_of(packet);
    if is_extended {
        staying(request)
    } else {
        request
    }
}

fn staying(request: Request<'_>) -> Request<'_>
    ensures { gdb_request result ≡ staying (gdb_request request.entry) }
{
    match request {
        Request::Detach => Request::KillProgram,
        Request::Kill => Request::Restart,
        _ => request,
    }
}

/// Whether a request is a `run`, before which the files are read anew.
pub fn is_run_request(request: &Request<'_>) -> bool
    ensures { result ≡ is_run_request (gdb_request request.now) }
{
    matches!(request, Request::RunProgram)
}
