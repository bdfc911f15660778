//! What a packet asks for.

ghost use Rattle.std.specs.Prelude.{◌≡◌, option_map};
ghost use Rattle.gdb_packets.specs.Requests.{gdb_request, packet_request, parts_around, Memory, AddPoint, RemovePoint, lone_request, access_request, back_request, control_request, lettered_request, register_request, set_register_request, store_pairs_request, store_bytes_request, point_kind, point_request, thread_request, is_process, begins_word, of_range, of_signal, of_thread, ContinueWith, StepWith};

use crate::numbers::number_of;
use crate::parts::{byte_range_of, parts_around, thread_in};
use crate::words::{host_answer_request, word_request};

/// What a point is set for.
#[derive(Clone, Copy)]
pub enum PointKind {
    /// `Z0`, `Z1`: an instruction is reached.
    Break,
    /// `Z2`: bytes are stored to.
    StoreWatch,
    /// `Z3`: bytes are loaded.
    LoadWatch,
    /// `Z4`: either.
    AccessWatch,
}

/// So many bytes from an address on.
#[derive(Clone, Copy, Default)]
pub struct ByteRange {
    /// The address of the first.
    pub start: u32,
    /// How many.
    pub count: u32,
}

/// Addresses from one up to another, which is left out.
#[derive(Clone, Copy)]
pub struct PlaceRange {
    /// The first.
    pub start: u32,
    /// Where it ends.
    pub end: u32,
}

/// What a packet asks for.
#[derive(Drop)]
pub enum Request<'a> {
    /// `?`: why the program stands.
    Reason,
    /// `g`: all registers.
    Registers,
    /// `G`: all registers set, by pairs of digits.
    SetRegisters(&'a [u8]),
    /// `p n`: a register.
    Register(u32),
    /// `P n=v`: a register set, by pairs of digits.
    SetRegister(u32, &'a [u8]),
    /// `m a,n`: bytes of memory.
    Memory(ByteRange),
    /// `M a,n:`: bytes stored, by pairs of digits.
    StorePairs(ByteRange, &'a [u8]),
    /// `X a,n:`: bytes stored, as they are.
    StoreBytes(ByteRange, &'a [u8]),
    /// `c`, `vCont;c`.
    Continue,
    /// `C nn`, `vCont;C nn`: with a signal.
    ContinueWith(u32),
    /// `s`, `vCont;s`.
    Step,
    /// `S nn`, `vCont;S nn`: with a signal.
    StepWith(u32),
    /// `vCont;r a,b`: steps, as long as the program stands in a range.
    StepRange(PlaceRange),
    /// `bs`: a step back.
    StepBack,
    /// `bc`: back, as far as something stops it.
    ContinueBack,
    /// `vCont?`: which ways there are to go on.
    Ways,
    /// `Z`: a break or a watch set.
    AddPoint(PointKind, ByteRange),
    /// `z`: one taken away.
    RemovePoint(PointKind, ByteRange),
    /// `qSupported`.
    Supported,
    /// `QStartNoAckMode`: `+` and `-` are sent no more.
    NoAcks,
    /// `qXfer:features:read:target.xml`: bytes of the target's description.
    Description(ByteRange),
    /// `qXfer:libraries:read`: bytes of the list of its libraries.
    Libraries(ByteRange),
    /// `H`, `T`, or an action's: a thread is meant or asked after, and whether it is the one that there is.
    Thread(bool),
    /// `qAttached`.
    IsAttached,
    /// `qC`.
    CurrentThread,
    /// `qfThreadInfo`.
    FirstThreads,
    /// `qsThreadInfo`.
    MoreThreads,
    /// `qRcmd`: a line of the user's, by pairs of digits.
    Line(&'a [u8]),
    /// `F`: the answer to a call of the other side's, and whether it reports a Ctrl-C.
    HostAnswer(bool),
    /// `D`: the debugger goes.
    Detach,
    /// `k`: the end.
    Kill,
    /// `vKill`: the program's end.
    KillProgram,
    /// `!`: the program can be run again.
    Extended,
    /// `R`: the program begins anew.
    Restart,
    /// `vRun`: the program begins anew, and its first stop is shown.
    RunProgram,
    /// Anything else.
    Unknown,
}

/// Reads a packet.
#[tactic(auto, unfolding(crate::specs::Requests::packet_request))]
pub fn request_of(packet: &[u8]) -> Request<'_>
    ensures { gdb_request result ≡ packet_request packet.now }
{
    let Some((letter, rest)) = packet.split_first() else {
        return Request::Unknown;
    };
    if rest.is_empty() {
        return lone_request(*letter);
    }
    if begins_word(*letter) {
        return word_request(packet);
    }
    lettered_request(*letter, rest)
}

fn begins_word(letter: u8) -> bool
    ensures { result ≡ begins_word letter }
{
    letter == b'q' || letter == b'Q' || letter == b'v'
}

fn lone_request(letter: u8) -> Request<'static>
    ensures { gdb_request result ≡ lone_request letter }
{
    match letter {
        b'?' => Request::Reason,
        b'g' => Request::Registers,
        b'c' => Request::Continue,
        b's' => Request::Step,
        b'k' => Request::Kill,
        b'D' => Request::Detach,
        b'!' => Request::Extended,
        _ => Request::Unknown,
    }
}

fn lettered_request(letter: u8, rest: &[u8]) -> Request<'_>
    ensures { gdb_request result ≡ lettered_request letter rest.now }
{
    match access_request(letter, rest) {
        Some(request) => request,
        None => control_request(letter, rest),
    }
}

// Of registers and memory.
fn access_request(letter: u8, rest: &[u8]) -> Option<Request<'_>>
    ensures { option_map gdb_request result ≡ access_request letter rest.now }
{
    match letter {
        b'G' => Some(Request::SetRegisters(rest)),
        b'p' => Some(register_request(number_of(rest))),
        b'P' => Some(set_register_request(rest)),
        b'm' => Some(memory_request(byte_range_of(rest))),
        b'M' => Some(store_pairs_request(rest)),
        b'X' => Some(store_bytes_request(rest)),
        b'Z' => Some(add_point_request(rest)),
        b'z' => Some(remove_point_request(rest)),
        _ => None,
    }
}

// Of what the program does.
fn control_request(letter: u8, rest: &[u8]) -> Request<'static>
    ensures { gdb_request result ≡ control_request letter rest.now }
{
    match letter {
        b'C' => continue_with(number_of(rest)),
        b'S' => step_with(number_of(rest)),
        b'H' => thread_request(rest),
        b'T' => of_thread(thread_in(rest)),
        b'F' => host_answer_request(rest),
        b'D' if is_process(rest) => Request::Detach,
        b'R' if number_of(rest).is_some() => Request::Restart,
        b'b' => back_request(rest),
        _ => Request::Unknown,
    }
}

// `s` or `c` behind `b`.
fn back_request(text: &[u8]) -> Request<'static>
    ensures { gdb_request result ≡ back_request text.now }
{
    if text == b"s".as_slice() {
        Request::StepBack
    } else if text == b"c".as_slice() {
        Request::ContinueBack
    } else {
        Request::Unknown
    }
}

/// With a signal.
pub(crate) fn continue_with(signal: Option<u32>) -> Request<'static>
    ensures { gdb_request result ≡ of_signal signal ContinueWith }
{
    match signal {
        Some(signal) => Request::ContinueWith(signal),
        None => Request::Unknown,
    }
}

/// With a signal.
pub(crate) fn step_with(signal: Option<u32>) -> Request<'static>
    ensures { gdb_request result ≡ of_signal signal StepWith }
{
    match signal {
        Some(signal) => Request::StepWith(signal),
        None => Request::Unknown,
    }
}

fn memory_request(range: Option<ByteRange>) -> Request<'static>
    ensures { gdb_request result ≡ of_range range Memory }
{
    match range {
        Some(range) => Request::Memory(range),
        None => Request::Unknown,
    }
}

fn register_request(number: Option<u32>) -> Request<'static>
    ensures { gdb_request result ≡ register_request number }
{
    match number {
        Some(number) => Request::Register(number),
        None => Request::Unknown,
    }
}

fn set_register_request<'a>(text: &'a [u8]) -> Request<'a>
    ensures { gdb_request result ≡ set_register_request (parts_around 61 text.now) }
{
    let Some(parts) = parts_around(b'=', text) else {
        return Request::Unknown;
    };
    match number_of(parts.before) {
        Some(number) => Request::SetRegister(number, parts.behind),
        None => Request::Unknown,
    }
}

fn store_pairs_request<'a>(text: &'a [u8]) -> Request<'a>
    ensures { gdb_request result ≡ store_pairs_request (parts_around 58 text.now) }
{
    let Some(parts) = parts_around(b':', text) else {
        return Request::Unknown;
    };
    match byte_range_of(parts.before) {
        Some(range) => Request::StorePairs(range, parts.behind),
        None => Request::Unknown,
    }
}

fn store_bytes_request<'a>(text: &'a [u8]) -> Request<'a>
    ensures { gdb_request result ≡ store_bytes_request (parts_around 58 text.now) }
{
    let Some(parts) = parts_around(b':', text) else {
        return Request::Unknown;
    };
    match byte_range_of(parts.before) {
        Some(range) => Request::StoreBytes(range, parts.behind),
        None => Request::Unknown,
    }
}

fn add_point_request(text: &[u8]) -> Request<'static>
    ensures { gdb_request result ≡ point_request (parts_around 44 text.now) AddPoint }
{
    let Some(parts) = parts_around(b',', text) else {
        return Request::Unknown;
    };
    match (point_kind(parts.before), byte_range_of(parts.behind)) {
        (Some(kind), Some(range)) => Request::AddPoint(kind, range),
        _ => Request::Unknown,
    }
}

fn remove_point_request(text: &[u8]) -> Request<'static>
    ensures { gdb_request result ≡ point_request (parts_around 44 text.now) RemovePoint }
{
    let Some(parts) = parts_around(b',', text) else {
        return Request::Unknown;
    };
    match (point_kind(parts.before), byte_range_of(parts.behind)) {
        (Some(kind), Some(range)) => Request::RemovePoint(kind, range),
        _ => Request::Unknown,
    }
}

fn point_kind(text: &[u8]) -> Option<PointKind>
    ensures { result ≡ point_kind text.now }
{
    if text == b"0".as_slice() || text == b"1".as_slice() {
        Some(PointKind::Break)
    } else if text == b"2".as_slice() {
        Some(PointKind::StoreWatch)
    } else if text == b"3".as_slice() {
        Some(PointKind::LoadWatch)
    } else if text == b"4".as_slice() {
        Some(PointKind::AccessWatch)
    } else {
        None
    }
}

// `g` or `c`, and a thread.
fn thread_request(text: &[u8]) -> Request<'static>
    ensures { gdb_request result ≡ thread_request text.now }
{
    match text {
        [b'g' | b'c', thread @ ..] => of_thread(thread_in(thread)),
        _ => Request::Unknown,
    }
}

fn of_thread(is_own: Option<bool>) -> Request<'static>
    ensures { gdb_request result ≡ of_thread is_own }
{
    match is_own {
        Some(is_own) => Request::Thread(is_own),
        None => Request::Unknown,
    }
}

// `;` and the number of a process.
fn is_process(text: &[u8]) -> bool
    ensures { result ≡ is_process text.now }
{
    match text {
        [b';', number @ ..] => number_of(number).is_some(),
        _ => false,
    }
}
