//! Gate: makes calls for which host memory is refused, each after some takings of memory.
//!
//! Standard input has lines `CALL TAKINGS`. The program makes what the call is handed, takes host
//! memory so many times, gives it back, makes the call, and shows by one word how that ended.
//! `tools/refuse_memory` runs it where one taking of memory, by its number, is refused: by the
//! number of takings before the call it is the call's first, second and so on.
#![tactic(auto)]

mod calls;
mod outcome;
mod rows;
mod scripts;
mod taken;
#[cfg(test)]
mod tests;

use crate::calls::outcome_of;
use std::io::Read;
use std::process::ExitCode;

/// More than the lines of standard input have, which are read without taking memory.
const ROOM: usize = 512;

const NOT_RUN: u8 = 2;

fn main(rt: HostRuntime) -> ExitCode {
    let mut room = [0u8; ROOM];
    let count = filled(&mut rt.stdin(), &mut room);
    match str::from_utf8(&room[..count.min(ROOM)]) {
        Ok(text) => print_all(&rt, text),
        Err(_) => ExitCode::from(NOT_RUN),
    }
}

/// Reads until there is no more, or the room is full, and answers how much was read.
fn filled<R: Read>(reader: &mut R, room: &mut [u8; ROOM]) -> usize {
    let mut count = 0;
    for _ in 0..ROOM {
        let at = count.min(ROOM);
        match reader.read(&mut room[at..]) {
            Ok(more) if more > 0 => count = (at + more).min(ROOM),
            _ => break,
        }
    }
    count
}

/// Says how each call ended that a line names.
fn print_all<R: AllocGlobal + Print>(rt: &R, text: &str) -> ExitCode {
    for line in text.lines() {
        let Some((call, takings)) = line.split_once(' ') else {
            return ExitCode::from(NOT_RUN);
        };
        let Ok(takings) = takings.parse::<u32>() else {
            return ExitCode::from(NOT_RUN);
        };
        let reported = outcome_of(rt.alloc(), call, takings).word();
        if println!(rt; "{call} {reported}").is_err() {
            return ExitCode::from(NOT_RUN);
        }
    }
    ExitCode::from(0)
}
