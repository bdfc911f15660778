//! A run whose writer fails loses the step that it was in, and no other.

use profile::images::Images;
use profile::{Config, MemorySink, Stop};
use std::alloc::Global;
use std::test::Fail;
use swi_dispatch_guest::{Breaks, Machine};

/// SWI OS_WriteS; "Hi", 0, 0; SWI OS_WriteI+"!"; SWI OS_NewLine; SWI OS_Exit
const PRINTS: [u8; 20] = [
    0x01, 0, 0, 0xEF, b'H', b'i', 0, 0, 0x21, 0x01, 0, 0xEF, 0x03, 0, 0, 0xEF, 0x11, 0, 0, 0xEF,
];

/// What that writes.
static PRINTED: &[u8] = b"Hi!\n\r";

/// The call, of one byte each, at which the writer fails; where the machine stands then; how many
/// steps are left, and what these print.
static FAILURES: [(u64, u32, u64, &str); 5] = [
    (1, 0x8008, 3, "!\n\r"),
    (2, 0x8008, 3, "!\n\r"),
    (3, 0x800C, 2, "\n\r"),
    (4, 0x8010, 1, ""),
    (5, 0x8010, 1, ""),
];

/// A machine with the program, before its first step.
fn booted(alloc: Global) -> Result<Machine, Fail> {
    let config = Config::new(6, 2, 1).ok_or("sizes")?;
    let mut machine = Machine::new(alloc, config)?;
    machine.boot(&PRINTS).map_err(|_| "booted")?;
    Ok(machine)
}

/// Whether a run whose writer fails from this call on ends so, with one byte less written, and
/// where it stands.
fn fails_at(machine: &mut Machine, failing: u64) -> bool {
    let mut room = [0u8; 8];
    let mut sink = MemorySink::new(&mut room, 1, failing.max(1));
    let failed = machine.run(&Images::new(), &Breaks::new(), &mut sink, 10);
    let count = sink.written().len() as u64;
    failed.is_err() && count + 1 == failing && PRINTED.starts_with(sink.written())
}

/// Whether a run with another writer takes so many steps to the end, and prints this.
fn ends_with(machine: &mut Machine, budget: u64, steps: u64, text: &str) -> bool {
    let mut room = [0u8; 8];
    let mut sink = MemorySink::new(&mut room, 8, 9);
    let ran = machine.run(&Images::new(), &Breaks::new(), &mut sink, budget);
    sink.written() == text.as_bytes()
        && ran.is_ok_and(|ran| ran.stop == Stop::Exit && ran.taken == steps)
}

#[test]
fn a_failed_write_loses_one_step_alone(rt: HostRuntime) -> Result<(), Fail> {
    for (failing, at, steps, text) in FAILURES {
        let mut machine = booted(rt.alloc())?;
        assert!(rt; fails_at(&mut machine, failing), "call {failing}");
        assert!(rt; machine.cpu().pc() == at, "call {failing}");
        assert!(rt;
            ends_with(&mut machine, steps.saturating_add(6), steps, text),
            "call {failing}"
        );
    }
    let mut machine = booted(rt.alloc())?;
    assert!(rt; ends_with(&mut machine, 10, 4, "Hi!\n\r"));
    Ok(())
}
