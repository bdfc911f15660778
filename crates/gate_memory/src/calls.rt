//! The calls by their names: those that take host memory, each after some takings of it, and those
//! that take none.

use crate::outcome::{CallOutcome, take_and_give_back};
use crate::rows::{ERROR_AT_START, SIX_WORDS, TIDY};
use crate::scripts::script;
use crate::taken::{Done, taken_after};
use address_map::AddressMap;
use assembler::{Reason, assemble};
use profile::Config;
use profile::images::{ImageError, Images};
use raw_store::RawStore;
use rosm_settings::command_line::{SettingsError, settings};
use std::alloc::Global;
use swi_dispatch_guest::Machine;

/// How the call of this name ends after so many takings of memory.
pub fn outcome_of(alloc: Global, call: &str, takings: u32) -> CallOutcome {
    match call {
        "region" => region(alloc, takings),
        "map" => map(alloc, takings),
        "machine" => machine(alloc, takings),
        "image" => image(alloc, takings),
        "program" => program(alloc, takings),
        "settings" => settings_of_a_name(alloc, takings),
        "six-words" => script(alloc, takings, &SIX_WORDS),
        "error-at-start" => script(alloc, takings, &ERROR_AT_START),
        "tidy" => script(alloc, takings, &TIDY),
        "nothing" => taken_after(alloc, Done::Nothing, takings),
        "steps" => taken_after(alloc, Done::Steps, takings),
        "store-calls" => taken_after(alloc, Done::StoreCalls, takings),
        "views" => taken_after(alloc, Done::Views, takings),
        _ => CallOutcome::Wrong,
    }
}

fn region(alloc: Global, takings: u32) -> CallOutcome {
    if take_and_give_back(alloc, takings).is_err() {
        return CallOutcome::Before;
    }
    match RawStore::new(alloc, 4) {
        Ok(store) => CallOutcome::answered(store.len() == 16384),
        Err(_) => CallOutcome::Refused,
    }
}

fn map(alloc: Global, takings: u32) -> CallOutcome {
    if take_and_give_back(alloc, takings).is_err() {
        return CallOutcome::Before;
    }
    match AddressMap::new(alloc, 16) {
        Ok(map) => CallOutcome::answered(map.free_pages() == 16),
        Err(_) => CallOutcome::Refused,
    }
}

fn machine(alloc: Global, takings: u32) -> CallOutcome {
    let Some(config) = Config::new(5, 1, 1) else {
        return CallOutcome::Wrong;
    };
    if take_and_give_back(alloc, takings).is_err() {
        return CallOutcome::Before;
    }
    match Machine::new(alloc, config) {
        Ok(machine) => CallOutcome::answered(machine.cpu().register(15) == 0x8000),
        Err(_) => CallOutcome::Refused,
    }
}

/// An image added to one that is there.
fn image(alloc: Global, takings: u32) -> CallOutcome {
    let mut images = Images::new();
    if images.add(alloc, b"a", b"xyz").is_err() || take_and_give_back(alloc, takings).is_err() {
        return CallOutcome::Before;
    }
    let added = images.add(alloc, b"b", b"uv");
    let is_kept = images.get(b"a") == Some(b"xyz".as_slice());
    match (added, images.get(b"b")) {
        (Err(ImageError::Memory), None) => CallOutcome::refused(is_kept),
        (Ok(()), Some(bytes)) => CallOutcome::answered(is_kept && bytes == b"uv".as_slice()),
        _ => CallOutcome::Wrong,
    }
}

/// A module's text, with labels before and after their places.
static SOURCE: &str = " DCD 0,init,0,0,title,0,0
title DCB \"Bad\",0
init ADD R0,PC,#err-init-8
 ORRS PC,R14,#&10000000
err DCD 1000
 DCB \"no\",0
";

/// Its bytes: seven words of the header, the title, two instructions, an error's number and text.
static BYTES: [u8; 47] = [
    0, 0, 0, 0, 0x20, 0, 0, 0, 0, 0, 0, 0, 0, 0, 0, 0, 0x1C, 0, 0, 0, 0, 0, 0, 0, 0, 0, 0, 0, //
    0x42, 0x61, 0x64, 0, 0x00, 0x00, 0x8F, 0xE2, 0x01, 0xF2, 0x9E, 0xE3, 0xE8, 0x03, 0, 0, //
    0x6E, 0x6F, 0,
];

fn program(alloc: Global, takings: u32) -> CallOutcome {
    if take_and_give_back(alloc, takings).is_err() {
        return CallOutcome::Before;
    }
    match assemble(alloc, SOURCE.as_bytes(), 0) {
        Ok(program) => CallOutcome::answered(program.bytes() == BYTES.as_slice()),
        Err(error) => CallOutcome::refused(matches!(error.reason, Reason::Memory)),
    }
}

fn settings_of_a_name(alloc: Global, takings: u32) -> CallOutcome {
    if take_and_give_back(alloc, takings).is_err() {
        return CallOutcome::Before;
    }
    match settings(alloc, &["rosm"]) {
        Ok(settings) => CallOutcome::answered(settings.budget == 1_000_000),
        Err(error) => CallOutcome::refused(matches!(error, SettingsError::Memory)),
    }
}
