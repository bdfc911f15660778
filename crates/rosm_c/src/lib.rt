//! `rosm` as a library for C, and for whatever can call C: a script, and perhaps an image, to its
//! answers.
//!
//! Promise: a run of a script is that of `command_shell`, as many bytes of its answers as fit.
#![tactic(auto)]

mod answers;
mod records;

ghost use Rattle.std.specs.Prelude.{◌≡◌, ◌<◌, [], None, length, IfSome};
ghost use Rattle.profile.specs.Sizes.{config_of};
ghost use Rattle.profile.specs.images.Entries.{refusal_for, with_entry};
ghost use Rattle.command_shell.specs.Script.{script_answer};
ghost use Rattle.rosm_c.specs.Answers.{ShowsAnswersUnlessNone, ShowsNothing, ShowsRecordsUnlessNone};

use answers::{NOT_RUN, SIZES_REFUSED, refuse, write_answers};
use profile::Config;
use profile::images::Images;
use records::write_records;
use std::alloc::Global;

/// Runs a script on a fresh machine of these sizes, in pages of 4,096 bytes, within a budget of
/// steps. As much of its answers goes to the front of `out` as there is room for, and how long all
/// of them are to `written`.
///
/// The status is that of the program `rosm`: 0 after OS_Exit, 1 after a fault, 3 after another stop
/// or none, 2 for sizes that no machine has, and 4 where the script has more than 1,048,576 bytes
/// or memory ran out. With 2 and 4 nothing is written, and `written` is 0.
#[unsafe(no_mangle)]
pub extern "C" fn rosm_run(
    alloc: Global,
    pages: u32,
    app: u32,
    rma: u32,
    budget: u64,
    script: &[u8],
    out: &mut [u8],
    written: &mut usize,
) -> u32
    ensures sizes { config_of pages app rma ≡ None → ShowsNothing 2 result written.new out.old out.new }
    ensures reported { IfSome (config_of pages app rma) (λ config. ShowsAnswersUnlessNone
        (script_answer config [] budget script.now) result written.new out.old out.new) }
    ensures too_long { IfSome (config_of pages app rma) (λ _. 1048576 < length script.now → result ≡ 4) }
{
    match Config::new(pages, app, rma) {
        None => refuse(SIZES_REFUSED, written),
        Some(config) => write_answers(
            alloc,
            &mut Images::new(),
            config,
            budget,
            script,
            out,
            written,
        ),
    }
}

/// Runs as [`rosm_run`], with an image there from the start, as if it were a file of that name.
///
/// The status is 4 too where there can't be such an image: its name has 1 to 63 bytes, printing
/// ASCII characters other than the space, and it has at most 1,048,576 bytes.
#[unsafe(no_mangle)]
pub extern "C" fn rosm_run_image(
    alloc: Global,
    pages: u32,
    app: u32,
    rma: u32,
    budget: u64,
    name: &[u8],
    image: &[u8],
    script: &[u8],
    out: &mut [u8],
    written: &mut usize,
) -> u32
    ensures sizes { config_of pages app rma ≡ None → ShowsNothing 2 result written.new out.old out.new }
    ensures refused { IfSome (config_of pages app rma) (λ _. IfSome (refusal_for [] name.now
        (length image.now)) (λ _. ShowsNothing 4 result written.new out.old out.new)) }
    ensures reported { IfSome (config_of pages app rma) (λ config.
        refusal_for [] name.now (length image.now) ≡ None → ShowsAnswersUnlessNone
        (script_answer config (with_entry [] name.now image.now) budget script.now)
        result written.new out.old out.new) }
    ensures too_long { IfSome (config_of pages app rma) (λ _. 1048576 < length script.now → result ≡ 4) }
{
    let Some(config) = Config::new(pages, app, rma) else {
        return refuse(SIZES_REFUSED, written);
    };
    let mut images = Images::new();
    match images.add(alloc, name, image) {
        Err(_) => refuse(NOT_RUN, written),
        Ok(()) => write_answers(alloc, &mut images, config, budget, script, out, written),
    }
}

/// Answers a debugging script on a fresh machine, as records: JSON objects, one a line, by which the
/// machine is known after each step (docs/JSON.md). `name` is what the first record calls the script. As
/// much of the records goes to the front of `out` as there is room for, and how long all of them are to
/// `written`. No byte of a record is below 32 but line feeds, none is above 126, and none is `<`.
///
/// The status is that of the program `rosm_debug`: where the script expects something 0 if all of that is
/// so and 5 if not, else as for [`rosm_run`]. With 2 and 4 nothing is written, and `written` is 0.
#[unsafe(no_mangle)]
pub extern "C" fn rosm_records(
    alloc: Global,
    pages: u32,
    app: u32,
    rma: u32,
    budget: u64,
    name: &[u8],
    script: &[u8],
    out: &mut [u8],
    written: &mut usize,
) -> u32
    ensures sizes { config_of pages app rma ≡ None → ShowsNothing 2 result written.new out.old out.new }
    ensures recorded { IfSome (config_of pages app rma) (λ _.
        ShowsRecordsUnlessNone result written.new out.old out.new) }
    ensures too_long { IfSome (config_of pages app rma) (λ _. 1048576 < length script.now → result ≡ 4) }
{
    match Config::new(pages, app, rma) {
        None => refuse(SIZES_REFUSED, written),
        Some(config) => write_records(alloc, config, budget, name, script, out, written),
    }
}
