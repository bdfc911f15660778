//! Blocks that turn out to lack their line END, by the lines at which they begin.

ghost use Rattle.std.specs.Prelude.{◌≡◌, ◌++◌, IfOk, OnOk, option_to_list};
ghost use Rattle.command_shell_lines.specs.Requests.{request_of};
ghost use Rattle.debug_lines.specs.DebugRequests.{debug_opens_block, debug_request};
ghost use Rattle.debug_lines.specs.BlockEnds.{begins_at_end, begins_shown, is_outside_blocks, missing_ends_if, place_after, begin_if, place_at_opening, place_in_block, place_when_shown};

use crate::openers::opens_block;
use command_shell_lines::{ScriptCommand, command_of, is_block_end};
use profile::text_lines::cut_line;
use std::alloc::{AllocError, Global};

/// Where a reading stands that looks for lines END.
#[derive(Clone, Copy)]
pub enum BlockPlace {
    /// In no block.
    Outside,
    /// In a block that begins at that line.
    Within(usize),
    /// In a block of which it is told that it lacks its END.
    Reported,
}

/// Such a reading.
#[derive(Drop)]
pub struct BlockReading {
    pub(crate) begins: Vec<usize>,
    pub(crate) place: BlockPlace,
    pub(crate) number: usize,
}

/// The lines at which blocks begin that lack their END, in a text before which so many lines stood:
/// of its lines that have their end, or of all, with which a script ends.
///
/// # Errors
///
/// Memory ran out.
pub fn missing_ends(
    alloc: Global,
    text: &[u8],
    number: usize,
    is_all: bool,
) -> Result<Vec<usize>, AllocError>
    ensures { IfOk result (λ begins. begins.items ≡ missing_ends_if is_all number text.now) }
{
    let mut reading = BlockReading::from_line(alloc, number);
    let mut rest = text;
    while let Some((line, after)) = cut_line(rest) {
        reading.read_line(alloc, line)?;
        rest = after;
    }
    reading.ended(alloc, rest, is_all)
}

impl BlockReading {
    ghost use Rattle.profile.specs.text_lines.WholeLines.{line_of_some};
    ghost use Rattle.debug_lines.specs.BlockEnds.{begins_if, blocks_after_line, blocks_after_lines, blocks_read, blocks_read_from, is_in_block, missing_ends_read};

    pub(crate) fn from_line(alloc: Global, number: usize) -> BlockReading
        ensures { blocks_read result ≡ blocks_read_from number }
    {
        BlockReading {
            begins: Vec::new(alloc),
            place: BlockPlace::Outside,
            number,
        }
    }

    pub(crate) fn read_line(&mut self, alloc: Global, line: &[u8]) -> Result<(), AllocError>
        ensures { OnOk result (blocks_read self.new ≡ blocks_after_line (blocks_read self.old) line.now) }
    {
        self.number = self.number.saturating_add(1);
        match self.place {
            BlockPlace::Outside => {
                self.place = place_at_opening(opens_block(alloc, line)?, self.number);
                Ok(())
            }
            BlockPlace::Within(begin) => {
                let ends = is_block_end(line);
                let goes_on = is_outside_blocks(line);
                self.place = place_in_block(ends, goes_on, begin);
                self.push_begin(begin_if(ends, goes_on, begin))
            }
            BlockPlace::Reported => {
                self.place = place_when_shown(is_block_end(line));
                Ok(())
            }
        }
    }

    /// Whether a block is open.
    pub(crate) fn is_in_block(&self) -> bool
        ensures { result ≡ is_in_block self.now.place }
    {
        !matches!(self.place, BlockPlace::Outside)
    }

    fn push_begin(&mut self, begin: Option<usize>) -> Result<(), AllocError>
        ensures { OnOk result (blocks_read self.new ≡ record (blocks_read self.old) {
          begins = self.old.begins.items ++ option_to_list begin;
        }) }
    {
        if let Some(begin) = begin {
            self.begins.push(begin)?;
        }
        Ok(())
    }

    // The lines at which blocks begin that lack their END; at a script's end, with its last line.
    fn ended(self, alloc: Global, line: &[u8], is_end: bool) -> Result<Vec<usize>, AllocError>
        ensures { IfOk result (λ begins. begins.items ≡ begins_if is_end (blocks_read self) line.now) }
    {
        if !is_end {
            return Ok(self.begins);
        }
        let mut reading = self;
        reading.read_last(alloc, line)?;
        let begin = reading.place.shown_at_end();
        reading.push_begin(begin)?;
        Ok(reading.begins)
    }

    // A line without its end, if it has a byte.
    #[tactic(auto, unfolding(crate::specs::BlockEnds::blocks_after_lines))]
    fn read_last(&mut self, alloc: Global, line: &[u8]) -> Result<(), AllocError>
        ensures { OnOk result
            (blocks_read self.new ≡ blocks_after_lines (blocks_read self.old) (line_of_some line.now)) }
    {
        if line.is_empty() {
            return Ok(());
        }
        self.read_line(alloc, line)
    }
}

impl BlockPlace {
    // The line at which the block begins that is open at the script's end.
    fn shown_at_end(self) -> Option<usize>
        ensures { option_to_list result ≡ begins_at_end self }
    {
        match self {
            BlockPlace::Within(begin) => Some(begin),
            BlockPlace::Outside | BlockPlace::Reported => None,
        }
    }
}

fn place_at_opening(opens: bool, number: usize) -> BlockPlace
    ensures { result ≡ place_at_opening opens number }
{
    if opens {
        BlockPlace::Within(number)
    } else {
        BlockPlace::Outside
    }
}

fn place_in_block(ends: bool, goes_on: bool, begin: usize) -> BlockPlace
    ensures { result ≡ place_in_block ends goes_on begin }
{
    match (ends, goes_on) {
        (true, _) => BlockPlace::Outside,
        (false, true) => BlockPlace::Reported,
        (false, false) => BlockPlace::Within(begin),
    }
}

fn place_when_shown(ends: bool) -> BlockPlace
    ensures { result ≡ place_when_shown ends }
{
    if ends {
        BlockPlace::Outside
    } else {
        BlockPlace::Reported
    }
}

fn begin_if(ends: bool, goes_on: bool, begin: usize) -> Option<usize>
    ensures { option_to_list result ≡ begin_if ends goes_on begin }
{
    if !ends && goes_on { Some(begin) } else { None }
}

// Whether a line of a block is one that a script has outside blocks.
fn is_outside_blocks(line: &[u8]) -> bool
    ensures { result ≡ is_outside_blocks (request_of line.now) }
{
    matches!(
        command_of(line),
        ScriptCommand::Asm(_, _)
            | ScriptCommand::Boot(_)
            | ScriptCommand::Call(_)
            | ScriptCommand::Load(_)
            | ScriptCommand::Run
    )
}
