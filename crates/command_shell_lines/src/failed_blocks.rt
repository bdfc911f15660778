//! The ASM blocks with errors, and what BOOT and LOAD of their names are answered.

ghost use Rattle.std.specs.Prelude.{◌≡◌, ◌++◌, IfOk, OnOk};
ghost use Rattle.std.specs.Fmt.{decimal};
ghost use Rattle.std.specs.Str.{bytes_eq};
ghost use Rattle.command_shell_lines.specs.Requests.{request_of_command};
ghost use Rattle.command_shell_lines.specs.FailedBlocks.{block_reason, block_text, line_of_block, reason_for};

use crate::requests::ScriptCommand;
use assembler_text::{Images, cut};
use itoa::Buffer;
use std::alloc::{AllocError, Global};
use std::marker::Model;

/// The name of a block's image, and the line at which the block begins.
#[derive(Drop)]
pub struct FailedBlock {
    name: Vec<u8>,
    line: usize,
}

impl Model for FailedBlock {
    ghost use Rattle.command_shell_lines.specs.FailedBlocks.{FailedBlockPlace};

    ghost Value = { FailedBlockPlace };

    ghost view = { λ b. record { name = b.name.items; line = b.line } };
}

impl FailedBlock {
    fn is_of(&self, name: &[u8]) -> bool
        ensures { result ≡ bytes_eq self.now.name name.now }
    {
        self.name.as_slice() == name
    }
}

/// The blocks that had errors, one of a name.
#[derive(Drop)]
pub struct FailedBlocks {
    alloc: Global,
    blocks: Vec<FailedBlock>,
}

impl Model for FailedBlocks {
    ghost use Rattle.std.specs.Prelude.{List};
    ghost use Rattle.command_shell_lines.specs.FailedBlocks.{FailedBlockPlace};

    ghost Value = { List FailedBlockPlace };

    ghost view = { λ f. f.blocks.items };
}

impl FailedBlocks {
    ghost use Rattle.std.specs.Prelude.{[]};
    ghost use Rattle.command_shell_lines.specs.FailedBlocks.{failed_after, without_failed_block};

    /// No block.
    pub fn new(alloc: Global) -> FailedBlocks
        ensures { result ≡ [] }
    {
        FailedBlocks {
            alloc,
            blocks: Vec::new(alloc),
        }
    }

    /// Keeps of a block whether it has errors, in place of what was kept of its name.
    ///
    /// # Errors
    ///
    /// Memory ran out.
    pub fn note(&mut self, name: &[u8], line: usize, has_errors: bool) -> Result<(), AllocError>
        ensures { OnOk result (self.new ≡ failed_after self.old name.now line has_errors) }
    {
        self.remove(name);
        if !has_errors {
            return Ok(());
        }
        let name = Vec::from_slice(self.alloc, name)?;
        self.blocks.push(FailedBlock { name, line })?;
        Ok(())
    }

    fn remove(&mut self, name: &[u8])
        ensures { self.new ≡ without_failed_block self.old name.now }
    {
        self.blocks.retain(|block| !block.is_of(name));
    }

    fn line_of(&self, name: &[u8]) -> Option<usize>
        ensures { result ≡ line_of_block self.now name.now }
    {
        line_of_block(self.blocks.as_slice(), name)
    }

    /// What stands below the answer to a line: of one that boots or loads an image whose name is that
    /// of such a block, that it is an older image, or that there is none.
    ///
    /// # Errors
    ///
    /// Memory ran out.
    pub fn reason(
        &self,
        alloc: Global,
        images: &Images,
        command: &ScriptCommand<'_>,
    ) -> Result<Vec<u8>, AllocError>
        ensures { IfOk result (λ text. text.items
            ≡ block_reason self.now images.now (request_of_command command.now)) }
    {
        match *command {
            ScriptCommand::Boot(name) => self.reason_for(alloc, images, name),
            ScriptCommand::Load(text) => {
                let (name, _) = cut(text, b' ');
                self.reason_for(alloc, images, name)
            }
            _ => Ok(Vec::new(alloc)),
        }
    }

    fn reason_for(&self, alloc: Global, images: &Images, name: &[u8]) -> Result<Vec<u8>, AllocError>
        ensures { IfOk result (λ text. text.items ≡ reason_for self.now images.now name.now) }
    {
        let mut text = Vec::new(alloc);
        if let Some(line) = self.line_of(name) {
            text.extend_from_slice(name)?;
            push_block(&mut text, images.get(name).is_some(), line)?;
        }
        Ok(text)
    }
}

// `: the block at line 7 has errors and made no image`
fn push_block(text: &mut Vec<u8>, is_there: bool, line: usize) -> Result<(), AllocError>
    ensures { OnOk result (text.new.items ≡ text.old.items ++ block_text is_there line) }
{
    if is_there {
        return push_line(
            text,
            b": an older image, since the block at line ",
            line,
            b" has errors\n",
        );
    }
    push_line(
        text,
        b": the block at line ",
        line,
        b" has errors and made no image\n",
    )
}

fn push_line(text: &mut Vec<u8>, front: &[u8], line: usize, end: &[u8]) -> Result<(), AllocError>
    ensures { OnOk result (text.new.items ≡ text.old.items ++ (front.now ++ (decimal line ++ end.now))) }
{
    let mut digits = Buffer::new();
    text.extend_from_slice(front)?;
    text.extend_from_slice(digits.format(line).as_bytes())?;
    text.extend_from_slice(end)?;
    Ok(())
}

// The line of the block of that name.
fn line_of_block(blocks: &[FailedBlock], name: &[u8]) -> Option<usize>
    ensures { result ≡ line_of_block blocks.now name.now }
{
    for block in blocks {
        if block.is_of(name) {
            return Some(block.line);
        }
    }
    None
}
