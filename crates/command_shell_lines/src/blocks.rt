//! The lines of a block, after HEX or ASM: read as bytes, or passed over.

ghost use Rattle.std.specs.Prelude.{◌≡◌, ◌+◌, length, take, IfOk, OnOk};
ghost use Rattle.command_shell_lines.specs.Blocks.{block_lines, after_block, lines_in_block, block_bytes, result_of_block};

use crate::hex_pairs::append_spelled;
use crate::requests::is_block_end;
use assembler_text::Lines;
use std::alloc::{AllocError, Global};

/// What the lines of a HEX block spell.
#[derive(Drop)]
pub enum Block {
    /// The bytes of all its lines.
    Bytes(Vec<u8>),
    /// The first line that isn't whole pairs, counted from 1.
    BadLine(usize),
}

/// Reads the lines of a HEX block and the line that ends it. The script's end is an end, too.
pub fn read_block(alloc: Global, script: &mut Lines) -> Result<Block, AllocError>
    ensures block { IfOk result (λ block. result_of_block block
        ≡ block_bytes 0 (block_lines script.old.left)) }
    ensures left { OnOk result (script.new.left ≡ after_block script.old.left) }
    ensures number { OnOk result (script.new.number ≡ script.old.number + lines_in_block script.old.left) }
{
    let mut bytes = Vec::new(alloc);
    let first = script.number();
    while let Some(line) = script.next_line() {
        if is_block_end(line) {
            return Ok(Block::Bytes(bytes));
        }
        if !append_spelled(&mut bytes, line)? {
            let bad = script.number() - first;
            skip_block(script);
            return Ok(Block::BadLine(bad));
        }
    }
    Ok(Block::Bytes(bytes))
}

/// Passes over the lines of a block and the line that ends it, and answers how many lines the
/// block has.
pub fn skip_block(script: &mut Lines) -> usize
    ensures lines { result ≡ length (block_lines script.old.left) }
    ensures front { take result script.old.left ≡ block_lines script.old.left }
    ensures left { script.new.left ≡ after_block script.old.left }
    ensures number { script.new.number ≡ script.old.number + lines_in_block script.old.left }
{
    let first = script.number();
    while let Some(line) = script.next_line() {
        if is_block_end(line) {
            return script.number() - first - 1;
        }
    }
    script.number() - first
}
