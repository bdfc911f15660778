//! The flex store and its blocks in records.

ghost use Rattle.flex_store.specs.State.{IsFlex};

use address_map::AddressMap;
use flex_store::{Flex, FlexBlock};
use std::alloc::{AllocError, Global};
use trace_effects::record_text::{Bracket, RecordText};
use trace_moments::{FlexChange, FlexRange, changed_blocks, changed_range};

/// Writes where the flex store is, `null` where there is none.
pub(crate) fn push_store(
    text: &mut RecordText,
    name: &[u8],
    range: Option<FlexRange>,
) -> Result<(), AllocError> {
    text.name(name)?;
    let Some(range) = range else {
        return text.word(b"null");
    };
    text.open(Bracket::Object)?;
    text.number_field(b"start", u64::from(range.start))?;
    text.number_field(b"end", u64::from(range.end))?;
    text.number_field(b"used", u64::from(range.used))?;
    text.close(Bracket::Object)
}

/// Writes the blocks that are gone, new or elsewhere, and where the store is if that differs.
pub(crate) fn push_changed_flex(
    alloc: Global,
    text: &mut RecordText,
    before: &AddressMap,
    old: &Flex,
    after: &AddressMap,
    new: &Flex,
) -> Result<(), AllocError>
    requires old { IsFlex before.now old.now }
    requires new { IsFlex after.now new.now }
{
    let changes = changed_blocks(alloc, before, old, after, new)?;
    push_blocks(text, changes.as_slice())?;
    match changed_range(old, new) {
        Some(range) => push_store(text, b"flex_store", range),
        None => Ok(()),
    }
}

fn push_blocks(text: &mut RecordText, changes: &[FlexChange]) -> Result<(), AllocError> {
    if changes.is_empty() {
        return Ok(());
    }
    text.open_field(b"flex", Bracket::List)?;
    for change in changes {
        text.open(Bracket::List)?;
        push_change(text, change)?;
        text.close(Bracket::List)?;
    }
    text.close(Bracket::List)
}

fn push_change(text: &mut RecordText, change: &FlexChange) -> Result<(), AllocError> {
    match (change.was, change.is) {
        (Some(was), Some(is)) => {
            push_place(text, b"=", &is)?;
            text.number(u64::from(was.at))?;
            text.number(u64::from(was.size))
        }
        (None, Some(is)) => push_place(text, b"+", &is),
        (_, None) => {
            text.string(b"-")?;
            text.number(u64::from(change.anchor))
        }
    }
}

fn push_place(text: &mut RecordText, sign: &[u8], block: &FlexBlock) -> Result<(), AllocError> {
    text.string(sign)?;
    text.number(u64::from(block.anchor))?;
    text.number(u64::from(block.at))?;
    text.number(u64::from(block.size))
}
