//! Dynamic areas and modules in records: whole lists.

use profile::memory_map::{PAGE_SIZE, PRIVATE_WORDS};
use std::alloc::AllocError;
use trace_effects::record_text::{Bracket, RecordText};
use trace_moments::{ShownArea, ShownAreas};
use trace_text::InstanceMark;

/// Writes all dynamic areas, and how many pages are in the pool.
pub(crate) fn push_areas(text: &mut RecordText, areas: &ShownAreas) -> Result<(), AllocError> {
    text.open_field(b"areas", Bracket::List)?;
    for area in &areas.list {
        push_area(text, area)?;
    }
    text.close(Bracket::List)?;
    text.number_field(b"pool", u64::from(areas.pool))
}

fn push_area(text: &mut RecordText, area: &ShownArea) -> Result<(), AllocError> {
    text.open(Bracket::Object)?;
    text.number_field(b"area", u64::from(area.number))?;
    text.number_field(b"base", u64::from(area.base))?;
    text.number_field(b"size", u64::from(PAGE_SIZE) * u64::from(area.pages))?;
    text.number_field(b"max", u64::from(area.maximum))?;
    text.string_field(b"name", area.name.as_slice())?;
    text.close(Bracket::Object)
}

/// Writes all modules with their instances, which stand one after another, those of a module together.
pub(crate) fn push_modules(
    text: &mut RecordText,
    instances: &[InstanceMark],
) -> Result<(), AllocError> {
    text.open_field(b"modules", Bracket::List)?;
    let mut last: Option<&InstanceMark> = None;
    for instance in instances {
        if !is_of_same_module(last, instance) {
            end_module(text, last)?;
            begin_module(text, instance)?;
        }
        push_instance(text, instance)?;
        last = Some(instance);
    }
    end_module(text, last)?;
    text.close(Bracket::List)
}

// Modules have different titles.
fn is_of_same_module(last: Option<&InstanceMark>, instance: &InstanceMark) -> bool {
    match last {
        Some(last) => last.title.as_slice() == instance.title.as_slice(),
        None => false,
    }
}

fn begin_module(text: &mut RecordText, instance: &InstanceMark) -> Result<(), AllocError> {
    text.open(Bracket::Object)?;
    text.string_field(b"title", instance.title.as_slice())?;
    text.number_field(b"at", u64::from(instance.at))?;
    text.number_field(b"length", u64::from(instance.len))?;
    text.open_field(b"instances", Bracket::List)
}

fn end_module(text: &mut RecordText, last: Option<&InstanceMark>) -> Result<(), AllocError> {
    if last.is_none() {
        return Ok(());
    }
    text.close(Bracket::List)?;
    text.close(Bracket::Object)
}

fn push_instance(text: &mut RecordText, instance: &InstanceMark) -> Result<(), AllocError> {
    text.open(Bracket::Object)?;
    text.string_field(b"name", instance.name.as_slice())?;
    let word = u64::from(PRIVATE_WORDS) + 4 * u64::from(instance.slot);
    text.number_field(b"word", word)?;
    text.name(b"preferred")?;
    text.word(if instance.preferred {
        b"true"
    } else {
        b"false"
    })?;
    text.close(Bracket::Object)
}
