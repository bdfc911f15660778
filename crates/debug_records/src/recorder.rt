//! What a debugging script is recorded on.

ghost use Rattle.std.specs.Prelude.{◌≡◌, ℕ, List, IfOk};
ghost use Rattle.debug_records.specs.Recording.{recording_start, recording_state};

use crate::ends::FIRST_LIMIT;
use crate::images::KnownImage;
use debug_session::{DebugSession, DebugSettings};
use profile::images::Images;
use std::alloc::{AllocError, Global};
use trace_effects::record_text::RecordText;

/// A debugging session whose lines are recorded.
///
/// The session answers each line; its twin takes the same steps one by one, and each of them is shown.
/// Before each line, and behind the steps of one, both are read as the same, or nothing more is recorded.
pub struct Recorder {
    pub(crate) alloc: Global,
    pub(crate) session: DebugSession,
    pub(crate) images: Images,
    pub(crate) twin: Twin,
    /// How many steps of a line are shown one by one.
    pub(crate) limit: u64,
    /// How many steps were taken so far.
    pub(crate) steps: u64,
}

impl Drop for Recorder {
    fn drop(self) {
        let Recorder {
            alloc: _alloc,
            session: _session,
            images: _images,
            twin: _twin,
            limit: _limit,
            steps: _steps,
        } = self;
    }
}

/// The session that takes steps one by one, and what is known of it.
#[derive(Drop)]
pub(crate) struct Twin {
    pub(crate) alloc: Global,
    pub(crate) session: DebugSession,
    pub(crate) images: Images,
    /// The fields of the record that is being made: what differs of the core and of words, and those before
    /// and behind.
    pub(crate) front: RecordText,
    pub(crate) changes: RecordText,
    pub(crate) text: RecordText,
    pub(crate) known: Vec<KnownImage>,
}

impl Recorder {
    /// Before the first line, on a fresh machine; the twin's images are the same.
    ///
    /// # Errors
    ///
    /// Memory ran out.
    pub fn new(
        alloc: Global,
        setting: DebugSettings,
        images: Images,
        twin_images: Images,
    ) -> Result<Recorder, AllocError>
        ensures { IfOk result (λ r. (script : List (List ℕ)) → recording_state r
            (record { left = script; number = 0 }) ≡ recording_start setting images script) }
    {
        // The twin can't go back.
        let own = DebugSettings {
            keeps_past: false,
            ..setting
        };
        Ok(Recorder {
            alloc,
            session: DebugSession::new(alloc, own)?,
            images,
            twin: Twin {
                alloc,
                session: DebugSession::new(alloc, own)?,
                images: twin_images,
                front: RecordText::new(alloc),
                changes: RecordText::new(alloc),
                text: RecordText::new(alloc),
                known: Vec::new(alloc),
            },
            limit: FIRST_LIMIT,
            steps: 0,
        })
    }
}
