//! What the bytes of the other side are answered with, one byte after another.

ghost use Rattle.std.specs.Prelude.{◌≡◌, ◌++◌, true, [], List, IfErr, IfOk, OnOk, OnErr, codes, is_some};
ghost use Rattle.debug_session.specs.Error.{IsLineError};
ghost use Rattle.profile.specs.Output.{AddsFront};
ghost use Rattle.std.specs.Io.KnownBytes.{Appends};
ghost use Rattle.gdb_server.specs.Serving.{ack_text, shown_packets, text_packet, reply_packet};
ghost use Rattle.gdb_packets.specs.Fixed.{is_taken_so};
ghost use Rattle.std.specs.Option.{option_map};

use crate::session::{GdbAnswer, GdbSession};
use debug_session::RunError;
use gdb_machine::Loads;
use gdb_packets::{PacketReader, Piece, extends, is_taken_so, keeps_acks, push_packet, request_in};
use profile::images::Images;
use profile::text_sink::TextSink;
use profile::{Sink, WriteFault, push_all};
use std::alloc::Global;

/// The most bytes of text that a packet has.
const MOST_TEXT: usize = 1024;

/// A session with GDB, and where in the bytes of GDB the reading stands.
#[derive(Drop)]
pub struct GdbServer {
    alloc: Global,
    reader: PacketReader,
    session: GdbSession,
    // Whether each packet is answered by `+` or `-`.
    has_acks: bool,
    // Whether the mode is extended, in which the program can be run again.
    is_extended: bool,
    // The last answer, as it was written.
    last: Vec<u8>,
    // What GDB's `load` sent last.
    loads: Loads,
    // Whether a `run` has no program, since a file can't be read.
    lacks: bool,
}

impl GdbServer {
    ghost use Rattle.profile.specs.images.Entries.{Entry};
    ghost use Rattle.gdb_server.specs.Server.{IsServed, server_state};
    ghost use Rattle.gdb_packets.specs.Ahead.{is_run_ahead};
    ghost use Rattle.gdb_server.specs.Serving.{byte_served, packet_served, bytes_served, spoilt_served, stop_served, unasked_served};
    ghost use Rattle.gdb_server.specs.Serving.{server_before_bytes, with_files, without_files};
    ghost use Rattle.gdb_server.specs.session.Runs.{stop_asked};
    ghost use Rattle.gdb_server.specs.session.Session.{gdb_state};

    /// Before the first byte.
    pub fn new(alloc: Global, session: GdbSession) -> GdbServer
        ensures state { (images : List Entry) → server_state result images
            ≡ server_before_bytes (gdb_state session images) }
    {
        GdbServer {
            alloc,
            reader: PacketReader::new(),
            session,
            has_acks: true,
            is_extended: false,
            last: Vec::new(alloc),
            loads: Loads::new(alloc),
            lacks: false,
        }
    }

    /// Whether a `run` has come whole, up to its sum: the files are to be read anew before the next byte.
    pub fn is_run_ahead(&self) -> bool
        ensures { (images : List Entry) → result ≡ is_run_ahead (server_state self.now images).reading }
    {
        self.reader.is_run_ahead()
    }

    /// Takes in the lines that a machine begins with from the next `run` on. Where they, or an image, are
    /// others than before, they stand in place of what `load` sent.
    pub fn take_files(&mut self, start: Vec<u8>, is_other: bool)
        ensures { (images : List Entry) → server_state self.new images
            ≡ with_files (server_state self.old images) start.items is_other }
    {
        if is_other || start.as_slice() != self.session.start.as_slice() {
            self.loads = Loads::new(self.alloc);
        }
        self.session.start = start;
        self.lacks = false;
    }

    /// Takes in that a file can't be read: a `run` is an error.
    pub fn lack_files(&mut self)
        ensures { (images : List Entry) → server_state self.new images
            ≡ without_files (server_state self.old images) }
    {
        self.lacks = true;
    }

    /// The session, as the packets left it.
    pub fn session(&self) -> &GdbSession
        ensures { result.now ≡ self.now.session }
    {
        &self.session
    }

    /// Takes bytes, up to the end of the session, and writes what they are answered with.
    ///
    /// # Errors
    ///
    /// `Memory` and `WriteFault`, when a front of the answers stands written.
    pub fn take<W: Sink>(
        &mut self,
        images: &mut Images,
        sink: &mut W,
        bytes: &[u8],
    ) -> Result<(), RunError>
        ensures reported { OnOk result (IsServed (W.contents sink.old) (W.contents sink.new)
            (server_state self.new images.new)
            (bytes_served bytes.now (server_state self.old images.old))) }
        ensures front { OnErr result (AddsFront (W.contents sink.old) (W.contents sink.new)
            (bytes_served bytes.now (server_state self.old images.old)).text) }
        ensures errors { IfErr result IsLineError }
        ensures same_flag { OnOk result (W.has_failed sink.new ≡ W.has_failed sink.old) }
    {
        for byte in bytes {
            if self.session.has_ended() {
                return Ok(());
            }
            self.take_byte(images, sink, *byte)?;
        }
        Ok(())
    }

    fn take_byte<W: Sink>(
        &mut self,
        images: &mut Images,
        sink: &mut W,
        byte: u8,
    ) -> Result<(), RunError>
        ensures reported { OnOk result (IsServed (W.contents sink.old) (W.contents sink.new)
            (server_state self.new images.new)
            (byte_served (server_state self.old images.old) byte)) }
        ensures front { OnErr result (AddsFront (W.contents sink.old) (W.contents sink.new)
            (byte_served (server_state self.old images.old) byte).text) }
        ensures errors { IfErr result IsLineError }
        ensures same_flag { OnOk result (W.has_failed sink.new ≡ W.has_failed sink.old) }
    {
        match self.reader.take(byte) {
            None => Ok(()),
            Some(Piece::Packet) => self.take_packet(images, sink),
            Some(Piece::Spoilt) => self.take_spoilt(images, sink),
            Some(Piece::Again) => Ok(push_all(sink, self.last.as_slice())?),
            Some(Piece::Stop) => self.take_stop(sink),
        }
    }

    // A packet that came spoilt is asked for again. Where nobody asks so, it is taken as it is, unless it
    // is too long: that one is refused.
    fn take_spoilt<W: Sink>(&mut self, images: &mut Images, sink: &mut W) -> Result<(), RunError>
        ensures reported { OnOk result (IsServed (W.contents sink.old) (W.contents sink.new)
            (server_state self.new images.new)
            (spoilt_served (server_state self.old images.old)
            (is_taken_so self.old.has_acks self.old.reader.fits))) }
        ensures front { OnErr result (AddsFront (W.contents sink.old) (W.contents sink.new)
            (spoilt_served (server_state self.old images.old)
            (is_taken_so self.old.has_acks self.old.reader.fits)).text) }
        ensures errors { IfErr result IsLineError }
        ensures same_flag { OnOk result (W.has_failed sink.new ≡ W.has_failed sink.old) }
    {
        if is_taken_so(self.has_acks, self.reader.is_whole()) {
            self.take_packet(images, sink)
        } else if self.has_acks {
            Ok(push_all(sink, b"-")?)
        } else {
            Ok(push_all(sink, b"$E16#ac")?)
        }
    }

    // The byte 3: a run that is under way stops at once.
    fn take_stop<W: Sink>(&mut self, sink: &mut W) -> Result<(), RunError>
        ensures reported { (images : List Entry) → OnOk result
            (IsServed (W.contents sink.old) (W.contents sink.new) (server_state self.new images)
            (stop_served (server_state self.old images)
            (is_some (server_state self.old images).session.going))) }
        ensures front { (images : List Entry) → OnErr result
            (AddsFront (W.contents sink.old) (W.contents sink.new) (stop_served (server_state self.old images)
            (is_some (server_state self.old images).session.going)).text) }
        ensures errors { IfErr result IsLineError }
        ensures same_flag { OnOk result (W.has_failed sink.new ≡ W.has_failed sink.old) }
    {
        if !self.session.is_running() {
            return Ok(());
        }
        self.answer_stop()?;
        Ok(push_all(sink, self.last.as_slice())?)
    }

    // Stops the run, and keeps the answer as it is written.
    fn answer_stop(&mut self) -> Result<(), RunError>
        ensures state { (images : List Entry) → OnOk result (server_state self.new images
            ≡ (unasked_served (server_state self.old images)
            (stop_asked (server_state self.old images).session)).state) }
        ensures errors { IfErr result IsLineError }
    {
        let answer = self.session.ask_to_stop()?;
        self.last = packets_of(self.alloc, &answer)?;
        Ok(())
    }

    fn take_packet<W: Sink>(&mut self, images: &mut Images, sink: &mut W) -> Result<(), RunError>
        ensures reported { OnOk result (IsServed (W.contents sink.old) (W.contents sink.new)
            (server_state self.new images.new)
            (packet_served (server_state self.old images.old))) }
        ensures front { OnErr result (AddsFront (W.contents sink.old) (W.contents sink.new)
            (packet_served (server_state self.old images.old)).text) }
        ensures errors { IfErr result IsLineError }
        ensures same_flag { OnOk result (W.has_failed sink.new ≡ W.has_failed sink.old) }
    {
        self.acknowledge(sink)?;
        self.answer_packet(images)?;
        Ok(push_all(sink, self.last.as_slice())?)
    }

    // `+`, where it is sent.
    fn acknowledge<W: Sink>(&self, sink: &mut W) -> Result<(), WriteFault>
        ensures text { OnOk result
            (Appends (W.contents sink.old) (W.contents sink.new) (ack_text self.now.has_acks)) }
        ensures front { OnErr result
            (AddsFront (W.contents sink.old) (W.contents sink.new) (ack_text self.now.has_acks)) }
        ensures same_flag { OnOk result (W.has_failed sink.new ≡ W.has_failed sink.old) }
    {
        if self.has_acks {
            push_all(sink, b"+")
        } else {
            Ok(())
        }
    }

    // Answers the packet that came, and keeps the answer as it is written.
    fn answer_packet(&mut self, images: &mut Images) -> Result<(), RunError>
        ensures state { OnOk result (server_state self.new images.new
            ≡ (packet_served (server_state self.old images.old)).state) }
        ensures errors { IfErr result IsLineError }
    {
        let request = request_in(self.is_extended, self.reader.packet());
        self.is_extended = extends(self.is_extended, &request);
        self.has_acks = self.has_acks && keeps_acks(&request);
        self.loads.note(self.reader.packet(), self.session.pc())?;
        let answer = self
            .session
            .answer_request(images, &request, self.loads.kept(), self.lacks)?;
        self.last = packets_of(self.alloc, &answer)?;
        Ok(())
    }
}

// An answer as it is written: the text for the user in packets, and then the packet.
fn packets_of(alloc: Global, answer: &GdbAnswer) -> Result<Vec<u8>, RunError>
    ensures written { IfOk result (λ text. text.items ≡ shown_packets answer.now.reported.items
        ++ reply_packet (option_map (λ reply. reply.items) answer.now.reply)) }
    ensures errors { IfErr result IsLineError }
{
    let mut text = TextSink::new(alloc);
    push_shown(alloc, &mut text, answer.reported.as_slice())?;
    if let Some(reply) = &answer.reply {
        push_packet(&mut text, reply.as_slice())?;
    }
    Ok(text.into_bytes())
}

// Text for the user, in packets that begin with `O`.
fn push_shown<W: Sink>(alloc: Global, sink: &mut W, text: &[u8]) -> Result<(), RunError>
    ensures reported { OnOk result (Appends (W.contents sink.old) (W.contents sink.new)
        (shown_packets text.now)) }
    ensures errors { IfErr result IsLineError }
    ensures same_flag { OnOk result (W.has_failed sink.new ≡ W.has_failed sink.old) }
{
    let mut rest = text;
    while !rest.is_empty() {
        let (piece, others) = rest.split_at(rest.len().min(MOST_TEXT));
        push_text(alloc, sink, piece)?;
        rest = others;
    }
    Ok(())
}

fn push_text<W: Sink>(alloc: Global, sink: &mut W, text: &[u8]) -> Result<(), RunError>
    ensures reported { OnOk result (Appends (W.contents sink.old) (W.contents sink.new)
        (text_packet text.now)) }
    ensures errors { IfErr result IsLineError }
    ensures same_flag { OnOk result (W.has_failed sink.new ≡ W.has_failed sink.old) }
{
    let mut packet = Vec::from_slice(alloc, b"O")?;
    packet.extend_from_slice(hex::encode(alloc, text)?.as_bytes())?;
    Ok(push_packet(sink, packet.as_slice())?)
}
