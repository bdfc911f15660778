//! The bytes of the other side, taken one after another.

ghost use Rattle.std.specs.Prelude.{◌≡◌};
ghost use Rattle.gdb_packets.specs.Reading.{with_sent, after_frame, frame_start, reading_start, byte_taken, taken_between, taken_first_digit, taken_inside, taken_last_digit, with_packet_byte};
ghost use Rattle.gdb_packets.specs.Ahead.{awaits_sum, is_run_ahead};

use crate::digits::digit_value;
use crate::fixed::is_run_request;
use crate::frames::turned_byte;
use crate::requests::request_of;
use arrayvec::ArrayVec;
use std::marker::Model;

/// The most bytes that a packet has.
pub const MOST_PACKET: usize = 16384;

/// What a byte completes.
#[derive(Clone, Copy)]
pub enum Piece {
    /// A packet that is whole, with the right sum.
    Packet,
    /// A packet with a wrong sum, or one that is too long.
    Spoilt,
    /// `-`: the last answer is asked for once more.
    Again,
    /// The byte 3: the program is to stop.
    Stop,
}

/// Where in a frame the reading stands.
#[derive(Clone, Copy)]
pub enum FramePlace {
    /// Before a `$`.
    Between,
    /// Among a packet's bytes.
    Inside,
    /// Behind a `}`.
    Escaped,
    /// Behind the `#`.
    FirstDigit,
    /// Behind the first digit of the sum, which has this value.
    LastDigit(u8),
}

/// Where in the bytes of the other side the reading stands.
#[derive(Drop)]
pub struct PacketReader {
    place: FramePlace,
    packet: ArrayVec<u8, MOST_PACKET>,
    total: u8,
    fits: bool,
}

impl Model for PacketReader {
    ghost use Rattle.gdb_packets.specs.Reading.{Reading};

    ghost Value = { Reading };

    ghost view = { λ r. record { place = r.place; packet = r.packet.items; total = r.total; fits = r.fits } };
}

impl PacketReader {
    /// Before the first byte.
    pub fn new() -> PacketReader
        ensures { result ≡ reading_start }
    {
        PacketReader {
            place: FramePlace::Between,
            packet: ArrayVec::new(),
            total: 0,
            fits: true,
        }
    }

    /// The bytes of the last packet.
    pub fn packet(&self) -> &[u8]
        ensures { result.now ≡ self.now.packet }
    {
        self.packet.as_slice()
    }

    /// Whether all the bytes of the last packet are there: it wasn't too long.
    pub fn is_whole(&self) -> bool
        ensures { result ≡ self.now.fits }
    {
        self.fits
    }

    /// Whether a `run` has come whole, up to its sum.
    pub fn is_run_ahead(&self) -> bool
        ensures { result ≡ is_run_ahead self.now }
    {
        self.awaits_sum() && is_run_request(&request_of(self.packet()))
    }

    // Whether the next byte is the first digit of a sum.
    fn awaits_sum(&self) -> bool
        ensures { result ≡ awaits_sum self.now.place }
    {
        matches!(self.place, FramePlace::FirstDigit)
    }

    /// Takes the next byte.
    #[tactic(auto, unfolding(crate::specs::Reading::byte_taken))]
    pub fn take(&mut self, byte: u8) -> Option<Piece>
        ensures now { self.new ≡ (byte_taken self.old byte).now }
        ensures piece { result ≡ (byte_taken self.old byte).piece }
    {
        match self.place {
            FramePlace::Between => self.take_between(byte),
            FramePlace::Inside => {
                self.take_inside(byte);
                None
            }
            FramePlace::Escaped => {
                self.count(byte);
                self.add(turned_byte(byte));
                None
            }
            FramePlace::FirstDigit => self.take_first_digit(digit_value(byte)),
            FramePlace::LastDigit(first) => self.take_last_digit(first, digit_value(byte)),
        }
    }

    fn take_between(&mut self, byte: u8) -> Option<Piece>
        ensures now { self.new ≡ (taken_between self.old byte).now }
        ensures piece { result ≡ (taken_between self.old byte).piece }
    {
        match byte {
            b'$' => {
                self.open();
                None
            }
            b'-' => Some(Piece::Again),
            3 => Some(Piece::Stop),
            _ => None,
        }
    }

    fn open(&mut self)
        ensures { self.new ≡ frame_start }
    {
        self.place = FramePlace::Inside;
        self.packet.clear();
        self.total = 0;
        self.fits = true;
    }

    fn take_inside(&mut self, byte: u8)
        ensures { self.new ≡ taken_inside self.old byte }
    {
        match byte {
            b'#' => self.place = FramePlace::FirstDigit,
            b'$' => self.open(),
            b'}' => {
                self.count(byte);
                self.place = FramePlace::Escaped;
            }
            _ => {
                self.count(byte);
                self.add(byte);
            }
        }
    }

    // One more byte in the sum.
    fn count(&mut self, sent: u8)
        ensures { self.new ≡ with_sent self.old sent }
    {
        self.total = self.total.wrapping_add(sent);
    }

    // One more byte of the packet.
    fn add(&mut self, byte: u8)
        ensures { self.new ≡ with_packet_byte self.old byte }
    {
        self.place = FramePlace::Inside;
        if self.packet.len() < MOST_PACKET {
            self.packet.push(byte);
        } else {
            self.fits = false;
        }
    }

    fn take_first_digit(&mut self, value: Option<u8>) -> Option<Piece>
        ensures now { self.new ≡ (taken_first_digit self.old value).now }
        ensures piece { result ≡ (taken_first_digit self.old value).piece }
    {
        match value {
            Some(value) => {
                self.place = FramePlace::LastDigit(value);
                None
            }
            None => Some(self.end(false)),
        }
    }

    fn take_last_digit(&mut self, first: u8, value: Option<u8>) -> Option<Piece>
        ensures now { self.new ≡ (taken_last_digit self.old first value).now }
        ensures piece { result ≡ (taken_last_digit self.old first value).piece }
    {
        match value {
            Some(value) => {
                let is_right = u32::from(self.total) == 16 * u32::from(first) + u32::from(value);
                Some(self.end(is_right))
            }
            None => Some(self.end(false)),
        }
    }

    // The end of a frame, with the right sum or not.
    fn end(&mut self, is_right: bool) -> Piece
        ensures now { self.new ≡ (after_frame self.old is_right).now }
        ensures piece { Some result ≡ (after_frame self.old is_right).piece }
    {
        self.place = FramePlace::Between;
        if is_right && self.fits {
            Piece::Packet
        } else {
            Piece::Spoilt
        }
    }
}
