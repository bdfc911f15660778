//! GDB's remote protocol as bytes: packets in their frames, both ways, and what a packet asks for.
//! It knows no machine.
//!
//! Promise: what is framed is read as that packet, and a request is read just where the grammar has
//! it.
#![tactic(auto)]

mod digits;
mod fixed;
mod frames;
mod going;
mod laws;
mod numbers;
mod parts;
mod reader;
pub mod request_laws;
mod requests;
mod words;

pub use fixed::{
    extends, fixed_reply, is_run_request, is_taken_so, keeps_acks, request_in, threads,
};
pub use frames::push_packet;
pub use going::{Going, has_left};
pub use laws::packets_are_read;
pub use reader::{FramePlace, MOST_PACKET, PacketReader, Piece};
pub use requests::{ByteRange, PlaceRange, PointKind, Request, request_of};
