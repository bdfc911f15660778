//! What GDB's `load` sent last.

ghost use Rattle.std.specs.Prelude.{◌≡◌, [], OnOk, map};
ghost use Rattle.std.specs.List.{list_any};
ghost use Rattle.gdb_packets.specs.Requests.{gdb_request, packet_request};
ghost use Rattle.gdb_machine.specs.Loads.{is_in_range, is_store, place_set, place_written, stores_at};

use crate::change_packets::wanted_write;
use crate::changes::RegisterWrite;
use gdb_packets::{ByteRange, Request, request_of};
use std::alloc::{AllocError, Global};
use std::mem::replace;

/// The packets of GDB's last `load`: requests that store bytes, one right after another, and right after
/// them one that sets the program counter to a place among these bytes, unless it is at one already.
#[derive(Drop)]
pub struct Loads {
    alloc: Global,
    // Requests that store bytes, since the last packet of another kind.
    row: Vec<Vec<u8>>,
    // The last load.
    kept: Vec<Vec<u8>>,
}

impl Loads {
    ghost use Rattle.gdb_machine.specs.Loads.{has_stored, load_ended, load_state, no_load, after_packet, row_longer, with_place};

    /// No load.
    pub fn new(alloc: Global) -> Loads
        ensures { load_state result ≡ no_load }
    {
        Loads {
            alloc,
            row: Vec::new(alloc),
            kept: Vec::new(alloc),
        }
    }

    /// The packets of the last load.
    pub fn kept(&self) -> &[Vec<u8>]
        ensures { map (λ p. p.items) result.now ≡ (load_state self.now).kept }
    {
        self.kept.as_slice()
    }

    /// Takes in a packet that has come where the program counter was so.
    ///
    /// # Errors
    ///
    /// Memory ran out.
    pub fn note(&mut self, packet: &[u8], pc: u32) -> Result<(), AllocError>
        ensures { OnOk result (load_state self.new ≡ after_packet (load_state self.old) packet.now pc) }
    {
        let request = request_of(packet);
        if is_store(&request) {
            self.lengthen_row(packet)
        } else {
            self.end_row(packet, place_set(&request), pc)
        }
    }

    #[tactic(auto, using(crate::proofs::LoadLemmas::load_steps))]
    fn lengthen_row(&mut self, packet: &[u8]) -> Result<(), AllocError>
        ensures { OnOk result (load_state self.new ≡ row_longer (load_state self.old) packet.now) }
    {
        self.row.push(Vec::from_slice(self.alloc, packet)?)?;
        Ok(())
    }

    // A packet that stores no bytes: it may set the program counter, which was so.
    fn end_row(&mut self, packet: &[u8], place: Option<u32>, pc: u32) -> Result<(), AllocError>
        ensures { OnOk result (load_state self.new ≡ load_ended (load_state self.old) packet.now place pc) }
    {
        if self.has_stored(place.unwrap_or(pc)) {
            self.keep_row(packet, place)
        } else {
            self.row = Vec::new(self.alloc);
            Ok(())
        }
    }

    // The row is a load, with the packet where that sets the program counter.
    fn keep_row(&mut self, packet: &[u8], place: Option<u32>) -> Result<(), AllocError>
        ensures { OnOk result (load_state self.new
            ≡ record { row = []; kept = with_place (load_state self.old).row packet.now place }) }
    {
        if place.is_some() {
            self.lengthen_row(packet)?;
        }
        self.kept = replace(&mut self.row, Vec::new(self.alloc));
        Ok(())
    }

    // Whether a place is among the bytes of the row.
    #[tactic(auto, using(crate::proofs::LoadLemmas::load_steps))]
    fn has_stored(&self, place: u32) -> bool
        ensures { result ≡ has_stored (load_state self.now).row place }
    {
        has_stored_at(self.row.as_slice(), place)
    }
}

fn has_stored_at(row: &[Vec<u8>], place: u32) -> bool
    ensures { result ≡ list_any (λ p. stores_at place (packet_request p.items)) row.now }
{
    row.iter()
        .any(|packet| stores_at(place, &request_of(packet.as_slice())))
}

// Whether a request stores a byte at a place.
fn stores_at(place: u32, request: &Request<'_>) -> bool
    ensures { result ≡ stores_at place (gdb_request request.now) }
{
    match request {
        Request::StoreBytes(range, _) => is_in_range(place, *range),
        Request::StorePairs(range, _) => is_in_range(place, *range),
        _ => false,
    }
}

fn is_in_range(place: u32, range: ByteRange) -> bool
    ensures { result ≡ is_in_range place range }
{
    place >= range.start && u64::from(place) < u64::from(range.start) + u64::from(range.count)
}

fn is_store(request: &Request<'_>) -> bool
    ensures { result ≡ is_store (gdb_request request.now) }
{
    matches!(request, Request::StoreBytes(..) | Request::StorePairs(..))
}

// Where a request sets the program counter to.
fn place_set(request: &Request<'_>) -> Option<u32>
    ensures { result ≡ place_set (gdb_request request.now) }
{
    match request {
        Request::SetRegister(number, pairs) => place_written(wanted_write(*number, pairs)),
        _ => None,
    }
}

fn place_written(write: Option<RegisterWrite>) -> Option<u32>
    ensures { result ≡ place_written write }
{
    match write {
        Some(RegisterWrite::Place(address)) => Some(address),
        _ => None,
    }
}
