//! Packets buffered, and written in large parts.

ghost use Rattle.std.specs.Prelude.{◌≡◌, ◌≤◌, ◌<◌, ℕ, ◌+◌, ◌++◌, [], List, Option, IfOk, IfErr, OnOk, OnErr};
ghost use Rattle.std.specs.Prelude.{length, true};
ghost use Rattle.mux_core.specs.Buffer.{byte_count, waiting_of, with_next, HasNext, IsOutput, Took, TookPart};
ghost use Rattle.mux_core.specs.Formats.{formatted};
ghost use Rattle.hex.specs.Hex.{encode_lower};
ghost use Rattle.std.specs.Borrow.{Array, Lends, sem, u8 as byte};
ghost use Rattle.std.specs.Vec.{vec_len, vec_capacity};
ghost use Rattle.std.specs.Io.KnownBytes.{Appends};
ghost use Rattle.counted_io.specs.Device.{Failed};

use counted_io::{Sink, write_part};
use std::alloc::{AllocError, Allocator};
use std::marker::Model;

// The bytes that wait are written once there are 349 packets (65,612 bytes), or lines of 65,536 bytes.
const PACKETS: usize = 349;

const PART: usize = 65_536;

// The length of a line: two digits a byte, and LF.
const LINE: usize = 377;

/// The writer failed. It took exactly the first `sent` bytes of the output; the count stops at 2^64 - 1.
#[derive(Clone, Copy)]
pub struct OutputFault {
    pub sent: u64,
}

/// Packets that go to a writer, as bytes or as lines of hexadecimal digits. They are written in parts of at least 64
/// KiB; the room for a part is taken once. A packet is made where it waits: in the room of the next packet.
#[derive(Drop)]
pub struct PacketOutput<A: Allocator> {
    // Lines that wait.
    lines: Vec<u8, A>,
    // The rooms of a part's packets: the first `count` packets wait, and the next room is for the next packet.
    rooms: Vec<[u8; 188], A>,
    count: usize,
    sent: u64,
    hex: bool,
}

impl<A: Allocator> Model for PacketOutput<A> {
    ghost use Rattle.std.specs.Prelude.{◌≡◌, ◌≤◌, ◌<◌, ◌+◌, true, false, []};
    ghost use Rattle.std.specs.Vec.{vec_len, vec_capacity};
    ghost use Rattle.mux_core.specs.Buffer.{Buffered};

    ghost Value = { Buffered };

    ghost view = { λ output. record {
      lines = output.lines.items;
      rooms = output.rooms.items;
      count = output.count;
      sent = output.sent;
      hex = output.hex;
    } };

    // As bytes no line waits, as lines no packet.
    ghost invariant = { λ output. (vec_len output.lines < 65_536) × (65_536 + 377 ≤ vec_capacity output.lines)
        × (vec_len output.rooms ≡ 349) × (output.count < 349)
        × (output.hex ≡ false → output.lines.items ≡ []) × (output.hex ≡ true → output.count ≡ 0) };
}

impl<A: Allocator + Copy> PacketOutput<A> {
    /// Returns an output of no packets, with the memory for a part.
    pub fn new(alloc: A, hex: bool) -> Result<PacketOutput<A>, AllocError>
        ensures empty { IfOk result (λ output. waiting_of output ≡ []) }
        ensures sent { IfOk result (λ output. output.sent ≡ 0) }
        ensures hex { IfOk result (λ output. output.hex ≡ hex) }
    {
        let lines = Vec::with_capacity(alloc, PART + LINE)?;
        let rooms = vec![in alloc; [0u8; 188]; PACKETS]?;
        Ok(PacketOutput {
            lines,
            rooms,
            count: 0,
            sent: 0,
            hex,
        })
    }
}

impl<A: Allocator> PacketOutput<A> {
    ghost use Rattle.mux_core.specs.contracts.output.PacketOutput.{the_row};

    /// Returns the room of the next packet.
    pub fn room(&mut self) -> &mut [u8; 188]
        ensures* next { sem 𝓛 (Lends (the_row A.row A.Allocator)
            (Array byte 0) self.entry result (with_next self.old)) }
        ensures there { self.old.count < length self.old.rooms }
    {
        &mut self.rooms[self.count]
    }

    /// Adds the packet in the next room, and writes the waiting bytes once they are a part.
    pub fn push<W: Sink>(&mut self, to: &mut W) -> Result<(), OutputFault>
        ensures ok { (start : Option (List ℕ)) (all packet : List ℕ) → HasNext self.old packet →
            IsOutput start (W.contents to.old) self.old all →
            OnOk result (IsOutput start (W.contents to.new) self.new (all ++ formatted self.old.hex packet)) }
        ensures err { (start : Option (List ℕ)) (all packet : List ℕ) → HasNext self.old packet →
            IsOutput start (W.contents to.old) self.old all →
            IfErr result (λ fault. Took start (W.contents to.new) fault.sent
            (all ++ formatted self.old.hex packet)) }
        ensures hex { self.new.hex ≡ self.old.hex }
        ensures clean { OnOk result (W.fault_count to.new ≡ W.fault_count to.old) }
        ensures fault { OnErr result (Failed (W.fault_count to.old) (W.fault_count to.new)) }
    {
        let written = if self.hex {
            append_line(&mut self.lines, &self.rooms[0]);
            if self.lines.len() < PART {
                return Ok(());
            }
            write_after(to, &self.lines, self.sent)
        } else {
            if self.count + 1 < PACKETS {
                self.count += 1;
                return Ok(());
            }
            write_after(to, self.rooms.as_flattened(), self.sent)
        };
        self.lines.clear();
        self.count = 0;
        match written {
            Ok(sent) => {
                self.sent = sent;
                Ok(())
            }
            Err(fault) => Err(fault),
        }
    }

    /// Writes the waiting bytes, by one write if the writer takes them whole. No byte waits then.
    pub fn flush<W: Sink>(&mut self, to: &mut W) -> Result<(), OutputFault>
        ensures ok { (start : Option (List ℕ)) (all : List ℕ) → IsOutput start (W.contents to.old) self.old all →
            OnOk result (IsOutput start (W.contents to.new) self.new all) }
        ensures err { (start : Option (List ℕ)) (all : List ℕ) → IsOutput start (W.contents to.old) self.old all →
            IfErr result (λ fault. Took start (W.contents to.new) fault.sent all) }
        ensures empty { waiting_of self.new ≡ [] }
        ensures hex { self.new.hex ≡ self.old.hex }
        ensures clean { OnOk result (W.fault_count to.new ≡ W.fault_count to.old) }
        ensures fault { OnErr result (Failed (W.fault_count to.old) (W.fault_count to.new)) }
    {
        let written = write_after(to, self.waiting(), self.sent);
        self.lines.clear();
        self.count = 0;
        match written {
            Ok(sent) => {
                self.sent = sent;
                Ok(())
            }
            Err(fault) => Err(fault),
        }
    }

    /// Writes what waits, and answers the number of bytes written in all.
    pub fn finish<W: Sink>(self, to: &mut W) -> Result<u64, OutputFault>
        ensures ok { (start : Option (List ℕ)) (all : List ℕ) → IsOutput start (W.contents to.old) self all →
            IfOk result (λ sent. (sent ≡ byte_count (length all)) × Appends start (W.contents to.new) all) }
        ensures err { (start : Option (List ℕ)) (all : List ℕ) → IsOutput start (W.contents to.old) self all →
            IfErr result (λ fault. Took start (W.contents to.new) fault.sent all) }
        ensures clean { OnOk result (W.fault_count to.new ≡ W.fault_count to.old) }
        ensures fault { OnErr result (Failed (W.fault_count to.old) (W.fault_count to.new)) }
    {
        write_after(to, self.waiting(), self.sent)
    }

    // Returns the bytes that wait.
    fn waiting(&self) -> &[u8]
        ensures { result.now ≡ waiting_of self.now }
    {
        if self.hex {
            &self.lines
        } else {
            let (packets, _) = self.rooms.split_at(self.count);
            packets.as_flattened()
        }
    }
}

// Returns the bytes of a packet as hexadecimal digits, two for each byte.
fn digits_of(packet: &[u8; 188]) -> [u8; 376]
    ensures { result ≡ encode_lower packet.now }
{
    let mut digits = [0u8; 376];
    let _ = hex::encode_to_slice(packet.as_slice(), &mut digits);
    digits
}

// Appends the line of a packet.
#[tactic(auto, unfolding(crate::specs::Formats::formatted))]
fn append_line<A: Allocator>(lines: &mut Vec<u8, A>, packet: &[u8; 188])
    requires { vec_len lines.old + 377 ≤ vec_capacity lines.old }
    ensures items { lines.new.items ≡ lines.old.items ++ formatted true packet.now }
    ensures len { vec_len lines.new ≤ vec_len lines.old + 377 }
    ensures capacity { vec_capacity lines.old ≤ vec_capacity lines.new }
{
    let _ = lines.extend_from_slice(&digits_of(packet));
    let _ = lines.extend_from_slice(b"\n");
}

// Writes a part after `sent` bytes, and adds its length.
fn write_after<W: Sink>(to: &mut W, part: &[u8], sent: u64) -> Result<u64, OutputFault>
    ensures ok { IfOk result (λ n. n ≡ byte_count (sent + length part.now)) }
    ensures bytes { OnOk result (Appends (W.contents to.old) (W.contents to.new) part.now) }
    ensures err { IfErr result (λ fault. TookPart (W.contents to.old) (W.contents to.new) part.now sent fault.sent) }
    ensures clean { OnOk result (W.fault_count to.new ≡ W.fault_count to.old) }
    ensures fault { OnErr result (Failed (W.fault_count to.old) (W.fault_count to.new)) }
{
    match write_part(to, part) {
        Ok(()) => Ok(sent.saturating_add(part.len() as u64)),
        Err(fault) => Err(OutputFault {
            sent: sent.saturating_add(fault.taken as u64),
        }),
    }
}
