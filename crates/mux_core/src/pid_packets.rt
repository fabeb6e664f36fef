//! The packets of a unit on its PID (ISO/IEC 13818-1, 2.4.3.2 and 2.4.3.6): one PES packet, which begins in a packet of
//! its own and is cut into payloads of 184 bytes; the first has 182 if a decoder may begin with the unit (2.4.3.5).

ghost use Rattle.std.specs.Prelude.{◌≡◌, ◌≤◌, ◌<◌, ℕ, ◌+◌, ◌%◌, ◌++◌, true, List, Option, IsTrue, IfOk, IfErr};
ghost use Rattle.std.specs.Prelude.{OnOk, OnErr, length};
ghost use Rattle.counted_io.specs.Device.{Failed};
ghost use Rattle.pes_packet.specs.StreamIds.{fits_packet};
ghost use Rattle.pes_packet.specs.Marks.{field_size};
ghost use Rattle.pes_packet.specs.Payloads.{piece_count, unit_pieces};
ghost use Rattle.ts_packet.specs.Beginnings.{start_by};
ghost use Rattle.mux_core.specs.Buffer.{IsOutput, Took};
ghost use Rattle.mux_core.specs.PidPackets.{payload_packets, unit_packets, unit_count};
ghost use Rattle.mux_core.specs.Formats.{formatted_all};

use crate::{OutputFault, PacketOutput};
use counted_io::Sink;
use pes_packet::{Unit, write_header};
use std::alloc::Allocator;
use ts_packet::MAX_PAYLOAD;
use unit_queue::write_piece;

// Returns the continuity counter after this counter.
fn next_counter(counter: u8) -> u8
    requires { counter < 16 }
    ensures { result ≡ (counter + 1) % 16 }
{
    (counter + 1) & 0x0f
}

/// Writes the packets of a unit, from continuity counter `counter` on, and returns the counter after the last packet.
/// Stamps are written as they are.
pub(crate) fn push_unit<A: Allocator, B: Allocator, W: Sink>(
    packets: &mut PacketOutput<A>,
    to: &mut W,
    pid: u16,
    id: u8,
    counter: u8,
    unit: &Unit<B>,
) -> Result<u8, OutputFault>
    requires pid { pid < 8192 }
    requires counter { counter < 16 }
    requires fits { IsTrue (fits_packet id (length unit.now.bytes)) }
    ensures ok { (start : Option (List ℕ)) (all : List ℕ) (number : ℕ) →
        IsOutput start (W.contents to.old) packets.old all → counter ≡ number % 16 →
        IfOk result (λ next. (next ≡ (number + unit_count id unit.now) % 16)
        × IsOutput start (W.contents to.new) packets.new
        (all ++ formatted_all packets.old.hex (unit_packets pid id number unit.now))) }
    ensures err { (start : Option (List ℕ)) (all : List ℕ) (number : ℕ) →
        IsOutput start (W.contents to.old) packets.old all → counter ≡ number % 16 →
        IfErr result (λ fault. Took start (W.contents to.new) fault.sent
        (all ++ formatted_all packets.old.hex (unit_packets pid id number unit.now))) }
    ensures next { IfOk result (λ next. next < 16) }
    ensures hex { packets.new.hex ≡ packets.old.hex }
    ensures clean { OnOk result (W.fault_count to.new ≡ W.fault_count to.old) }
    ensures fault { OnErr result (Failed (W.fault_count to.old) (W.fault_count to.new)) }
{
    let header = write_header(id, unit.bytes.len(), unit.marks, unit.pts, unit.dts);
    let access = unit.marks.random_access;
    push_pieces(packets, to, pid, counter, access, &header, &unit.bytes)
}

// Writes the packets of a PES packet, its header and then the unit.
fn push_pieces<A: Allocator, W: Sink>(
    packets: &mut PacketOutput<A>,
    to: &mut W,
    pid: u16,
    counter: u8,
    access: bool,
    header: &[u8],
    bytes: &[u8],
) -> Result<u8, OutputFault>
    requires pid { pid < 8192 }
    requires counter { counter < 16 }
    requires lower { 0 < length header.now }
    requires upper { length header.now ≤ 45 }
    ensures ok { (start : Option (List ℕ)) (all : List ℕ) (number : ℕ) →
        IsOutput start (W.contents to.old) packets.old all → counter ≡ number % 16 →
        IfOk result (λ next. (next ≡ (number + piece_count (field_size access + length (header.now ++ bytes.now))) % 16)
        × IsOutput start (W.contents to.new) packets.new
        (all ++ formatted_all packets.old.hex (payload_packets pid (start_by true access) number
        (unit_pieces access (header.now ++ bytes.now))))) }
    ensures err { (start : Option (List ℕ)) (all : List ℕ) (number : ℕ) →
        IsOutput start (W.contents to.old) packets.old all → counter ≡ number % 16 →
        IfErr result (λ fault. Took start (W.contents to.new) fault.sent
        (all ++ formatted_all packets.old.hex (payload_packets pid (start_by true access) number
        (unit_pieces access (header.now ++ bytes.now))))) }
    ensures next { IfOk result (λ next. next < 16) }
    ensures hex { packets.new.hex ≡ packets.old.hex }
    ensures clean { OnOk result (W.fault_count to.new ≡ W.fault_count to.old) }
    ensures fault { OnErr result (Failed (W.fault_count to.old) (W.fault_count to.new)) }
{
    let mut counter = counter;
    let mut sent = 0;
    'pieces: loop {
        let more = write_piece(packets.room(), pid, counter, access, header, bytes, sent);
        match packets.push(to) {
            Ok(()) => {}
            Err(fault) => return Err(fault),
        }
        counter = next_counter(counter);
        if !more {
            return Ok(counter);
        }
        sent += MAX_PAYLOAD;
    }
}
