//! The two buffers of a program's tables.
ghost use Rattle.std.specs.Prelude.{◌≡◌, ◌+◌, ◌*◌, ◌<◌, ◌≤◌, ◌^◌, length};
ghost use Rattle.clock27.specs.Arrival.{bytes_from};
ghost use Rattle.clock27.specs.Departure.{departures};
ghost use Rattle.tstd.specs.PacketLists.{tables_from};
ghost use Rattle.tstd.specs.Measured.{IsSystemFullness};
ghost use Rattle.tstd.specs.Queues.{all_arrived};

use crate::fullness::SystemFullness;
use crate::packets::is_of_tables;
use crate::queue::Queue;

// Passes the bytes of a packet, from byte `from` of the output on, through both buffers.
fn pass_packet(transport: &mut Queue, system: &mut Queue, from: u64)
    requires transport { transport.old.step ≤ 2 ^ 33 }
    requires system { system.old.step ≤ 2 ^ 33 }
    requires last { transport.old.last ≤ from * 2 ^ 34 }
    requires left { system.old.last ≤ from * 2 ^ 35 }
    requires longest_residence { transport.old.longest_residence ≤ transport.old.last }
    requires inner { system.old.longest_residence ≤ system.old.last }
    requires end { from + 188 < 2 ^ 64 }
    ensures transport { transport.new ≡ all_arrived transport.old (bytes_from 2000000 from 188) }
    ensures system { system.new
        ≡ all_arrived system.old (departures transport.old.step transport.old.last (bytes_from 2000000 from 188)) }
    ensures last { transport.new.last ≤ (from + 188) * 2 ^ 34 }
    ensures left { system.new.last ≤ (from + 188) * 2 ^ 35 }
    ensures longest_residence { transport.new.longest_residence ≤ transport.new.last }
    ensures inner { system.new.longest_residence ≤ system.new.last }
{
    for byte in from..from + 188 {
        let left = transport.arrive(u128::from(byte) * 2_000_000);
        system.arrive(left);
    }
}

/// Returns the greatest numbers of bytes in the buffers of the tables of the program with this PMT.
pub fn measure_tables(rate: u64, pmt_pid: u16, packets: &[[u8; 188]]) -> SystemFullness
    requires low { 100000 ≤ rate }
    requires high { rate ≤ 100000000 }
    requires count { 188 * length packets.now < 2 ^ 63 }
    ensures { IsSystemFullness rate (tables_from pmt_pid 0 packets.now) result }
{
    let mut transport = Queue::new(2 * rate);
    let mut system = Queue::new(25 * rate);
    for (index, packet) in packets.iter().enumerate() {
        if !is_of_tables(pmt_pid, packet) {
            continue;
        }
        pass_packet(&mut transport, &mut system, 188 * index as u64);
    }
    SystemFullness {
        transport: transport.peak() as u64,
        system: system.peak() as u64,
    }
}
