//! The buffers of a stream.
ghost use Rattle.std.specs.Prelude.{◌≡◌, ◌*◌, ◌<◌, ◌≤◌, ◌^◌, length, IfOk, sum_by};
ghost use Rattle.description_parts.specs.Ranges.{IsStream, IsMultiplexingBuffer};
ghost use Rattle.pes_packet.specs.Units.{units_of};
ghost use Rattle.tstd.specs.Carried.{timed_pes_packets};
ghost use Rattle.tstd.specs.PidPackets.{packets_from};
ghost use Rattle.tstd.specs.Measured.{IsStreamFullness, IsTwoBuffers, IsVideoFullness, late_of, late_in, late_in_video};

use crate::fullness::{StreamFullness, VideoFullness};
use crate::main_buffer::MainBuffer;
use crate::payload_bytes::PayloadBytes;
use crate::units::measure_units;
use description_parts::StreamDescription;
use pes_packet::Unit;
use std::alloc::{AllocError, Allocator};
use unit_timing::multiplexing_buffer::MultiplexingBuffer;

// Returns the greatest numbers of bytes in the transport buffer and in the main buffer of a stream, and the number of
// its first unit that has not left the transport buffer in time.
fn measure_main<A: Allocator, B: Allocator>(
    alloc: A,
    rate: u64,
    base0: u64,
    number: u8,
    stream: &StreamDescription,
    units: &[(u8, Unit<B>)],
    packets: &[[u8; 188]],
) -> Result<((u64, u64), Option<u64>), AllocError>
    requires low { 100000 ≤ rate }
    requires high { rate ≤ 100000000 }
    requires stream { IsStream stream.now }
    requires count { 188 * length packets.now < 2 ^ 63 }
    requires carried { sum_by (λ p. p.size) (packets_from stream.now.pid 0 packets.now)
        ≤ sum_by (λ t. t.size) (timed_pes_packets stream.now.stream_id base0 (units_of number units.now)) }
    ensures fullness { IfOk result (λ f. IsTwoBuffers rate base0 stream.now
        (units_of number units.now) (packets_from stream.now.pid 0 packets.now) f.0.0 f.0.1) }
    ensures late { IfOk result (λ f. f.1 ≡ late_of rate base0 (length packets.now) stream.now
        (units_of number units.now) (packets_from stream.now.pid 0 packets.now)) }
{
    let mut walk = PayloadBytes::new(stream.pid, u64::from(stream.rx), rate, packets);
    let mut buffer = MainBuffer::new(alloc);
    let slots = packets.len() as u64;
    let late = measure_units(&mut walk, &mut buffer, slots, base0, number, units)?;
    let _end = walk.next();
    let transport = walk.transport.queue.peak() as u64;
    Ok(((transport, buffer.peak), late))
}

// Returns the greatest numbers of bytes in the multiplexing buffer and in the elementary stream buffer of a stream,
// and the number of its first unit that is not whole in the latter in time. Walks like `measure_main`, with one more
// buffer.
fn measure_video<A: Allocator, B: Allocator>(
    alloc: A,
    rate: u64,
    base0: u64,
    number: u8,
    stream: &StreamDescription,
    leak: MultiplexingBuffer,
    units: &[(u8, Unit<B>)],
    packets: &[[u8; 188]],
) -> Result<(VideoFullness, Option<u64>), AllocError>
    requires low { 100000 ≤ rate }
    requires high { rate ≤ 100000000 }
    requires stream { IsStream stream.now }
    requires leak { IsMultiplexingBuffer stream.now.rx leak }
    requires count { 188 * length packets.now < 2 ^ 63 }
    requires carried { sum_by (λ p. p.size) (packets_from stream.now.pid 0 packets.now)
        ≤ sum_by (λ t. t.size) (timed_pes_packets stream.now.stream_id base0 (units_of number units.now)) }
    ensures fullness { IfOk result (λ f. IsVideoFullness rate base0 stream.now
        (units_of number units.now) (packets_from stream.now.pid 0 packets.now) leak f.0) }
    ensures late { IfOk result (λ f. f.1 ≡ late_in_video rate base0 (length packets.now) stream.now
        (units_of number units.now) (packets_from stream.now.pid 0 packets.now) leak) }
{
    let mut walk = PayloadBytes::leaking(
        stream.pid,
        u64::from(stream.rx),
        u64::from(leak.rbx),
        rate,
        packets,
    );
    let mut buffer = MainBuffer::new(alloc);
    let slots = packets.len() as u64;
    let late = measure_units(&mut walk, &mut buffer, slots, base0, number, units)?;
    let _end = walk.next();
    let multiplexing = walk.peak() as u64;
    let elementary = buffer.peak;
    let fullness = VideoFullness {
        multiplexing,
        elementary,
    };
    Ok((fullness, late))
}

/// Returns the greatest numbers of bytes in the buffers of a stream, and the number of its first late unit, for packets
/// that carry its units.
#[tactic(auto, unfolding(crate::specs::Measured::HasVideoFullness, crate::specs::Measured::late_in))]
pub fn measure_stream<A: Allocator + Clone, B: Allocator>(
    alloc: &A,
    rate: u64,
    base0: u64,
    number: u8,
    stream: &StreamDescription,
    units: &[(u8, Unit<B>)],
    packets: &[[u8; 188]],
) -> Result<(StreamFullness, Option<u64>), AllocError>
    requires low { 100000 ≤ rate }
    requires high { rate ≤ 100000000 }
    requires stream { IsStream stream.now }
    requires count { 188 * length packets.now < 2 ^ 63 }
    requires carried { sum_by (λ p. p.size) (packets_from stream.now.pid 0 packets.now)
        ≤ sum_by (λ t. t.size) (timed_pes_packets stream.now.stream_id base0 (units_of number units.now)) }
    ensures fullness { IfOk result (λ f. IsStreamFullness rate base0 stream.now
        (units_of number units.now) (packets_from stream.now.pid 0 packets.now) f.0) }
    ensures late { IfOk result (λ f. f.1 ≡ late_in rate base0 (length packets.now) stream.now
        (units_of number units.now) (packets_from stream.now.pid 0 packets.now) stream.now.multiplexing) }
{
    let ((transport, main), late) = measure_main(
        alloc.clone()?,
        rate,
        base0,
        number,
        stream,
        units,
        packets,
    )?;
    let Some(leak) = stream.multiplexing else {
        let video = None;
        return Ok((
            StreamFullness {
                transport,
                main,
                video,
            },
            late,
        ));
    };
    let (video, late) = measure_video(
        alloc.clone()?,
        rate,
        base0,
        number,
        stream,
        leak,
        units,
        packets,
    )?;
    let video = Some(video);
    Ok((
        StreamFullness {
            transport,
            main,
            video,
        },
        late,
    ))
}
