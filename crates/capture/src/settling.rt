//! The parts that bytes settle.
ghost use Rattle.std.specs.Prelude.{◌≡◌, ◌≤◌, ◌<◌, ◌+◌, ◌-◌, ◌%◌, ◌*◌, ◌++◌, ◌∷◌, ℕ, List, [], Bool, IfOk, OnOk, Some, None, if◌then◌else◌, true, false, drop, length, map, slice_range, take};
ghost use Rattle.ts_packet.specs.PidList.{cut_packets};
ghost use Rattle.packet_sync.specs.OtherPackets.{other_packets, size_of};
ghost use Rattle.capture.specs.Captures as spec;
ghost use Rattle.capture.specs.Captures.{IsPacket, IsStamped, Part};
ghost use Rattle.capture.specs.Reading as reading;

use crate::part_taker::PartTaker;
use crate::place::Place;
use crate::settled::{Front, Settled};
use packet_sync::{
    OtherPackets, REACH, Slip, Stretch, bytes_apart, bytes_before, form_of, next_stretch,
    other_packets,
};
use std::alloc::AllocError;

/// The size of a packet in bytes.
const PACKET_SIZE: usize = 188;

// Returns the number of bytes that decide which part comes next.
fn decisive(ended: bool) -> usize
    ensures { result ≡ (if ended then 188 else 1128) }
{
    if ended { PACKET_SIZE } else { REACH }
}

// Returns whether the bytes are too few to decide the next part; never once the capture has ended.
fn are_few(bytes: &[u8], ended: bool) -> bool
    ensures few { result ≡ true → (ended ≡ false) × (length bytes.now < 1128) }
    ensures long { result ≡ false → ended ≡ false → 1128 ≤ length bytes.now }
{
    if ended { false } else { bytes.len() < REACH }
}

// Takes whole packets in step.
fn take_in_step<T: PartTaker>(
    place: &mut Place,
    bytes: &[u8],
    taker: &mut T,
) -> Result<(), AllocError>
    ensures place { OnOk result (place.new ≡ spec.after_packets (length bytes.now) place.old) }
    ensures taken { (first : T) (parts : List Part) → T.has_taken first parts taker.old →
        OnOk result (T.has_taken first (parts ++ map IsPacket (cut_packets bytes.now)) taker.new) }
{
    let (packets, _) = bytes.as_chunks::<188>();
    taker.take_packets(packets)?;
    *place = place.after_packets(bytes.len())?;
    Ok(())
}

// Takes the bytes that are left out there, if there are any.
fn take_slip<T: PartTaker>(place: &mut Place, size: usize, taker: &mut T) -> Result<(), AllocError>
    ensures place { OnOk result (place.new ≡ reading.place_if size place.old) }
    ensures taken { (first : T) (parts : List Part) → T.has_taken first parts taker.old →
        OnOk result (T.has_taken first (parts ++ reading.slip_parts size place.old) taker.new) }
{
    if size == 0 {
        return Ok(());
    }
    let Place { packet, start } = *place;
    taker.take_slip(Slip {
        packet,
        start,
        size,
    })?;
    *place = place.after_slip(size)?;
    Ok(())
}

// Takes a stretch of the bytes, and returns how many bytes it has.
fn take_stretch<T: PartTaker>(
    place: &mut Place,
    bytes: &[u8],
    stretch: Stretch,
    taker: &mut T,
) -> Result<usize, AllocError>
    requires { stretch.in_step + stretch.slipped ≤ length bytes.now }
    ensures size { IfOk result (λ n. n ≡ reading.stretch_size stretch) }
    ensures place { OnOk result (place.new ≡ reading.after_stretch stretch place.old) }
    ensures taken { (first : T) (parts : List Part) → T.has_taken first parts taker.old →
        OnOk result (T.has_taken first (parts ++ reading.stretch_parts bytes.now stretch place.old) taker.new) }
{
    let size = stretch.in_step - stretch.in_step % PACKET_SIZE;
    take_in_step(place, &bytes[..size], taker)?;
    take_slip(place, stretch.slipped, taker)?;
    Ok(size + stretch.slipped)
}

// Returns four bytes as a number.
fn number_of(bytes: &[u8]) -> u32
    requires { length bytes.now ≡ 4 }
    ensures { result ≡ spec.number_of bytes.now }
{
    u32::from(bytes[0]) * 16_777_216
        + u32::from(bytes[1]) * 65_536
        + u32::from(bytes[2]) * 256
        + u32::from(bytes[3])
}

// Takes a packet of 188 bytes.
fn take_plain<T: PartTaker>(bytes: &[u8], taker: &mut T) -> Result<(), AllocError>
    requires { length bytes.now ≡ 188 }
    ensures { (first : T) (parts : List Part) → T.has_taken first parts taker.old →
        OnOk result (T.has_taken first (parts ++ IsPacket bytes.now ∷ []) taker.new) }
{
    let (packets, _) = bytes.as_chunks::<188>();
    taker.take_packets(packets)
}

// Takes a packet of 188 bytes, before which these four bytes come.
fn take_stamped<T: PartTaker>(head: u32, bytes: &[u8], taker: &mut T) -> Result<(), AllocError>
    requires { length bytes.now ≡ 188 }
    ensures { (first : T) (parts : List Part) → T.has_taken first parts taker.old →
        OnOk result (T.has_taken first (parts ++ IsStamped head (take 188 bytes.now) ∷ []) taker.new) }
{
    let Some(packet) = bytes.first_chunk::<188>() else {
        unreachable!()
    };
    taker.take_stamped(head, packet)
}

// Takes the 188 bytes of a packet of another size, with the four bytes before it, if it has any.
#[tactic(auto, unfolding(crate::specs::Captures::packet_with))]
fn take_with<T: PartTaker>(
    other: OtherPackets,
    head: u32,
    bytes: &[u8],
    taker: &mut T,
) -> Result<(), AllocError>
    requires { length bytes.now ≡ 188 }
    ensures { (first : T) (parts : List Part) → T.has_taken first parts taker.old →
        OnOk result (T.has_taken first (parts ++ spec.packet_with other head (take 188 bytes.now) ∷ []) taker.new) }
{
    match other {
        OtherPackets::Timed => take_stamped(head, bytes, taker),
        OtherPackets::Corrected => take_plain(&bytes[..188], taker),
    }
}

// Takes the packet of another size at a place of the bytes.
fn take_other<T: PartTaker>(
    other: OtherPackets,
    bytes: &[u8],
    at: usize,
    taker: &mut T,
) -> Result<(), AllocError>
    requires { at + size_of other ≤ length bytes.now }
    ensures { (first : T) (parts : List Part) → T.has_taken first parts taker.old →
        OnOk result (T.has_taken first (parts ++ spec.part_in other (drop at bytes.now) ∷ []) taker.new) }
{
    let front = at + bytes_before(other);
    take_with(
        other,
        number_of(&bytes[at..at + 4]),
        &bytes[front..front + PACKET_SIZE],
        taker,
    )
}

// Takes the parts of packets of 188 bytes that the bytes settle, and returns how many bytes these are.
fn settle_plain<T: PartTaker>(
    place: &mut Place,
    bytes: &[u8],
    ended: bool,
    taker: &mut T,
) -> Result<usize, AllocError>
    ensures within { IfOk result (λ used. used ≤ length bytes.now) }
    ensures most { IfOk result (λ used. length bytes.now < used + reading.decisive ended) }
    ensures taken { (first : T) (parts : List Part) → T.has_taken first parts taker.old →
        IfOk result (reading.SettlesFrom (λ found. T.has_taken first (parts ++ found) taker.new) None place.old
        bytes.now ended place.new) }
{
    let mut at = 0;
    while bytes.len() - at >= decisive(ended) {
        let rest = &bytes[at..];
        let stretch = next_stretch(rest, ended);
        let size = take_stretch(place, rest, stretch, taker)?;
        at += size;
    }
    Ok(at)
}

// Takes the packets of another size that the bytes settle, and returns how many bytes these are.
fn settle_other<T: PartTaker>(
    other: OtherPackets,
    bytes: &[u8],
    taker: &mut T,
) -> Result<usize, AllocError>
    ensures within { IfOk result (λ used. used ≤ length bytes.now) }
    ensures most { IfOk result (λ used. length bytes.now < used + size_of other) }
    ensures taken { (first : T) (parts : List Part) (p : Place) (ended : Bool) → T.has_taken first parts taker.old →
        IfOk result (reading.SettlesFrom (λ found. T.has_taken first (parts ++ found) taker.new)
        (Some other) p bytes.now ended p) }
{
    let size = bytes_apart(other);
    let mut at = 0;
    while bytes.len() - at >= size {
        take_other(other, bytes, at, taker)?;
        at += size;
    }
    Ok(at)
}

impl Settled {
    // Learns what the first bytes show, and has the taker take the size of packets that are not of 188 bytes.
    #[tactic(auto, unfolding(crate::specs::Captures::size_parts))]
    fn begin<T: PartTaker>(&mut self, bytes: &[u8], taker: &mut T) -> Result<Front, AllocError>
        ensures front { IfOk result (λ front. front ≡ reading.front_in bytes.now) }
        ensures settled { OnOk result (self.new ≡ reading.with_front self.old (reading.front_in bytes.now)) }
        ensures taken { (first : T) (parts : List Part) → T.has_taken first parts taker.old →
            OnOk result (T.has_taken first (parts ++ spec.size_parts (other_packets bytes.now)) taker.new) }
    {
        let other = other_packets(bytes);
        if let Some(size) = other {
            taker.take_size(size)?;
        }
        let front = Front {
            other,
            form: form_of(bytes),
        };
        self.front = Some(front);
        Ok(front)
    }

    // Takes the parts that the bytes settle if the front is known, and returns the number of these bytes.
    fn settle_known<T: PartTaker>(
        &mut self,
        front: Front,
        bytes: &[u8],
        ended: bool,
        taker: &mut T,
    ) -> Result<usize, AllocError>
        requires { self.old.front ≡ Some front }
        ensures front { self.new.front ≡ self.old.front }
        ensures within { IfOk result (λ used. used ≤ length bytes.now) }
        ensures most { IfOk result (λ used. ended ≡ false → length bytes.now < used + 1128) }
        ensures last { IfOk result (λ used. ended ≡ true → reading.IsLast self.new (drop used bytes.now)) }
        ensures taken { (first : T) (parts : List Part) → T.has_taken first parts taker.old →
            IfOk result (reading.Settles (λ found. T.has_taken first (parts ++ found) taker.new) self.old
            bytes.now ended self.new) }
    {
        match front.other {
            None => settle_plain(&mut self.place, bytes, ended, taker),
            Some(other) => settle_other(other, bytes, taker),
        }
    }

    // Settles the first bytes of a capture, which show its front.
    fn settle_first<T: PartTaker>(
        &mut self,
        bytes: &[u8],
        ended: bool,
        taker: &mut T,
    ) -> Result<usize, AllocError>
        requires first { self.old.front ≡ None }
        requires long { ended ≡ false → 1128 ≤ length bytes.now }
        ensures within { IfOk result (λ used. used ≤ length bytes.now) }
        ensures most { IfOk result (λ used. ended ≡ false → length bytes.now < used + 1128) }
        ensures last { IfOk result (λ used. ended ≡ true → reading.IsLast self.new (drop used bytes.now)) }
        ensures taken { (first : T) (parts : List Part) → T.has_taken first parts taker.old →
            IfOk result (reading.Settles (λ found. T.has_taken first (parts ++ found) taker.new) self.old
            bytes.now ended self.new) }
    {
        let front = self.begin(bytes, taker)?;
        self.settle_known(front, bytes, ended, taker)
    }

    /// Gives the taker the parts that the bytes settle, and returns how many bytes these are; `ended`: whether no more
    /// bytes follow.
    pub(crate) fn settle<T: PartTaker>(
        &mut self,
        bytes: &[u8],
        ended: bool,
        taker: &mut T,
    ) -> Result<usize, AllocError>
        ensures within { IfOk result (λ used. used ≤ length bytes.now) }
        ensures most { IfOk result (λ used. ended ≡ false → length bytes.now < used + 1128) }
        ensures last { IfOk result (λ used. ended ≡ true → reading.IsLast self.new (drop used bytes.now)) }
        ensures taken { (first : T) (parts : List Part) → T.has_taken first parts taker.old →
            IfOk result (reading.Settles (λ found. T.has_taken first (parts ++ found) taker.new) self.old
            bytes.now ended self.new) }
    {
        if are_few(bytes, ended) {
            return Ok(0);
        }
        match self.front {
            Some(front) => self.settle_known(front, bytes, ended, taker),
            None => self.settle_first(bytes, ended, taker),
        }
    }
}
