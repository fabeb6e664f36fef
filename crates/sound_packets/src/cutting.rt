//! The PES packets of sound in findings, cut.
ghost use Rattle.std.specs.Prelude.{◌≡◌, ◌++◌, IfOk, OnOk, map, flat_map};
ghost use Rattle.pid_findings.specs.Shown.{finding_view, what_view};
ghost use Rattle.sound_packets.specs.CutPackets as spec;

use crate::known_frames::{KnownFrames, SoundFrames, SoundPid, known_frames};
use crate::pieces::CutPacket;
use pes_packet::{PesHeader, Stamps};
use pid_findings::{Finding, What};
use sound_frames::{UnitFrames, unit_frames};
use std::alloc::{AllocError, Global};
use std::collections::VecDeque;

// Returns whether there is a PTS.
fn is_stamped(stamps: Stamps) -> bool
    ensures { result ≡ spec.is_stamped stamps }
{
    match stamps {
        Stamps::Absent => false,
        _ => true,
    }
}

// Returns how long a frame of a unit sounds: by the unit, or by the stream if no frame of the unit says it.
#[tactic(auto, unfolding(crate::specs::CutPackets::frame_time))]
fn frame_time(sound: SoundFrames, frames: UnitFrames) -> u64
    ensures { result ≡ spec.frame_time sound frames }
{
    if frames.time == 0 {
        sound.time
    } else {
        frames.time
    }
}

// Returns the time of a frame of a unit that is cut: a unit of more than `most` frames.
#[tactic(auto, unfolding(crate::specs::CutPackets::time_if))]
fn time_if(most: usize, sound: SoundFrames, frames: Option<UnitFrames>) -> Option<u64>
    ensures { result ≡ spec.time_if most sound frames }
{
    let frames = frames?;
    let time = frame_time(sound, frames);
    if most < frames.count && 0 < time {
        Some(time)
    } else {
        None
    }
}

// Returns the time of a frame of a PES packet that is cut.
#[tactic(auto, unfolding(crate::specs::CutPackets::cut_time))]
fn cut_time(
    most: usize,
    sound: SoundFrames,
    header: PesHeader,
    unended: bool,
    body: &[u8],
) -> Option<u64>
    ensures { result ≡ spec.cut_time most sound header unended body.now }
{
    if unended || !is_stamped(header.stamps) {
        return None;
    }
    time_if(most, sound, unit_frames(sound.kind, body))
}

// Returns the PES packet that a finding is, if it is cut.
#[tactic(auto, unfolding(crate::specs::CutPackets::packet_by))]
fn packet_by(most: usize, sound: SoundFrames, finding: &Finding<'_>) -> Option<CutPacket>
    ensures { result ≡ spec.packet_by most sound (finding_view finding.now) (what_view finding.now.what) }
{
    match &finding.what {
        What::Pes {
            header,
            unended,
            body,
        } => {
            let time = cut_time(most, sound, *header, *unended, body.bytes())?;
            Some(CutPacket {
                packet: finding.packet,
                pid: finding.pid,
                begun: finding.begun,
                header: *header,
                kind: sound.kind,
                time,
            })
        }
        _ => None,
    }
}

// Returns the bytes of a PES packet.
#[tactic(auto, unfolding(crate::specs::CutPackets::body_of))]
fn body_of<'f>(what: &'f What<'_>) -> &'f [u8]
    ensures { result.now ≡ spec.body_of (what_view what.now) }
{
    match what {
        What::Pes { body, .. } => body.bytes(),
        _ => &[],
    }
}

// Returns the PES packet that a finding is, if it is cut.
#[tactic(auto, unfolding(crate::specs::CutPackets::cut_packet))]
fn cut_packet(known: &KnownFrames, most: usize, finding: &Finding<'_>) -> Option<CutPacket>
    ensures { result ≡ spec.cut_packet most known.now (finding_view finding.now) }
{
    packet_by(most, known.on(finding.pid)?, finding)
}

// Appends a finding, or the packets into which it is cut.
#[tactic(auto, unfolding(crate::specs::CutPackets::cut_by))]
fn push_cut(
    alloc: Global,
    known: &KnownFrames,
    most: usize,
    finding: Finding<'static>,
    cut: &mut Vec<Finding<'static>>,
) -> Result<(), AllocError>
    ensures { OnOk result (map finding_view cut.new.items
        ≡ map finding_view cut.old.items ++ spec.cut most known.now (finding_view finding.entry)) }
{
    match cut_packet(known, most, &finding) {
        None => {
            cut.push(finding)?;
            Ok(())
        }
        Some(packet) => packet.push_pieces(alloc, most, body_of(&finding.what), cut),
    }
}

// Returns findings with the packets into which they are cut.
fn cut_all(
    alloc: Global,
    known: &KnownFrames,
    most: usize,
    findings: Vec<Finding<'static>>,
) -> Result<Vec<Finding<'static>>, AllocError>
    ensures { IfOk result (λ cut. map finding_view cut.items
        ≡ flat_map (spec.cut most known.now) (map finding_view findings.entry.items)) }
{
    let mut cut = Vec::with_capacity(alloc, findings.len())?;
    let mut left = VecDeque::from(findings);
    while let Some(finding) = left.pop_front() {
        push_cut(alloc, known, most, finding, &mut cut)?;
    }
    Ok(cut)
}

/// Returns the findings of a stream, in which each PES packet of these streams of sound has at most `most` frames: a
/// packet with a PTS that is whole frames by their headers is cut into as few pieces as it can, as even as can be. Each
/// new packet has the PTS of its first frame, and the other fields of the packet. All other findings stay as they are.
pub fn cut_packets(
    alloc: Global,
    most: u8,
    sounds: &[SoundPid],
    findings: Vec<Finding<'static>>,
) -> Result<Vec<Finding<'static>>, AllocError>
    ensures { IfOk result (λ cut. map finding_view cut.items
        ≡ spec.cut_packets most sounds.now (map finding_view findings.entry.items)) }
{
    let known = known_frames(alloc, sounds, &findings)?;
    cut_all(alloc, &known, usize::from(most), findings)
}
