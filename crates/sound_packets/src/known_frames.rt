//! The frames of streams of sound: their kind, and how long one sounds.
ghost use Rattle.std.specs.Prelude.{◌≡◌, IfOk, OnOk, map};
ghost use Rattle.pid_findings.specs.Shown.{finding_view, what_view};
ghost use Rattle.sound_packets.specs.KnownFrames as spec;

use pid_findings::{Finding, What};
use pid_map::PidMap;
use sound_frames::{FrameKind, UnitFrames, unit_frames};
use std::alloc::{AllocError, Global};
use std::marker::Model;

/// A stream of sound: its PID, and the kind of its frames.
#[derive(Clone, Copy)]
pub struct SoundPid {
    pub pid: u16,
    pub kind: FrameKind,
}

/// The frames of a stream of sound.
#[derive(Clone, Copy)]
pub(crate) struct SoundFrames {
    pub kind: FrameKind,
    /// How long a frame sounds, in units of 90 kHz; 0 if it is not known.
    pub time: u64,
}

/// The frames of each stream of sound, by its PID.
#[derive(Drop)]
pub(crate) struct KnownFrames {
    pids: PidMap<SoundFrames, Global>,
}

// A contract sees its entries.
impl Model for KnownFrames {
    ghost use Rattle.sound_packets.specs.KnownFrames.{KnownFrames};

    ghost Value = { KnownFrames };

    ghost view = { λ k. k.pids.entries };
}

// Returns the longest time of a frame of a unit that is whole frames.
#[tactic(auto, unfolding(crate::specs::KnownFrames::time_of))]
fn time_of(frames: Option<UnitFrames>) -> u64
    ensures { result ≡ spec.time_of frames }
{
    match frames {
        None => 0,
        Some(frames) => frames.time,
    }
}

// Returns the longest time of a frame of a PES packet.
#[tactic(auto, unfolding(crate::specs::KnownFrames::time_in))]
fn time_in(kind: FrameKind, what: &What<'_>) -> u64
    ensures { result ≡ spec.time_in kind (what_view what.now) }
{
    match what {
        What::Pes { body, .. } => time_of(unit_frames(kind, body.bytes())),
        _ => 0,
    }
}

impl KnownFrames {
    // Returns the frames of the stream on a PID.
    fn of(&self, pid: u16) -> Option<SoundFrames>
        ensures { result ≡ spec.of_pid self.now pid }
    {
        self.pids.entries().get(&pid).copied()
    }

    /// Returns the frames of the stream that a finding is of.
    #[tactic(auto, unfolding(crate::specs::KnownFrames::frames_on))]
    pub(crate) fn on(&self, pid: Option<u16>) -> Option<SoundFrames>
        ensures { result ≡ spec.frames_on self.now pid }
    {
        match pid {
            None => None,
            Some(pid) => self.of(pid),
        }
    }

    // Adds a stream, if no stream before it has its PID.
    #[tactic(auto, unfolding(crate::specs::KnownFrames::with_stream))]
    fn add(&mut self, sound: SoundPid) -> Result<(), AllocError>
        ensures { OnOk result (self.new ≡ spec.with_stream self.old sound) }
    {
        if self.of(sound.pid).is_some() {
            return Ok(());
        }
        let frames = SoundFrames {
            kind: sound.kind,
            time: 0,
        };
        self.pids.insert(sound.pid, frames)?;
        Ok(())
    }

    // Adds these streams.
    #[tactic(auto, unfolding(crate::specs::KnownFrames::with_streams))]
    fn add_all(&mut self, sounds: &[SoundPid]) -> Result<(), AllocError>
        ensures { OnOk result (self.new ≡ spec.with_streams self.old sounds.now) }
    {
        let mut left = sounds;
        'sounds: while let Some((sound, later)) = left.split_first() {
            self.add(*sound)?;
            left = later;
        }
        Ok(())
    }

    // Takes the time of a frame from a finding of a stream, if it is not known.
    #[tactic(auto, unfolding(crate::specs::KnownFrames::with_time))]
    fn take_time(
        &mut self,
        pid: u16,
        frames: SoundFrames,
        what: &What<'_>,
    ) -> Result<(), AllocError>
        ensures { OnOk result (self.new ≡ spec.with_time self.old pid frames (what_view what.now)) }
    {
        if frames.time != 0 {
            return Ok(());
        }
        let timed = SoundFrames {
            kind: frames.kind,
            time: time_in(frames.kind, what),
        };
        self.pids.insert(pid, timed)?;
        Ok(())
    }

    // Takes the same from a finding of a PID.
    #[tactic(auto, unfolding(crate::specs::KnownFrames::with_found))]
    fn take_found(&mut self, pid: u16, what: &What<'_>) -> Result<(), AllocError>
        ensures { OnOk result (self.new ≡ spec.with_found self.old pid (spec.of_pid self.old pid) (what_view what.now)) }
    {
        match self.of(pid) {
            None => Ok(()),
            Some(frames) => self.take_time(pid, frames, what),
        }
    }

    // Takes the same from any finding.
    #[tactic(auto, unfolding(crate::specs::KnownFrames::with_pid))]
    fn take(&mut self, finding: &Finding<'_>) -> Result<(), AllocError>
        ensures { OnOk result (self.new ≡ spec.with_pid self.old finding.now.pid (what_view finding.now.what)) }
    {
        match finding.pid {
            None => Ok(()),
            Some(pid) => self.take_found(pid, &finding.what),
        }
    }

    // Takes the same from all findings.
    fn take_all(&mut self, findings: &[Finding<'_>]) -> Result<(), AllocError>
        ensures { OnOk result (self.new ≡ spec.with_findings self.old (map finding_view findings.now)) }
    {
        for finding in findings {
            self.take(finding)?;
        }
        Ok(())
    }
}

/// Returns the frames of streams of sound in findings.
pub(crate) fn known_frames(
    alloc: Global,
    sounds: &[SoundPid],
    findings: &[Finding<'_>],
) -> Result<KnownFrames, AllocError>
    ensures { IfOk result (λ known. known ≡ spec.known_frames sounds.now (map finding_view findings.now)) }
{
    let mut known = KnownFrames {
        pids: PidMap::new(alloc),
    };
    known.add_all(sounds)?;
    known.take_all(findings)?;
    Ok(known)
}
