//! Which streams are viewed, and their buffers.
ghost use Rattle.std.specs.Prelude.{◌≡◌};
ghost use Rattle.es_buffers.specs.Buffers.{buffers_of, multiplexing_of};
ghost use Rattle.ts_watch.specs.Choices as spec;

use es_buffers::{
    Buffers, PidBuffers, buffers_of, given_buffers, joined_buffers_of, multiplexing_of,
};
use sound_frames::{FrameKind, frame_kind};
use std::marker::Model;
use stream_coding::Coding;
use tstd_rows::VideoRates;

/// Which streams are viewed, and their buffers.
#[derive(Drop)]
pub struct ViewChoice {
    /// The numbers of the programs whose streams are viewed; if empty, all programs.
    pub programs: Vec<u16>,
    /// Buffers in place of the coding's buffers.
    pub buffers: Vec<PidBuffers>,
}

impl Model for ViewChoice {
    ghost use Rattle.ts_watch.specs.Choices.{ChoiceView};

    ghost Value = { ChoiceView };

    ghost view = { λ c. record { programs = c.programs.items; buffers = c.buffers.items } };
}

// Returns whether a number is among these.
#[tactic(auto, unfolding(crate::specs::Choices::is_among))]
fn is_among(number: u16, numbers: &[u16]) -> bool
    ensures { result ≡ spec.is_among number numbers.now }
{
    numbers.iter().any(|other| *other == number)
}

// Returns the two buffers of video, as its coding says.
#[tactic(auto, unfolding(crate::specs::Choices::rates_if))]
fn rates_of(coding: Coding) -> Option<VideoRates>
    ensures { result ≡ spec.rates_if (multiplexing_of coding) (buffers_of coding).main }
{
    let elementary = u64::from(buffers_of(coding).main);
    match multiplexing_of(coding) {
        None => None,
        Some(buffer) => Some(VideoRates {
            rbx: buffer.rbx,
            multiplexing: u64::from(buffer.size),
            elementary,
        }),
    }
}

impl ViewChoice {
    /// Returns whether the streams of a program are viewed.
    pub fn takes(&self, program: u16) -> bool
        ensures { result ≡ spec.takes self.now program }
    {
        self.programs.is_empty() || is_among(program, &self.programs)
    }

    /// Returns the buffers of the stream of a PID, of this coding: of video both buffers as one.
    #[tactic(auto, unfolding(crate::specs::Choices::given_or))]
    pub fn buffers_for(&self, pid: u16, coding: Coding) -> Buffers
        ensures { result ≡ spec.buffers_for self.now pid coding }
    {
        let buffers = match given_buffers(&self.buffers, pid) {
            Some(buffers) => buffers,
            None => joined_buffers_of(coding),
        };
        Buffers {
            rx: buffers.rx.min(200_000_000),
            main: buffers.main,
        }
    }

    /// Returns the two buffers of video of the stream of a PID, of this coding: none where its buffers are given, or of
    /// another coding.
    pub fn rates_for(&self, pid: u16, coding: Coding) -> Option<VideoRates>
        ensures { result ≡ spec.rates_for self.now pid coding }
    {
        if given_buffers(&self.buffers, pid).is_some() {
            None
        } else {
            rates_of(coding)
        }
    }

    /// Returns which frames the sound of the stream of a PID has, by its entry in the program map, if its main buffer
    /// is viewed by access units: it is not where its buffers are given.
    pub fn frames_for(&self, pid: u16, stream_type: u8, descriptors: &[u8]) -> Option<FrameKind>
        ensures { result ≡ spec.frames_for self.now pid stream_type descriptors.now }
    {
        match given_buffers(&self.buffers, pid) {
            Some(_) => None,
            None => frame_kind(stream_type, descriptors),
        }
    }
}
