//! Counts of MB and EB, the two buffers of video.
ghost use Rattle.std.specs.Prelude.{◌≡◌};
ghost use Rattle.es_events.specs.Traces.{traces_after};
ghost use Rattle.tstd_rows.specs.HeldVideo.{video_view};
ghost use Rattle.es_events.specs.VideoTallies as spec;

use crate::{TraceRow, Traces};
use tstd_rows::{VideoEntered, VideoUnit};

/// The sizes of both buffers.
#[derive(Clone, Copy)]
pub struct VideoLimits {
    pub multiplexing: u64,
    pub elementary: u64,
}

/// Counts of the multiplexing buffer and of the elementary stream buffer of a stream: excesses of both that have ended,
/// and units that were late in the elementary stream buffer. Numbers stop at 2^64 - 1.
#[derive(Clone, Copy)]
pub struct VideoTally {
    pub multiplexing: u64,
    pub elementary: u64,
    pub late: u64,
    /// What both held near the greatest excess of each: the multiplexing buffer is the first of each row.
    pub traces: Traces,
}

impl VideoTally {
    /// Returns the counts of nothing.
    pub fn new() -> VideoTally
        ensures { result ≡ spec.none_of_video }
    {
        VideoTally {
            multiplexing: 0,
            elementary: 0,
            late: 0,
            traces: Traces::new(),
        }
    }

    /// Counts the unit that has ended, if any: it may have been late.
    #[tactic(auto, unfolding(crate::specs::VideoTallies::with_late_if))]
    pub fn add_unit_if(&mut self, unit: &Option<VideoUnit>)
        ensures { self.new ≡ spec.with_late_if self.old unit.now }
    {
        match unit {
            None => {}
            Some(unit) => {
                let late = u64::from(unit.cause().is_some());
                self.late = self.late.saturating_add(late);
            }
        }
    }

    // Counts excesses that have ended.
    fn add_excesses(&mut self, multiplexing: u64, elementary: u64)
        ensures { self.new ≡ spec.with_video_excesses self.old multiplexing elementary }
    {
        self.multiplexing = self.multiplexing.saturating_add(multiplexing);
        self.elementary = self.elementary.saturating_add(elementary);
    }

    /// Takes the row of a packet; the buffers have these sizes.
    #[inline(always)]
    pub fn add_row(&mut self, limits: &VideoLimits, row: TraceRow)
        ensures { self.new ≡ record self.old { traces = traces_after self.old.traces row limits.now.multiplexing limits.now.elementary } }
    {
        self.traces.add(row, limits.multiplexing, limits.elementary);
    }

    /// Counts a packet that has entered the buffers.
    pub fn add_packet(&mut self, entered: &VideoEntered)
        ensures { self.new ≡ spec.with_video self.old (video_view entered.now) entered.now.unit }
    {
        let (multiplexing, elementary) = excess_counts(entered);
        self.add_excesses(multiplexing, elementary);
        self.add_unit_if(&entered.unit);
    }
}

// Returns the number of excesses that ended.
fn excess_counts(entered: &VideoEntered) -> (u64, u64)
    ensures { result ≡ spec.video_excess_counts (video_view entered.now) }
{
    let multiplexing = u64::from(entered.waiting.is_some()) + u64::from(entered.free.is_some());
    (multiplexing, u64::from(entered.elementary.is_some()))
}
