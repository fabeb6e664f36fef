//! What the two buffers of video hold, whatever else is viewed of their stream.
ghost use Rattle.std.specs.Prelude.{◌≡◌, [], None, Option};
ghost use Rattle.tstd_rows.specs.Held.{Held, IsHeld};
ghost use Rattle.tstd_rows.specs.HeldVideo.{HoldsVideoOf, VideoSizes};
ghost use Rattle.es_events.specs.VideoFigures as spec;

use crate::video_tally::{VideoLimits, VideoTally};
use std::alloc::Global;
use tstd_rows::{Excess, StreamBuffers, VideoRates, VideoUnit};

/// The fullness of both buffers, their excesses that have not ended, and their current unit.
#[derive(Clone, Copy)]
pub struct VideoFigures {
    pub limits: VideoLimits,
    pub multiplexing_most: u128,
    pub elementary_most: u64,
    pub multiplexing: Option<Excess>,
    pub elementary: Option<Excess>,
    pub unit: Option<VideoUnit>,
}

// Returns whether buffers of these sizes can be viewed.
fn are_viewable(rx: u32, rates: &VideoRates) -> bool
    ensures { result ≡ spec.are_viewable rx rates.now }
{
    rx > 0 && rates.rbx >= 64_000 && rates.multiplexing > 0 && rates.multiplexing <= 1 << 40
}

/// Begins MB and EB before the first packet, if there are rates for them.
#[tactic(auto, unfolding(crate::specs::VideoFigures::sizes_if))]
pub fn view_video_if(buffers: &mut StreamBuffers, alloc: Global, rates: &Option<VideoRates>)
    requires { buffers.old.video ≡ None }
    ensures held { (h : Held) → IsHeld buffers.old h → IsHeld buffers.new h }
    ensures video { (h : Held) → IsHeld buffers.old h → h.parts ≡ [] →
        HoldsVideoOf buffers.new (spec.sizes_if h.rate h.rx rates.now) h }
{
    if let Some(rates) = rates {
        if are_viewable(buffers.rx, rates) {
            buffers.view_video(alloc, rates);
        }
    }
}

/// Returns the sizes of both buffers, if they are viewed.
pub fn video_limits(buffers: &StreamBuffers) -> Option<VideoLimits>
    ensures { (h : Held) (sizes : Option VideoSizes) → HoldsVideoOf buffers.now sizes h →
        result ≡ spec.limits_of sizes }
{
    match &buffers.video {
        None => None,
        Some(video) => Some(VideoLimits {
            multiplexing: video.view.watch.size,
            elementary: video.elementary.size,
        }),
    }
}

/// Returns what both buffers hold, if they are viewed.
pub fn video_figures(buffers: &StreamBuffers) -> Option<VideoFigures>
    ensures { (h : Held) (sizes : Option VideoSizes) → HoldsVideoOf buffers.now sizes h →
        result ≡ spec.figures_of sizes h }
{
    match &buffers.video {
        None => None,
        Some(video) => Some(VideoFigures {
            limits: VideoLimits {
                multiplexing: video.view.watch.size,
                elementary: video.elementary.size,
            },
            multiplexing_most: video.multiplexing_most(),
            elementary_most: video.elementary_most(),
            multiplexing: video.multiplexing_excess(),
            elementary: video.elementary_excess(),
            unit: video.unit(),
        }),
    }
}

/// Returns the counts, with the current unit as the last unit.
pub(crate) fn closed_video(figures: &VideoFigures, tally: &VideoTally) -> VideoTally
    ensures { result ≡ spec.closed_video figures.now tally.now }
{
    let mut closed = *tally;
    closed.add_unit_if(&figures.unit);
    closed
}

/// Returns whether neither buffer held more than its size, and no unit was late in the elementary stream buffer.
#[tactic(auto, unfolding(crate::specs::VideoFigures::is_video_good))]
pub fn is_video_good(figures: &Option<VideoFigures>, tally: &VideoTally) -> bool
    ensures { result ≡ spec.is_video_good figures.now tally.now }
{
    match figures {
        None => true,
        Some(figures) => {
            figures.multiplexing_most <= u128::from(figures.limits.multiplexing)
                && figures.elementary_most <= figures.limits.elementary
                && closed_video(figures, tally).late == 0
        }
    }
}
