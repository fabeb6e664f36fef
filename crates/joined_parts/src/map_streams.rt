//! The streams of all maps of a program.

ghost use Rattle.std.specs.Prelude.{◌≡◌, [], option_map};
ghost use Rattle.psi_tables.specs.ProgramMap.{stream_loop_of, stream_view, streams_of};
ghost use Rattle.joined_parts.specs.MapStreams as spec;

use psi_tables::{Stream, StreamLoop, Streams};
use std::marker::Model;

/// The known maps of a program.
#[derive(Drop)]
pub(crate) struct KnownMap {
    /// The PID of the clock references that the last map names.
    pub pcr_pid: u16,
    /// The streams of the last map, then the streams of earlier maps on further PIDs.
    pub streams: StreamLoop,
}

// A contract sees the streams as a list.
impl Model for KnownMap {
    ghost use Rattle.psi_tables.specs.ProgramMap.{stream_loop_of};
    ghost use Rattle.joined_parts.specs.MapStreams.{KnownMapView};

    ghost Value = { KnownMapView };

    ghost view = { λ m. record { pcr_pid = m.pcr_pid; streams = stream_loop_of m.streams } };
}

/// Returns whether a stream of these has a PID.
#[tactic(auto, unfolding(crate::specs::MapStreams::is_named))]
pub(crate) fn is_named(streams: Streams<'_>, pid: u16) -> bool
    ensures { result ≡ spec.is_named (streams_of streams.entry) pid }
{
    for stream in streams {
        if stream.elementary_pid == pid {
            return true;
        }
    }
    false
}

/// Adds a stream, if there is room.
#[tactic(auto, unfolding(crate::specs::MapStreams::with_stream, crate::specs::MapStreams::has_room))]
pub(crate) fn add_stream(streams: &mut StreamLoop, stream: Stream<'_>)
    ensures { stream_loop_of streams.new ≡ spec.with_stream (stream_loop_of streams.old) (stream_view stream.entry) }
{
    if stream.elementary_pid < 8192 {
        match streams.push(&stream) {
            Ok(()) => {}
            Err(_) => {}
        }
    }
}

// Adds streams, while there is room.
#[tactic(auto, unfolding(crate::specs::MapStreams::with_streams))]
fn add_streams(streams: &mut StreamLoop, more: Streams<'_>)
    ensures { stream_loop_of streams.new ≡ spec.with_streams (stream_loop_of streams.old) (streams_of more.entry) }
{
    for stream in more {
        add_stream(streams, stream);
    }
}

// Adds a stream whose PID none of these has.
#[tactic(auto, unfolding(crate::specs::MapStreams::with_other))]
fn add_other(streams: &mut StreamLoop, named: Streams<'_>, stream: Stream<'_>)
    ensures { stream_loop_of streams.new
        ≡ spec.with_other (streams_of named.entry) (stream_loop_of streams.old) (stream_view stream.entry) }
{
    if !is_named(named, stream.elementary_pid) {
        add_stream(streams, stream);
    }
}

// Adds streams whose PIDs none of these has.
#[tactic(auto, unfolding(crate::specs::MapStreams::with_others))]
fn add_others(streams: &mut StreamLoop, named: Streams<'_>, more: Streams<'_>)
    ensures { stream_loop_of streams.new
        ≡ spec.with_others (streams_of named.entry) (stream_loop_of streams.old) (streams_of more.entry) }
{
    for stream in more {
        add_other(streams, named, stream);
    }
}

/// Returns the streams of a map, then further streams whose PIDs it does not name.
pub(crate) fn all_streams(named: Streams<'_>, others: Streams<'_>) -> StreamLoop
    ensures { stream_loop_of result ≡ spec.all_streams (streams_of named.entry) (streams_of others.entry) }
{
    let mut streams = StreamLoop::new();
    add_streams(&mut streams, named);
    add_others(&mut streams, named, others);
    streams
}
