//! A reader that reports its progress on a writer of its own.
ghost use Rattle.std.specs.Prelude.{◌≡◌, false, None, Some, IfSome};
ghost use Rattle.std.specs.Io.{ReadsAtMost};
ghost use Rattle.std.specs.Io.KnownBytes.{ReadConsumes};
ghost use Rattle.devices.specs.Devices.{writes};
ghost use Rattle.devices.specs.Watching as spec;

use crate::lines::report_bytes;
use crate::meter::Meter;
use counted_io::Sink;
use std::io::{self, Read};
use std::time::{Clock, Instant};

/// A reader that reports its progress, if asked to. Its bytes are the inner reader's bytes.
#[derive(Drop)]
pub struct Watched<R, W, C> {
    inner: R,
    to: W,
    clock: C,
    begun: Option<Instant>,
    meter: Option<Meter>,
}

// Returns the time since a moment in ms; if the clock can't be read, the time of the last text.
fn ms_since<C: Clock>(begun: Option<Instant>, clock: &C, shown_at: u64) -> u64 {
    let Some(begun) = begun else {
        return shown_at;
    };
    match begun.elapsed(clock) {
        Ok(time) => u64::try_from(time.as_millis()).unwrap_or(shown_at),
        Err(_) => shown_at,
    }
}

impl<R, W: Sink, C: Clock> Watched<R, W, C> {
    /// Reports nothing.
    pub fn silent(inner: R, to: W, clock: C) -> Watched<R, W, C>
        ensures inner { spec.inner_of result ≡ inner }
        ensures writer { spec.writer_of result ≡ to }
        ensures meter { spec.meter_of result ≡ None }
    {
        Watched {
            inner,
            to,
            clock,
            begun: None,
            meter: None,
        }
    }

    /// Reports its progress from now on, out of `size` bytes if the size is known.
    pub fn showing(inner: R, to: W, clock: C, size: Option<u64>) -> Watched<R, W, C>
        ensures inner { spec.inner_of result ≡ inner }
        ensures writer { spec.writer_of result ≡ to }
        ensures meter { spec.meter_of result ≡ Some (spec.first size) }
    {
        let begun = Instant::now(&clock).ok();
        let meter = Meter {
            taken: 0,
            size,
            shown_at: 0,
        };
        Watched {
            inner,
            to,
            clock,
            begun,
            meter: Some(meter),
        }
    }

    // Writes the text that is due after a read of `n` bytes.
    fn show(&mut self, n: usize)
        ensures inner { spec.inner_of self.new ≡ spec.inner_of self.old }
        ensures shows { spec.ShowsProgress (spec.meter_of self.old) (spec.meter_of self.new) n
            (writes W.Sink (spec.writer_of self.old) (spec.writer_of self.new)) }
    {
        let Some(meter) = self.meter else {
            return;
        };
        let ms = ms_since(self.begun, &self.clock, meter.shown_at);
        self.meter = meter.after(n, ms);
        report_bytes(&mut self.to, meter.text_after(n, ms).as_slice());
    }
}

impl<R: Read, W: Sink, C: Clock> Read for Watched<R, W, C> {
    ghost remaining = { λ watched. R.remaining (spec.inner_of watched) };

    fn read(&mut self, buf: &mut [u8]) -> io::Result<usize>
        ensures bound { ReadsAtMost result buf.new }
        ensures bytes { ReadConsumes (R.remaining (spec.inner_of self.old))
            (R.remaining (spec.inner_of self.new)) result buf.new }
        ensures shows { spec.ShowsProgress (spec.meter_of self.old) (spec.meter_of self.new) (spec.bytes_read result)
            (writes W.Sink (spec.writer_of self.old) (spec.writer_of self.new)) }
    {
        let result = self.inner.read(buf);
        match result {
            Ok(n) => self.show(n),
            Err(_) => self.show(0),
        }
        result
    }
}
