//! A count of failures beside any reader or writer.
//!
//! Proved of any device: a call of `read_some` or `write_some` that answers an `Err` counts one failure more, any other
//! none, and known bytes are the inner device's bytes. That each call makes one call of the inner device and returns
//! its answer is tested (`tests/wire/devices` of the crate `tests`): no contract over any device can say it.
ghost use Rattle.std.specs.Prelude.{◌≡◌};
ghost use Rattle.counted_io.specs.Device.{CountsOne};
ghost use Rattle.counted_io.specs.Counters.{inner_of, failures_of};

use crate::reading::Source;
use crate::writing::Sink;
use std::io::{self, Error, ErrorKind, Read, Write};

/// A reader or writer with the count of its failed calls. Its bytes are the inner device's bytes.
#[derive(Drop)]
pub struct Counted<T> {
    inner: T,
    faults: u64,
}

impl<T> Counted<T> {
    /// Returns it with no failed call.
    pub fn new(inner: T) -> Counted<T>
        ensures inner { inner_of result ≡ inner }
        ensures faults { failures_of result ≡ 0 }
    {
        Counted { inner, faults: 0 }
    }

    /// Returns the reader or writer again.
    pub fn into_inner(self) -> T
        ensures { result ≡ inner_of self }
    {
        self.inner
    }

    // Counts one more failed call.
    fn count_failure(&mut self)
        ensures inner { inner_of self.new ≡ inner_of self.old }
        ensures counts { CountsOne (failures_of self.old) (failures_of self.new) }
    {
        self.faults = self.faults.saturating_add(1);
    }

    fn failures(&self) -> u64
        ensures { result ≡ failures_of self.now }
    {
        let Counted { faults, .. } = self;
        *faults
    }
}

impl<T: Read> Read for Counted<T> {
    ghost remaining = { λ counted. T.remaining (inner_of counted) };

    fn read(&mut self, buf: &mut [u8]) -> io::Result<usize> {
        self.inner.read(buf)
    }
}

impl<T: Read> Source for Counted<T> {
    ghost fault_count = { λ counted. failures_of counted };

    fn read_some(&mut self, part: &mut [u8]) -> io::Result<usize> {
        let result = self.inner.read(part);
        if result.is_err() {
            self.count_failure();
        }
        result
    }

    fn faults(&self) -> u64 {
        self.failures()
    }
}

impl<T: Write> Write for Counted<T> {
    ghost contents = { λ counted. T.contents (inner_of counted) };

    fn write(&mut self, buf: &[u8]) -> io::Result<usize> {
        self.inner.write(buf)
    }

    fn flush(&mut self) -> io::Result<()> {
        self.inner.flush()
    }
}

impl<T: Write> Sink for Counted<T> {
    ghost fault_count = { λ counted. failures_of counted };

    fn write_some(&mut self, part: &[u8]) -> io::Result<usize> {
        let result = match self.inner.write(part) {
            Ok(0) if !part.is_empty() => Err(Error::from(ErrorKind::WriteZero)),
            result => result,
        };
        if result.is_err() {
            self.count_failure();
        }
        result
    }

    fn faults(&self) -> u64 {
        self.failures()
    }
}
