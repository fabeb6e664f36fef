//! A reader or writer that fails, for tests.
ghost use Rattle.std.specs.Prelude.{◌≡◌, ◌⊎◌, ◌<◌, min, length, IsErr, IfOk, IsNone, IfSome, ◌↔◌};
ghost use Rattle.std.specs.Io.{ReadsAtMost, WritesAtMost};
ghost use Rattle.std.specs.Io.KnownBytes.{ReadConsumes, WriteAppends};

use std::io::{self, Error, ErrorKind, Read, Write};

/// A reader or writer that gives or takes at most `bytes` bytes in at most `calls` calls. A call that wants a byte
/// beyond them fails. That a call within them fails only where the inner device does is tested.
#[derive(Drop)]
pub struct Failing<T> {
    inner: T,
    calls: u64,
    bytes: u64,
}

impl<T> Failing<T> {
    ghost use Rattle.counted_io.specs.Limits.{wrapped_of, calls_left, bytes_left};

    /// Fails after `calls` calls.
    pub fn after_calls(inner: T, calls: u64) -> Failing<T>
        ensures inner { wrapped_of result ≡ inner }
        ensures calls { calls_left result ≡ calls }
        ensures bytes { bytes_left result ≡ u64.MAX }
    {
        let bytes = u64::MAX;
        Failing {
            inner,
            calls,
            bytes,
        }
    }

    /// Fails after `bytes` bytes.
    pub fn after_bytes(inner: T, bytes: u64) -> Failing<T>
        ensures inner { wrapped_of result ≡ inner }
        ensures calls { calls_left result ≡ u64.MAX }
        ensures bytes { bytes_left result ≡ bytes }
    {
        let calls = u64::MAX;
        Failing {
            inner,
            calls,
            bytes,
        }
    }

    /// Returns the reader or writer again.
    pub fn into_inner(self) -> T
        ensures { result ≡ wrapped_of self }
    {
        self.inner
    }

    // Returns how many of the wanted bytes the next call may give or take.
    fn allowed(&self, wanted: usize) -> Option<usize>
        ensures none { IsNone result ↔ (0 < wanted × ((self.now.calls ≡ 0) ⊎ (self.now.bytes ≡ 0))) }
        ensures some { IfSome result (λ most. most ≡ min wanted self.now.bytes) }
    {
        if wanted == 0 {
            return Some(0);
        }
        if self.calls == 0 || self.bytes == 0 {
            return None;
        }
        Some((wanted as u64).min(self.bytes) as usize)
    }
}

impl<T: Read> Read for Failing<T> {
    ghost use Rattle.counted_io.specs.Limits.{wrapped_of, IsSpent, Spends};

    ghost remaining = { λ failing. T.remaining (wrapped_of failing) };

    fn read(&mut self, buf: &mut [u8]) -> io::Result<usize>
        ensures bound { ReadsAtMost result buf.new }
        ensures bytes { ReadConsumes (T.remaining (wrapped_of self.old))
            (T.remaining (wrapped_of self.new)) result buf.new }
        ensures spent { 0 < length buf.old → IsSpent self.old → IsErr result }
        ensures spends { IfOk result (Spends self.old self.new) }
    {
        let Some(most) = self.allowed(buf.len()) else {
            return Err(Error::from(ErrorKind::Other));
        };
        let n = self.inner.read(&mut buf[..most])?;
        self.calls = self.calls.saturating_sub(1);
        self.bytes -= n as u64;
        Ok(n)
    }
}

impl<T: Write> Write for Failing<T> {
    ghost use Rattle.counted_io.specs.Limits.{wrapped_of, IsSpent, Spends};

    ghost contents = { λ failing. T.contents (wrapped_of failing) };

    fn write(&mut self, buf: &[u8]) -> io::Result<usize>
        ensures bound { WritesAtMost result buf.now }
        ensures bytes { WriteAppends (T.contents (wrapped_of self.old))
            (T.contents (wrapped_of self.new)) result buf.now }
        ensures spent { 0 < length buf.now → IsSpent self.old → IsErr result }
        ensures spends { IfOk result (Spends self.old self.new) }
    {
        let Some(most) = self.allowed(buf.len()) else {
            return Err(Error::from(ErrorKind::Other));
        };
        let n = self.inner.write(&buf[..most])?;
        self.calls = self.calls.saturating_sub(1);
        self.bytes -= n as u64;
        Ok(n)
    }

    fn flush(&mut self) -> io::Result<()> {
        self.inner.flush()
    }
}
