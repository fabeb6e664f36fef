//! Devices whose calls are made again while they would have to wait.
ghost use Rattle.std.specs.Prelude.{None};

use std::io::{self, ErrorKind, Read, Write};
use std::thread::sleep;
use std::time::Duration;

/// A device that another process may have set not to wait, as a parent does that shares its pipe. Each call is made again,
/// a millisecond later, until it no longer answers that it would have to wait.
#[derive(Drop)]
pub(crate) struct Patient<'a, D> {
    inner: D,
    rt: &'a HostRuntime,
}

impl<'a, D> Patient<'a, D> {
    pub(crate) fn new(inner: D, rt: &'a HostRuntime) -> Patient<'a, D> {
        Patient { inner, rt }
    }
}

/// Waits a millisecond if a call would have to wait; returns whether it would.
fn has_waited(rt: &HostRuntime, answer: &io::Result<usize>) -> bool {
    match answer {
        Ok(_) => false,
        Err(error) => match error.kind() {
            ErrorKind::WouldBlock => {
                sleep(rt, Duration::from_millis(1));
                true
            }
            _ => false,
        },
    }
}

impl<D: Read> Read for Patient<'_, D> {
    ghost remaining = { λ _. None };

    fn read(&mut self, buf: &mut [u8]) -> io::Result<usize> {
        for _ in 0..u64::MAX {
            let answer = self.inner.read(buf);
            if !has_waited(self.rt, &answer) {
                return answer;
            }
        }
        self.inner.read(buf)
    }
}

impl<D: Write> Write for Patient<'_, D> {
    ghost contents = { λ _. None };

    fn write(&mut self, buf: &[u8]) -> io::Result<usize> {
        for _ in 0..u64::MAX {
            let answer = self.inner.write(buf);
            if !has_waited(self.rt, &answer) {
                return answer;
            }
        }
        self.inner.write(buf)
    }

    fn flush(&mut self) -> io::Result<()> {
        self.inner.flush()
    }
}
