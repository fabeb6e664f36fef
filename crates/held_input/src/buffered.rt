//! A buffer in front of a reader, and a count of failures beside it.
ghost use Rattle.std.specs.Prelude.{◌≡◌, ◌<◌, length};
ghost use Rattle.std.specs.Io.{ReadsAtMost};
ghost use Rattle.std.specs.Io.Buffered.{reader_remaining};
ghost use Rattle.std.specs.Io.KnownBytes.{ReadConsumes};
ghost use Rattle.counted_io.specs.Device.{CountsFailure, CountsOne};
ghost use Rattle.held_input.specs.Holding.{reader_of, failures_of, held_of, GivesHeld};

use crate::held::HeldInput;
use counted_io::Source;
use std::alloc::{Allocator, Global};
use std::io::{self, BufRead, BufReader, Read};

/// A reader with a buffer, and the count of its failed calls. Its bytes are the buffer's bytes, and then the reader's.
#[derive(Drop)]
pub struct BufferedInput<T, A: Allocator = Global> {
    reader: BufReader<T, A>,
    faults: u64,
}

impl<T: Read, A: Allocator> BufferedInput<T, A> {
    /// Returns it with no failed call.
    pub fn new(reader: BufReader<T, A>) -> BufferedInput<T, A>
        ensures reader { reader_of result ≡ reader }
        ensures faults { failures_of result ≡ 0 }
    {
        BufferedInput { reader, faults: 0 }
    }

    // Counts one more failed call.
    fn count_failure(&mut self)
        ensures reader { reader_of self.new ≡ reader_of self.old }
        ensures counts { CountsOne (failures_of self.old) (failures_of self.new) }
    {
        self.faults = self.faults.saturating_add(1);
    }
}

impl<T: Read, A: Allocator> Read for BufferedInput<T, A> {
    ghost remaining = { λ input. reader_remaining T.remaining (reader_of input) };

    fn read(&mut self, buf: &mut [u8]) -> io::Result<usize> {
        self.reader.read(buf)
    }
}

impl<T: Read, A: Allocator> Source for BufferedInput<T, A> {
    ghost fault_count = { λ input. failures_of input };

    fn read_some(&mut self, part: &mut [u8]) -> io::Result<usize>
        ensures bound { ReadsAtMost result part.new }
        ensures bytes { ReadConsumes (reader_remaining T.remaining (reader_of self.old))
            (reader_remaining T.remaining (reader_of self.new)) result part.new }
        ensures counts { CountsFailure (failures_of self.old) (failures_of self.new) result }
        ensures held { 0 < length (held_of self.old) → GivesHeld self.old self.new result part.old part.new }
    {
        let mut held = self.reader.buffer();
        if held.is_empty() {
            let result = self.reader.read(part);
            if result.is_err() {
                self.count_failure();
            }
            return result;
        }
        match held.read(part) {
            Ok(n) => {
                self.reader.consume(n);
                Ok(n)
            }
            Err(fault) => Err(fault),
        }
    }

    fn faults(&self) -> u64 {
        self.faults
    }
}

impl<T: Read, A: Allocator> HeldInput for BufferedInput<T, A> {
    ghost held = { λ input. held_of input };

    fn held(&self) -> &[u8] {
        self.reader.buffer()
    }
}
