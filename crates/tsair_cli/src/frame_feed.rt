//! Records of frames, taken as bytes arrive.

ghost use Rattle.std.specs.Prelude.{◌≡◌, ◌+◌, ◌-◌, ◌^◌, ◌++◌, ◌∷◌, [], min, true, OnOk, IfErr};
ghost use Rattle.devices.specs.Devices.{writes};
ghost use Rattle.devices.specs.Lines.{Reports, ReportsAll, WritesLine};
ghost use Rattle.unit_records.specs.OpenRecords.{IsOpen};
ghost use Rattle.tsair_cli.specs.FramePassing.{cut_line, cut_lines, ends_half};
ghost use Rattle.tsair_cli.specs.Readings.{Unframes, UnframesByte, first, reading_of, record_of};

use crate::frame::OpenFrame;
use crate::frame_fault::FrameFault;
use counted_io::Sink;
use devices::{Halt, report_line, write_bytes};
use std::alloc::{AllocError, Global};
use unit_records::{Unit, record_head};

/// Frames that are read: the bytes of the records that wait to be written, and after how many records bytes were
/// dropped.
#[derive(Drop)]
pub struct FrameFeed {
    frame: OpenFrame,
    count: u64,
    reported: bool,
    records: Vec<u8>,
    drops: Vec<u64>,
}

// Appends the record of a unit.
fn append_record(records: &mut Vec<u8>, stream: u8, unit: &Unit) -> Result<(), AllocError>
    ensures { OnOk result (records.new.items ≡ records.old.items ++ record_of (stream, unit.now)) }
{
    records.extend_from_slice(record_head(stream, unit).as_slice())?;
    records.extend_from_slice(unit.bytes.as_slice())
}

impl FrameFeed {
    /// Returns a reader before its first byte.
    pub(crate) fn new(alloc: Global) -> FrameFeed
        ensures opens { IsOpen result.frame.begun }
        ensures reading { reading_of result ≡ first }
        ensures records { result.records.items ≡ [] }
        ensures drops { result.drops.items ≡ [] }
    {
        FrameFeed {
            frame: OpenFrame::new(alloc),
            count: 0,
            reported: false,
            records: Vec::new(alloc),
            drops: Vec::new(alloc),
        }
    }

    // Passes a record on.
    fn pass_on(&mut self, stream: u8, unit: &Unit) -> Result<(), Halt>
        ensures frame { OnOk result (self.new.frame ≡ self.old.frame) }
        ensures count { OnOk result (self.new.count ≡ min (self.old.count + 1) (2 ^ 64 - 1)) }
        ensures reported { OnOk result (self.new.reported ≡ self.old.reported) }
        ensures records { OnOk result (self.new.records.items
            ≡ self.old.records.items ++ record_of (stream, unit.now)) }
        ensures drops { OnOk result (self.new.drops.items ≡ self.old.drops.items) }
        ensures memory { IfErr result (λ halt. halt ≡ Halt.Memory) }
    {
        if append_record(&mut self.records, stream, unit).is_err() {
            return Err(Halt::Memory);
        }
        self.count = self.count.saturating_add(1);
        Ok(())
    }

    // Notes that bytes are dropped.
    fn note_drop(&mut self) -> Result<(), Halt>
        ensures frame { OnOk result (self.new.frame ≡ self.old.frame) }
        ensures count { OnOk result (self.new.count ≡ self.old.count) }
        ensures reported { OnOk result (self.new.reported ≡ true) }
        ensures records { OnOk result (self.new.records.items ≡ self.old.records.items) }
        ensures drops { OnOk result (self.new.drops.items ≡ self.old.drops.items ++ self.old.count ∷ []) }
        ensures memory { IfErr result (λ halt. halt ≡ Halt.Memory) }
    {
        if self.drops.push(self.count).is_err() {
            return Err(Halt::Memory);
        }
        self.reported = true;
        Ok(())
    }

    // Takes a byte.
    fn take(&mut self, byte: u8) -> Result<(), Halt>
        requires { IsOpen self.old.frame.begun }
        ensures takes { OnOk result (UnframesByte self.old self.new byte) }
        ensures memory { IfErr result (λ halt. halt ≡ Halt.Memory) }
    {
        match self.frame.take(byte) {
            Ok(None) => Ok(()),
            Ok(Some((stream, unit))) => self.pass_on(stream, &unit),
            Err(FrameFault::Dropped) => self.note_drop(),
            Err(FrameFault::NoMemory) => Err(Halt::Memory),
        }
    }

    /// Takes the next bytes.
    pub(crate) fn take_all(&mut self, bytes: &[u8]) -> Result<(), Halt>
        requires { IsOpen self.old.frame.begun }
        ensures takes { OnOk result (Unframes self.old self.new bytes.now) }
        ensures memory { IfErr result (λ halt. halt ≡ Halt.Memory) }
    {
        for byte in bytes {
            match self.take(*byte) {
                Ok(()) => {}
                Err(halt) => return Err(halt),
            }
        }
        Ok(())
    }

    /// Writes the records that wait.
    pub(crate) fn write<W: Sink>(&self, to: &mut W) -> Result<(), Halt>
        ensures { WritesLine self.now.records.items (writes W.Sink to.old to.new) result }
    {
        write_bytes(self.records.as_slice(), to)
    }

    /// Reports where bytes were dropped.
    pub(crate) fn report<E: Sink>(&self, faults: &mut E)
        ensures { ReportsAll (writes E.Sink faults.old faults.new).before (writes E.Sink faults.old faults.new).after
            (cut_lines self.now.drops.items) }
    {
        report_drops(faults, self.drops.as_slice());
    }

    /// Discards the bytes and drops that wait.
    pub(crate) fn clear(&mut self)
        ensures frame { self.new.frame ≡ self.old.frame }
        ensures reading { reading_of self.new ≡ reading_of self.old }
        ensures records { self.new.records.items ≡ [] }
        ensures drops { self.new.drops.items ≡ [] }
    {
        self.records.clear();
        self.drops.clear();
    }

    /// Returns the number of records that were passed on.
    pub(crate) fn count(&self) -> u64
        ensures { result ≡ self.now.count }
    {
        self.count
    }

    /// Returns whether bytes were dropped.
    pub(crate) fn has_reported(&self) -> bool
        ensures { result ≡ self.now.reported }
    {
        self.reported
    }

    /// Returns whether a record has begun that is not whole.
    #[tactic(auto, unfolding(crate::specs::FramePassing::is_half))]
    pub(crate) fn ends_half(&self) -> bool
        requires { IsOpen self.now.frame.begun }
        ensures { result ≡ ends_half (reading_of self.now) }
    {
        self.frame.has_begun()
    }
}

// Reports where bytes were dropped, each time by a line.
fn report_drops<E: Sink>(faults: &mut E, drops: &[u64])
    ensures { ReportsAll (writes E.Sink faults.old faults.new).before (writes E.Sink faults.old faults.new).after
        (cut_lines drops.now) }
{
    for count in drops {
        report_drop(faults, *count);
    }
}

/// Reports that bytes are dropped after this number of records.
pub(crate) fn report_drop<E: Sink>(faults: &mut E, count: u64)
    ensures { Reports (writes E.Sink faults.old faults.new) (cut_line count) }
{
    report_line(faults, "cut", &[u128::from(count)]);
}
