//! The cells of the row of each event of the input.
ghost use Rattle.std.specs.Prelude.{◌≡◌};
ghost use Rattle.view_rows.specs.InputCells as spec;

use crate::cells::{Cell, CellUnit, CellWord, short};
use events::{FaultKind, OtherRate, RestBytes, SlippedBytes};
use packet_sync::FileForm;

/// Returns the cells of bytes that are in no packet.
pub(crate) fn slip_cells(e: &SlippedBytes) -> [Cell; 6]
    ensures { result ≡ spec.slip_cells e.now }
{
    [
        Cell::Word(CellWord::Fault(FaultKind::Slip)),
        Cell::Word(CellWord::Nothing),
        Cell::Number(e.packet, CellUnit::Same),
        Cell::Number(e.bytes, CellUnit::Same),
        Cell::Word(CellWord::Nothing),
        Cell::Word(CellWord::Bytes),
    ]
}

/// Returns the cells of bytes after the last whole packet.
pub(crate) fn rest_cells(e: &RestBytes) -> [Cell; 6]
    ensures { result ≡ spec.rest_cells e.now }
{
    [
        Cell::Word(CellWord::Fault(FaultKind::Rest)),
        Cell::Word(CellWord::Nothing),
        Cell::Number(e.packet, CellUnit::Same),
        Cell::Number(e.bytes, CellUnit::Same),
        Cell::Word(CellWord::Nothing),
        Cell::Word(CellWord::Bytes),
    ]
}

/// Returns the cells of packets that are not of 188 bytes.
pub(crate) fn packet_size_cells(size: u64) -> [Cell; 2]
    ensures { result ≡ spec.packet_size_cells size }
{
    [
        Cell::Number(size, CellUnit::Same),
        Cell::Word(CellWord::PacketSize),
    ]
}

/// Returns the cells of an input without a byte.
pub(crate) fn empty_cells() -> [Cell; 6]
    ensures { result ≡ spec.empty_cells }
{
    [
        Cell::Word(CellWord::Fault(FaultKind::Empty)),
        Cell::Word(CellWord::Nothing),
        Cell::Word(CellWord::Nothing),
        Cell::Word(CellWord::Nothing),
        Cell::Word(CellWord::Nothing),
        Cell::Word(CellWord::Nothing),
    ]
}

/// Returns the cells of an input that is no transport stream.
pub(crate) fn no_stream_cells(form: FileForm) -> [Cell; 6]
    ensures { result ≡ spec.no_stream_cells form }
{
    [
        Cell::Word(CellWord::Fault(FaultKind::NoStream)),
        Cell::Word(CellWord::Nothing),
        Cell::Word(CellWord::Nothing),
        Cell::Word(CellWord::Nothing),
        Cell::Word(CellWord::Nothing),
        Cell::Form(form),
    ]
}

/// Returns the cells of a rate that the clock references contradict.
pub(crate) fn other_rate_cells(e: &OtherRate) -> [Cell; 6]
    ensures { result ≡ spec.other_rate_cells e.now }
{
    [
        Cell::Word(CellWord::Fault(FaultKind::OtherRate)),
        Cell::Number(u64::from(e.pid), CellUnit::Same),
        Cell::Word(CellWord::Nothing),
        Cell::Number(short(e.references), CellUnit::Same),
        Cell::Number(e.given, CellUnit::Same),
        Cell::Word(CellWord::BitRate),
    ]
}

/// Returns the cells of packets without the arrival time stamps that are asked for.
pub(crate) fn no_stamps_cells() -> [Cell; 6]
    ensures { result ≡ spec.no_stamps_cells }
{
    [
        Cell::Word(CellWord::Fault(FaultKind::NoStamps)),
        Cell::Word(CellWord::Nothing),
        Cell::Word(CellWord::Nothing),
        Cell::Word(CellWord::Nothing),
        Cell::Word(CellWord::Nothing),
        Cell::Word(CellWord::Nothing),
    ]
}
