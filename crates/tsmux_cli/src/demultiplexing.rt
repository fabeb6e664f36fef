//! `demux`: a line for each finding in a transport stream, which is read piece by piece.
ghost use Rattle.std.specs.Prelude.{◌≡◌, ◌<◌, ◌++◌, ℕ, true, IfOk, IfErr, OnOk, Some, Err, length, map, slice_get};
ghost use Rattle.pid_findings.specs.Findings.{ended};
ghost use Rattle.pid_findings.specs.Machine.{PidState};
ghost use Rattle.demux.specs.Stream.{held_found};
ghost use Rattle.pid_findings.specs.Shown.{finding_view, with_pid};
ghost use Rattle.devices.specs.Devices.{reads, writes};
ghost use Rattle.devices.specs.Runs.{Performs};
ghost use Rattle.devices.specs.WholeInput.{ReadsInput};
ghost use Rattle.tsmux_cli.specs.Demultiplexing.{Demultiplexes, ListsPiece, ListsSome, ListsWhole, found_at_end};
ghost use Rattle.tsmux_cli.specs.FindingLines.{finding_lines, has_fault};

use crate::finding_lines::{has_fault, write_findings};
use counted_io::{Sink, Source};
use demux::HeaderDemux;
use devices::{Halt, PieceTaker, report_halt, take_input, write_bytes};
use pid_findings::Finding;
use std::alloc::Global;

/// The size of a piece in bytes.
const PIECE: usize = 1 << 18;

/// Appends the lines of findings, and returns whether one is a fault.
fn list(found: &[Finding<'_>], text: &mut Vec<u8>) -> Result<bool, Halt>
    ensures lines { OnOk result
        (text.new.items ≡ text.old.items ++ finding_lines (map finding_view found.now)) }
    ensures fault { IfOk result (λ faulty. faulty ≡ has_fault (map finding_view found.now)) }
    ensures memory { IfErr result (λ halt. halt ≡ Halt.Memory) }
{
    let Ok(()) = write_findings(text, found) else {
        return Err(Halt::Memory);
    };
    Ok(has_fault(found))
}

/// Appends the lines of the findings in the next piece of a stream, and returns whether one is a fault.
#[tactic(auto, using(crate::proofs::HeaderLines::lines_alike, crate::proofs::HeaderLines::faults_alike))]
fn list_piece(piece: &[u8], demux: &mut HeaderDemux, text: &mut Vec<u8>) -> Result<bool, Halt>
    ensures { ListsPiece piece.now demux.old demux.new text.old.items text.new.items result }
{
    let Ok(()) = demux.push(piece) else {
        return Err(Halt::Memory);
    };
    let faulty = list(demux.findings(), text)?;
    demux.forget_findings();
    Ok(faulty)
}

/// The lines of the findings in a stream that is taken piece by piece, and whether one is a fault.
#[derive(Drop)]
struct FindingList {
    demux: HeaderDemux,
    text: Vec<u8>,
    faulty: bool,
}

impl PieceTaker for FindingList {
    ghost unit = { 1 };

    ghost has_taken = { λ first bytes now. ListsSome bytes now.demux now.faulty now.text.items };

    fn take_piece(&mut self, piece: &[u8]) -> Result<(), Halt> {
        let faulty = list_piece(piece, &mut self.demux, &mut self.text)?;
        self.faulty |= faulty;
        Ok(())
    }
}

/// Lists what the end of the stream decides of the bytes of a packet that is not whole, and returns whether it is a
/// fault.
#[tactic(auto, using(crate::proofs::HeaderLines::lines_after, crate::proofs::HeaderLines::faults_after))]
fn list_held(alloc: Global, demux: &HeaderDemux, text: &mut Vec<u8>) -> Result<bool, Halt>
    ensures lines { OnOk result (text.new.items ≡ text.old.items
        ++ finding_lines (held_found demux.now.packets demux.now.held)) }
    ensures fault { IfOk result (λ faulty. faulty ≡ has_fault (held_found demux.now.packets demux.now.held)) }
    ensures memory { IfErr result (λ halt. halt ≡ Halt.Memory) }
{
    let mut found: Vec<Finding<'static>> = Vec::new(alloc);
    let Ok(()) = demux.end_of_packet(alloc, &mut found) else {
        return Err(Halt::Memory);
    };
    list(&found, text)
}

/// Lists what the end of the stream decides of the PID at an index, and returns whether it is a fault.
#[tactic(auto, using(crate::proofs::HeaderLines::lines_after, crate::proofs::HeaderLines::faults_after))]
fn list_end_of_pid(
    alloc: Global,
    demux: &HeaderDemux,
    index: usize,
    text: &mut Vec<u8>,
) -> Result<bool, Halt>
    requires { index < length demux.now.states }
    ensures lines { (entry : ℕ × PidState) → slice_get demux.now.states index ≡ Some entry →
        OnOk result (text.new.items ≡ text.old.items ++ finding_lines
        (map (with_pid entry.0 demux.now.packets) (ended true entry.1.open_unit))) }
    ensures fault { (entry : ℕ × PidState) → slice_get demux.now.states index ≡ Some entry →
        IfOk result (λ faulty. faulty ≡ has_fault
        (map (with_pid entry.0 demux.now.packets) (ended true entry.1.open_unit))) }
    ensures memory { IfErr result (λ halt. halt ≡ Halt.Memory) }
{
    let mut found: Vec<Finding<'static>> = Vec::new(alloc);
    let Ok(()) = demux.end_of_pid(index, &mut found) else {
        return Err(Halt::Memory);
    };
    list(&found, text)
}

/// Lists the findings at the end of the stream, and returns whether there is a fault.
fn list_end(alloc: Global, demux: &HeaderDemux, text: &mut Vec<u8>) -> Result<bool, Halt>
    ensures lines { OnOk result (text.new.items ≡ text.old.items ++ finding_lines (found_at_end demux.now)) }
    ensures fault { IfOk result (λ faulty. faulty ≡ has_fault (found_at_end demux.now)) }
    ensures memory { IfErr result (λ halt. halt ≡ Halt.Memory) }
{
    let mut faulty = list_held(alloc, demux, text)?;
    for i in 0..demux.pids() {
        let ended = list_end_of_pid(alloc, demux, i, text)?;
        faulty = faulty | ended;
    }
    Ok(faulty)
}

/// Returns the lines of all findings in the input, and whether there is a fault.
fn list_input<R: Source>(alloc: Global, input: &mut R) -> Result<(Vec<u8>, bool), Halt>
    ensures ok { IfOk result (λ listed. ListsWhole (reads R.Source input.old input.new)
        listed.0.items listed.1) }
    ensures err { IfErr result (λ halt. ReadsInput (reads R.Source input.old input.new) (Err halt)) }
{
    let demux = HeaderDemux::new(alloc);
    let text = Vec::new(alloc);
    let mut found = FindingList {
        demux,
        text,
        faulty: false,
    };
    take_input(alloc, input, PIECE, &mut found)?;
    let FindingList {
        demux,
        mut text,
        faulty,
    } = found;
    let ended = list_end(alloc, &demux, &mut text)?;
    Ok((text, faulty | ended))
}

/// Writes a line for each finding, and returns the status.
pub fn demultiplex<R: Source, W: Sink, E: Sink>(
    alloc: Global,
    input: &mut R,
    output: &mut W,
    faults: &mut E,
) -> u8
    ensures { Performs Demultiplexes
        (reads R.Source input.old input.new)
        (writes W.Sink output.old output.new)
        (writes E.Sink faults.old faults.new)
        result }
{
    let (text, faulty) = match list_input(alloc, input) {
        Ok(listed) => listed,
        Err(halt) => return report_halt(faults, halt),
    };
    match write_bytes(&text, output) {
        Ok(()) => { if faulty { 1 } else { 0 } }
        Err(halt) => report_halt(faults, halt),
    }
}
