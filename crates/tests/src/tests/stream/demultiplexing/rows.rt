//! Findings as rows of plain values.

use pid_findings::{Finding, Kind, What};
use std::alloc::Allocator;

/// The kind of a finding, and its numbers.
pub type Said = (&'static str, [u64; 3]);

/// A finding: the packet, the PID, its kind, and what began where.
pub type Row = (u64, Option<u16>, Said, Option<(u64, Kind)>);

fn said<A: Allocator>(what: &What<'_, A>) -> Said {
    match what {
        What::Duplicate => ("duplicate", [0; 3]),
        What::CounterBreak { expected, found } => (
            "counter",
            [u64::from(*expected), u64::from(*found), 0],
        ),
        What::Scrambled => ("scrambled", [0; 3]),
        What::Truncated(part) => ("truncated", [part.bytes().len() as u64, 0, 0]),
        What::Section(part) => ("section", [part.bytes().len() as u64, 0, 0]),
        What::BadSection(error) => ("bad section", [u64::from(error.code()), 0, 0]),
        What::Pes {
            header,
            unended,
            body,
        } => (
            "pes",
            [
                u64::from(header.id),
                u64::from(*unended),
                body.bytes().len() as u64,
            ],
        ),
        What::BadPes(error) => ("bad pes", [u64::from(error.code()), 0, 0]),
        What::BadPacket(error) => ("bad packet", [u64::from(error.code()), 0, 0]),
        What::Errored => ("errored", [0; 3]),
        What::Stray(size) => ("stray", [*size as u64, 0, 0]),
    }
}

fn is_row<A: Allocator>(finding: &Finding<'_, A>, row: &Row) -> bool {
    let (packet, pid, what, begun) = *row;
    finding.packet == packet
        && finding.pid == pid
        && finding.begun == begun
        && said(&finding.what) == what
}

/// Returns whether the findings are these.
pub fn are_rows<A: Allocator>(findings: &[Finding<'_, A>], rows: &[Row]) -> bool {
    let mut left = rows;
    for finding in findings {
        let [row, rest @ ..] = left else {
            return false;
        };
        if !is_row(finding, row) {
            return false;
        }
        left = rest;
    }
    left.is_empty()
}
