//! The findings and the clock references of a recording, its parts one after another.

ghost use Rattle.std.specs.Prelude.{◌≡◌, IfOk, map};
ghost use Rattle.pid_findings.specs.Shown.{finding_view, what_view};
ghost use Rattle.joined_parts.specs.Joined as spec;

use crate::cuts::cuts_in;
use crate::holes::jumps_of;
use crate::joins::{Join, is_after, joins_of, later};
use crate::stamps::{UnitStamp, stamp_of, stamps_in};
use packet_pcr::FoundPcr;
use pes_packet::{PesHeader, Stamps};
use pid_findings::{Finding, What};
use stamp_repair::programs_in;
use std::alloc::{AllocError, Global};
use std::marker::Model;
use std::mem;
use stream_programs::FoundPrograms;

// The constant of a unit.
fn shift_of(joins: &[Join], stamp: UnitStamp) -> Option<u64>
    ensures { result ≡ spec.shift_of joins.now stamp }
{
    joins.iter().fold(None, |shift, join| {
        if is_after(join.cut, stamp) {
            Some(join.shift)
        } else {
            shift
        }
    })
}

// Returns the constant that moves a unit, if there is one.
#[tactic(auto, unfolding(crate::specs::Joined::shift_with))]
fn shift_with(joins: &[Join], stamp: Option<UnitStamp>) -> Option<u64>
    ensures { result ≡ spec.shift_with joins.now stamp }
{
    match stamp {
        None => None,
        Some(stamp) => shift_of(joins, stamp),
    }
}

// Returns the constant that moves a clock reference.
fn shift_at(joins: &[Join], reference: FoundPcr) -> Option<u64>
    ensures { result ≡ spec.shift_at joins.now reference }
{
    joins.iter().fold(None, |shift, join| {
        if join.cut.pid == reference.pid && join.cut.packet <= reference.packet {
            Some(join.shift)
        } else {
            shift
        }
    })
}

// Stamps that are later by a constant.
#[tactic(auto, unfolding(crate::specs::Joined::moved_stamps))]
fn moved_stamps(shift: u64, stamps: Stamps) -> Stamps
    ensures { result ≡ spec.moved_stamps shift stamps }
{
    match stamps {
        Stamps::Absent => Stamps::Absent,
        Stamps::Pts(pts) => Stamps::Pts(later(pts, shift)),
        Stamps::PtsDts { pts, dts } => Stamps::PtsDts {
            pts: later(pts, shift),
            dts: later(dts, shift),
        },
    }
}

// A header with such stamps.
fn moved_header(shift: u64, header: PesHeader) -> PesHeader
    ensures { result ≡ spec.moved_header shift header }
{
    PesHeader {
        id: header.id,
        len: header.len,
        stamps: moved_stamps(shift, header.stamps),
        flags: header.flags,
        data_length: header.data_length,
        private_data: header.private_data,
    }
}

// Returns what a finding has, with such a header if it is a PES packet.
#[tactic(auto, unfolding(crate::specs::Joined::moved_what))]
fn moved_what<'a>(shift: u64, what: What<'a>) -> What<'a>
    ensures { what_view result ≡ spec.moved_what shift (what_view what.entry) }
{
    match what {
        What::Pes {
            header,
            unended,
            body,
        } => What::Pes {
            header: moved_header(shift, header),
            unended,
            body,
        },
        other => other,
    }
}

// A clock reference that is later by the constant of its part.
#[tactic(auto, unfolding(crate::specs::Joined::reference_by))]
fn reference_by(shift: Option<u64>, reference: FoundPcr) -> FoundPcr
    ensures { result ≡ spec.reference_by shift reference }
{
    match shift {
        None => reference,
        Some(shift) => FoundPcr {
            packet: reference.packet,
            pid: reference.pid,
            base: later(reference.base, shift),
            discontinuity: reference.discontinuity,
        },
    }
}

/// The parts of a recording: its programs, and its cuts with their constants.
#[derive(Drop)]
pub struct PartJoins {
    programs: FoundPrograms,
    joins: Vec<Join>,
}

// A contract sees its cuts as a list.
impl Model for PartJoins {
    ghost use Rattle.joined_parts.specs.Joined.{JoinsView};

    ghost Value = { JoinsView };

    ghost view = { λ j. record { programs = j.programs; joins = j.joins.items } };
}

/// Returns the parts of a recording with these clock references, in the order of their packets, and these findings.
pub fn part_joins(
    alloc: Global,
    references: &[FoundPcr],
    findings: &[Finding<'_>],
) -> Result<PartJoins, AllocError>
    ensures { IfOk result (λ j. j ≡ spec.joins_for references.now (map finding_view findings.now)) }
{
    let programs = programs_in(alloc, findings)?;
    let stamps = stamps_in(alloc, &programs, findings)?;
    let cuts = cuts_in(alloc, references)?;
    let jumps = jumps_of(alloc, &stamps, &cuts)?;
    let joins = joins_of(alloc, &stamps, &jumps)?;
    Ok(PartJoins { programs, joins })
}

impl PartJoins {
    // A clock reference that is later by the constant of its part.
    fn moved_reference(&self, reference: FoundPcr) -> FoundPcr
        ensures { result ≡ spec.moved_reference self.now reference }
    {
        reference_by(shift_at(&self.joins, reference), reference)
    }

    /// Returns the clock references of the recording, each later by the constant of its part.
    pub fn moved_references(
        &self,
        alloc: Global,
        references: &[FoundPcr],
    ) -> Result<Vec<FoundPcr>, AllocError>
        ensures { IfOk result (λ moved. moved.items ≡ map (spec.moved_reference self.now) references.now) }
    {
        references
            .iter()
            .map(|reference| self.moved_reference(*reference))
            .collect(alloc)
    }

    // Moves the stamps of a finding.
    #[tactic(auto, unfolding(crate::specs::Joined::moved_by))]
    fn move_finding(&self, finding: &mut Finding<'_>)
        ensures { finding_view finding.new ≡ spec.moved self.now (finding_view finding.old) }
    {
        let stamp = stamp_of(&self.programs, finding);
        if let Some(shift) = shift_with(&self.joins, stamp) {
            let what = mem::replace(&mut finding.what, What::Duplicate);
            finding.what = moved_what(shift, what);
        }
    }

    /// Moves the stamps of the recording's findings: each unit's PTS and DTS become later by the constant of its part,
    /// modulo 2^33. All else stays as it is.
    pub fn move_findings(&self, findings: &mut [Finding<'_>])
        ensures { map finding_view findings.new ≡ spec.all_moved self.now (map finding_view findings.old) }
    {
        for finding in findings.iter_mut() {
            self.move_finding(finding);
        }
    }
}
