//! What the bytes of a section or a PES packet decide.
ghost use Rattle.std.specs.Prelude.{◌≡◌, ◌≤◌, ◌+◌, ◌++◌, ◌==◌, [], if◌then◌else◌, true, is_err, None, option_map};
ghost use Rattle.std.specs.Prelude.{length};
ghost use Rattle.pes_packet.specs.Reading.{header_at};
ghost use Rattle.pid_findings.specs.Findings as findings;
ghost use Rattle.pid_findings.specs.OpenUnits.{IsFront, IsUndecidedBelow, decided, max_unbounded_pes, of_header};
ghost use Rattle.pid_findings.specs.Shown.{what_of};

use crate::open_unit::UnitKind;
use pes_packet::{PesError, PesHeader, read_header};
use psi_tables::{Section, SectionError};

// The most bytes that a PES packet without a length may have.
const LONGEST: usize = 8_388_608;

/// What bytes decide, with places in them.
#[derive(Clone, Copy)]
pub(crate) enum Verdict {
    /// a PES packet without a length has too many
    TooLong,
    /// a PES packet: its header, where the body starts and where it ends
    Pes(PesHeader, usize, usize),
    BadPes(PesError),
    /// a section: its number of bytes
    Section(usize),
    BadSection(SectionError),
}

/// Returns how many of these bytes are past the end of the PES packet that they decide.
pub(crate) fn past_end(bytes: &[u8], verdict: Verdict) -> usize
    ensures { result ≡ findings.past_end (length bytes.now) (what_of bytes.now verdict) }
{
    match verdict {
        Verdict::Pes(header, _, _) => bytes.len().saturating_sub(6 + header.len as usize),
        _ => 0,
    }
}

/// Returns what the bytes at hand decide; none while they are too few: then they are at most 8,388,608.
#[tactic(auto, unfolding(crate::specs::OpenUnits::decided))]
pub(crate) fn decide(kind: UnitKind, bytes: &[u8]) -> Option<Verdict>
    ensures decides { option_map (what_of bytes.now) result ≡ decided kind bytes.now }
    ensures bounded { result ≡ None → length bytes.now ≤ max_unbounded_pes }
{
    match kind {
        UnitKind::Section => decide_section(bytes),
        UnitKind::Pes => decide_pes(bytes),
    }
}

// Returns the verdict on a section with these bytes.
#[tactic(auto, unfolding(crate::specs::OpenUnits::decided, crate::specs::OpenUnits::of_section))]
fn decide_section(bytes: &[u8]) -> Option<Verdict>
    ensures decides { option_map (what_of bytes.now) result ≡ decided UnitKind.Section bytes.now }
    ensures bounded { result ≡ None → length bytes.now ≤ max_unbounded_pes }
{
    match Section::read(bytes) {
        Ok((_, size)) => Some(Verdict::Section(size)),
        Err(SectionError::Short) => None,
        Err(error) => Some(Verdict::BadSection(error)),
    }
}

// Returns the verdict on a PES packet with these bytes.
#[tactic(auto, unfolding(crate::specs::OpenUnits::decided, crate::specs::OpenUnits::of_pes))]
fn decide_pes(bytes: &[u8]) -> Option<Verdict>
    ensures decides { option_map (what_of bytes.now) result ≡ decided UnitKind.Pes bytes.now }
    ensures bounded { result ≡ None → length bytes.now ≤ max_unbounded_pes }
{
    match read_header(bytes) {
        Ok((header, size)) => by_header(header, size, bytes),
        Err(PesError::Short) => None,
        Err(error) => Some(Verdict::BadPes(error)),
    }
}

// Returns the verdict on a PES packet whose header was read.
#[tactic(auto, unfolding(crate::specs::OpenUnits::of_header))]
fn by_header(header: PesHeader, size: usize, bytes: &[u8]) -> Option<Verdict>
    ensures decides { option_map (what_of bytes.now) result ≡ of_header bytes.now (header, size) }
    ensures bounded { result ≡ None → length bytes.now ≤ max_unbounded_pes }
{
    if header.len == 0 {
        if bytes.len() > LONGEST {
            return Some(Verdict::TooLong);
        }
        return None;
    }
    let end = 6 + header.len as usize;
    if bytes.len() < end {
        return None;
    }
    Some(Verdict::Pes(header, size, end))
}

/// The first bytes of a PES packet: the bytes of its header, if it can be read, and the bytes after it.
#[derive(Clone, Copy)]
pub(crate) struct Head<'a> {
    pub header: Option<PesHeader>,
    pub front: &'a [u8],
    pub rest: &'a [u8],
    // the least size at which they may decide the packet, with the bytes of later packets
    pub least: usize,
}

// Returns the size at which the bytes of a PES packet with this header decide it.
fn least_size(header: PesHeader) -> usize
    ensures size { result ≡ (if header.len == 0 then max_unbounded_pes + 1 else 6 + header.len) }
    ensures bound { result ≤ max_unbounded_pes + 1 }
{
    if header.len == 0 {
        return LONGEST + 1;
    }
    6 + header.len as usize
}

/// Returns the header at the front, apart from the bytes after it.
#[tactic(auto, using(crate::proofs::HeadedUnits::waits_for))]
pub(crate) fn head_of(bytes: &[u8]) -> Head<'_>
    ensures joined { result.front.now ++ result.rest.now ≡ bytes.now }
    ensures front { IsFront result.header UnitKind.Pes result.front.now bytes.now }
    ensures waits { IsUndecidedBelow UnitKind.Pes bytes.now result.least }
    ensures bound { result.least ≤ max_unbounded_pes + 1 }
    ensures unread { result.header ≡ None → is_err (header_at bytes.now) ≡ true }
    ensures short { length result.front.now ≤ 264 }
{
    match read_header(bytes) {
        Err(_) => unread(bytes),
        Ok((header, size)) => {
            let (front, rest) = bytes.split_at(size);
            Head {
                header: Some(header),
                front,
                rest,
                least: least_size(header),
            }
        }
    }
}

// Returns bytes without a header that can be read.
fn unread(bytes: &[u8]) -> Head<'_>
    ensures header { result.header ≡ None }
    ensures front { result.front.now ≡ [] }
    ensures rest { result.rest.now ≡ bytes.now }
    ensures least { result.least ≡ 0 }
{
    Head {
        header: None,
        front: &[],
        rest: bytes,
        least: 0,
    }
}

/// Returns what the first bytes of a PES packet decide, whose header is kept apart.
#[tactic(auto, unfolding(crate::specs::OpenUnits::decided, crate::specs::OpenUnits::of_pes))]
pub(crate) fn decide_first(head: Head<'_>, bytes: &[u8]) -> Option<Verdict>
    requires { IsFront head.header UnitKind.Pes head.front.now bytes.now }
    ensures decides { option_map (what_of bytes.now) result ≡ decided UnitKind.Pes bytes.now }
    ensures bounded { result ≡ None → length bytes.now ≤ max_unbounded_pes }
{
    match head.header {
        Some(header) => by_header(header, head.front.len(), bytes),
        None => decide_pes(bytes),
    }
}
