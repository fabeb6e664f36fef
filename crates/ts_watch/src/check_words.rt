//! Sections with a wrong check word.
ghost use Rattle.std.specs.Prelude.{◌≡◌, ◌++◌, OnOk};
ghost use Rattle.pid_findings.specs.Shown.{finding_view, what_view};
ghost use Rattle.ts_watch.specs.TableEvents as spec;

use events::{CheckWordFault, Event};
use pid_findings::{Finding, What};
use psi_tables::{SectionError, check_word};
use std::alloc::AllocError;
use tr101290::{SectionBegin, section_begin};

#[tactic(auto, unfolding(crate::specs::TableEvents::is_wrong))]
fn is_wrong(what: &What<'_>) -> bool
    ensures { result ≡ spec.is_wrong (what_view what.now) }
{
    matches!(what, What::BadSection(SectionError::CheckWord))
}

#[tactic(auto, unfolding(crate::specs::TableEvents::has_wrong_word))]
fn has_wrong_word(what: &What<'_>) -> bool
    ensures { result ≡ spec.has_wrong_word (what_view what.now) }
{
    match what {
        What::Section(part) => check_word(part.bytes()) != 0,
        _ => false,
    }
}

// Returns whether sections of a table have a check word, though their section_syntax_indicator is 0.
fn has_word(pid: u16, table_id: u8) -> bool
    ensures { result ≡ spec.has_word pid table_id }
{
    (pid == 0x14 && table_id == 0x73) || table_id == 0xfc
}

#[tactic(auto, unfolding(crate::specs::TableEvents::is_wrong_short))]
fn is_wrong_short(begin: Option<SectionBegin>, what: &What<'_>) -> bool
    ensures { result ≡ spec.is_wrong_short begin (what_view what.now) }
{
    match begin {
        None => false,
        Some(section) => has_word(section.pid, section.table_id) && has_wrong_word(what),
    }
}

/// Returns whether a finding is a section with a wrong check word.
pub(crate) fn is_bad(finding: &Finding<'_>) -> bool
    ensures { result ≡ spec.is_bad (finding_view finding.now) }
{
    is_wrong(&finding.what) || is_wrong_short(section_begin(finding), &finding.what)
}

/// Appends the event of a section whose check word is wrong, if the finding is such a section.
pub(crate) fn push_check_word_if(
    events: &mut Vec<Event>,
    finding: &Finding<'_>,
) -> Result<(), AllocError>
    ensures { OnOk result (events.new.items
        ≡ events.old.items ++ spec.check_word_events (finding_view finding.now)) }
{
    if is_bad(finding) {
        events.push(Event::CheckWord(CheckWordFault {
            pid: finding.pid.unwrap_or(0),
            packet: finding.packet,
        }))?;
    }
    Ok(())
}
