//! What the options of `next` ask for: a front, and a record of it or of new texts.

ghost use Rattle.std.specs.Prelude.{◌≡◌, ◌<◌, ◌≤◌, ◌^◌, IfSome, map, option_map};
ghost use Rattle.std.specs.List.{list_any};
ghost use Rattle.tsjob_cli.specs.NextTexts as spec;

use description_values::moments::moment_of;
use word_faults::{Scale, scaled_in, value_given};

/// The record that is asked for.
#[derive(Clone, Copy)]
pub(crate) struct RecordAsked<'a> {
    /// The moment from which the texts are in force, in seconds since 1970.
    pub at: u64,
    /// `--wait` of the run, in units of 90 kHz.
    pub wait: u64,
    /// The name of the file that it is written to.
    pub to: &'a str,
    /// Whether it is that of a front.
    pub is_front: bool,
}

/// What is asked for.
#[derive(Clone, Copy)]
pub(crate) struct NextAsked<'a> {
    /// Whether a front is.
    pub plan: bool,
    /// The name of the file that the front is written to; none if that is standard output.
    pub name: Option<&'a str>,
    pub record: Option<RecordAsked<'a>>,
}

// Returns the moment that a text names; none if it names none that has 32 bits.
#[tactic(auto, unfolding(crate::specs::NextTexts::if_short))]
fn moment_in(text: &str) -> Option<u64>
    ensures value { result ≡ spec.moment_in text.now }
    ensures upper { IfSome result (λ n. n < 2 ^ 32) }
{
    match moment_of(text.as_bytes()) {
        Some(at) if at < 1 << 32 => Some(at),
        _ => None,
    }
}

// Returns the value of `--wait`; none if it is out of its range.
#[tactic(auto, unfolding(crate::specs::NextTexts::wait_in))]
fn wait_in(text: Option<&str>) -> Option<u64>
    ensures value { result ≡ spec.wait_in (option_map (λ s. s.now) text.entry) }
    ensures upper { IfSome result (λ n. n ≤ 8100000) }
{
    match text {
        None => Some(180_000),
        Some(text) => scaled_in(text, Scale::Ticks, 0, 8_100_000),
    }
}

// Returns the record that is asked for by these texts, if each of them is in its range.
fn record_to<'a>(
    is_front: bool,
    at: &str,
    wait: Option<&str>,
    to: &'a str,
) -> Option<RecordAsked<'a>>
    ensures value { option_map spec.asked_view result
        ≡ spec.record_to is_front at.now (option_map (λ s. s.now) wait.entry) to.entry.now }
    ensures at { IfSome result (λ r. r.at < 2 ^ 32) }
    ensures wait { IfSome result (λ r. r.wait ≤ 8100000) }
{
    let at = moment_in(at)?;
    let wait = wait_in(wait)?;
    Some(RecordAsked {
        at,
        wait,
        to,
        is_front,
    })
}

// Returns the record that these texts ask for, if they do; none if they are a usage error.
#[tactic(auto, unfolding(crate::specs::NextTexts::record_by))]
fn record_by<'a>(
    is_front: bool,
    at: Option<&str>,
    wait: Option<&str>,
    to: Option<&'a str>,
) -> Option<Option<RecordAsked<'a>>>
    ensures value { option_map (option_map spec.asked_view) result ≡ spec.record_by is_front (option_map (λ s. s.now) at.entry)
        (option_map (λ s. s.now) wait.entry) (option_map (λ s. s.now) to.entry) }
    ensures at { IfSome result (λ r. IfSome r (λ r. r.at < 2 ^ 32)) }
    ensures wait { IfSome result (λ r. IfSome r (λ r. r.wait ≤ 8100000)) }
{
    match (at, wait, to) {
        (Some(at), wait, Some(to)) => match record_to(is_front, at, wait, to) {
            Some(asked) => Some(Some(asked)),
            None => None,
        },
        (None, None, None) => Some(None),
        _ => None,
    }
}

// Returns the record that the options ask for, if they do; none if they are a usage error.
#[tactic(auto, using(crate::proofs::NextTexts::record_is))]
fn record_asked<'a>(is_front: bool, options: &[&'a str]) -> Option<Option<RecordAsked<'a>>>
    ensures value { option_map (option_map spec.asked_view) result
        ≡ spec.record_asked is_front (map (λ s. s.now) options.now) }
    ensures at { IfSome result (λ r. IfSome r (λ r. r.at < 2 ^ 32)) }
    ensures wait { IfSome result (λ r. IfSome r (λ r. r.wait ≤ 8100000)) }
{
    record_by(
        is_front,
        value_given("--at", options),
        value_given("--wait", options),
        value_given("--to", options),
    )
}

// Returns whether a word asks for a front.
fn is_plan_word(word: &str) -> bool
    ensures { result ≡ spec.is_plan_word word.now }
{
    word == "--plan"
}

fn has_plan_word(options: &[&str]) -> bool
    ensures { result ≡ list_any (λ w. spec.is_plan_word w.now) options.now }
{
    options.iter().any(|word| is_plan_word(word))
}

// Returns whether the options ask for a front.
#[tactic(auto, using(crate::proofs::NextTexts::any_word))]
fn plan_asked(options: &[&str]) -> bool
    ensures { result ≡ spec.plan_asked (map (λ s. s.now) options.now) }
{
    has_plan_word(options)
}

// Returns whether the name of a file is given although no front is asked for.
fn names_nothing(plan: bool, name: Option<&str>) -> bool
    ensures { result ≡ spec.names_nothing plan (option_map (λ s. s.now) name.entry) }
{
    !plan && name.is_some()
}

/// Returns what the options ask for, with the name of the file that is written; none if they are a usage error.
#[tactic(auto, using(crate::proofs::NextTexts::asked_is, crate::proofs::NextTexts::asks_nothing, crate::proofs::NextTexts::no_record))]
pub(crate) fn next_asked<'a>(options: &[&'a str], name: Option<&'a str>) -> Option<NextAsked<'a>>
    ensures value { option_map spec.next_view result
        ≡ spec.next_asked (map (λ s. s.now) options.now) (option_map (λ s. s.now) name.entry) }
    ensures at { IfSome result (λ r. IfSome r.record (λ r. r.at < 2 ^ 32)) }
    ensures wait { IfSome result (λ r. IfSome r.record (λ r. r.wait ≤ 8100000)) }
{
    let plan = plan_asked(options);
    if names_nothing(plan, name) {
        return None;
    }
    match record_asked(plan, options) {
        None => None,
        Some(record) => Some(NextAsked { plan, name, record }),
    }
}
