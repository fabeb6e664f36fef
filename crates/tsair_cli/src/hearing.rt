//! The records of a run, taken in turn.

ghost use Rattle.std.specs.Prelude.{◌≡◌, ◌||◌, false, true, List, ℕ, Option, IfOk, option_map, string_bytes};
ghost use Rattle.devices.specs.Devices.{reads, writes};
ghost use Rattle.devices.specs.Lines.{Reports};
ghost use Rattle.on_air.specs.Airing.{Run, silence};
ghost use Rattle.on_air.specs.AirStates.{IsOnAir};
ghost use Rattle.description_parts.specs.Described.{Described};
ghost use Rattle.devices.specs.Devices.{IsUntouched};
ghost use Rattle.tsair_cli.specs.Repeats.{is_repeat, repeats_text};
ghost use Rattle.explained_jobs.specs.UnitWords.{air_line};
ghost use Rattle.tsair_cli.specs.HeardRecords.{
  AreLimits,
  HearsAll,
  ReportsBoth,
  ReportsChange,
  ReportsRefusal,
  change_line,
  limits_in,
  numbers_line,
};
ghost use Rattle.tsair_cli.specs.States.{saving_of};

use crate::arguments::AirOptions;
use crate::repeats::Repeats;
use crate::state::save_state;
use counted_io::Sink;
use description::Description;
use devices::{OutputFiles, report_line, report_text};
use explained_jobs::{UnitLimits, stream_limits, write_air};
use held_input::HeldInput;
use on_air::{AirRefusal, Ending, Heard, OnAir, OutputFault};
use std::alloc::{AllocError, Global};

/// What a run is asked for.
#[derive(Clone, Copy)]
pub struct Asked<'a> {
    pub options: AirOptions,
    /// The name of the file that has the versions of the texts in force.
    pub state: Option<&'a str>,
}

/// How the records of a run ended.
#[derive(Clone, Copy)]
pub struct RecordsEnd {
    /// Whether a record was refused.
    pub has_refused: bool,
    /// Whether versions of texts were not written to their file.
    pub has_lost: bool,
    /// Why no further record is taken; `None` if a refused record ended the run.
    pub why: Option<Ending>,
}

/// Returns the line for a record that is refused, or that the run follows.
fn refused_line(
    alloc: Global,
    streams: &[UnitLimits],
    index: u64,
    cause: AirRefusal,
) -> Result<String, AllocError>
    ensures { IfOk result (λ line. string_bytes line ≡ air_line streams.now index cause) }
{
    let mut line = String::new(alloc);
    write_air(index, cause, streams, &mut line)?;
    Ok(line)
}

/// Reports the numbers of a record that is refused, or that the run follows.
#[tactic(auto, unfolding(crate::specs::HeardRecords::numbers_by))]
fn report_numbers<E: Sink>(faults: &mut E, index: u64, cause: AirRefusal)
    ensures { Reports (writes E.Sink faults.old faults.new) (numbers_line (index, cause)) }
{
    let index = u128::from(index);
    match cause {
        AirRefusal::Followed { packet, from, to } => report_line(
            faults,
            "leap",
            &[index, u128::from(packet), u128::from(from), u128::from(to)],
        ),
        AirRefusal::Feed(unit) => {
            report_line(faults, "unit", &[index, u128::from(unit.cause.code())])
        }
        AirRefusal::Ahead(_) => report_line(faults, "unit", &[index, 11]),
        AirRefusal::Texts(_) => report_line(faults, "switch refused", &[index]),
        AirRefusal::LineUp(_) => report_line(faults, "switch refused", &[index]),
    }
}

/// Reports that a record is refused, or that the run follows it; by its numbers alone if there is no memory for words.
fn report_words<E: Sink>(
    alloc: Global,
    streams: &[UnitLimits],
    faults: &mut E,
    index: u64,
    cause: AirRefusal,
)
    ensures { ReportsRefusal streams.now (index, cause) (writes E.Sink faults.old faults.new) }
{
    match refused_line(alloc, streams, index, cause) {
        Ok(line) => report_text(faults, line.as_str()),
        Err(_) => report_numbers(faults, index, cause),
    }
}

/// Reports that a record is refused, or that the run follows it, by what the streams declare if that is known.
fn report_refused<E: Sink>(
    alloc: Global,
    limits: &Option<Vec<UnitLimits>>,
    faults: &mut E,
    index: u64,
    cause: AirRefusal,
)
    ensures { (d : Described) → AreLimits (option_map (λ l. l.items) limits.now) d →
        ReportsRefusal (limits_in d) (index, cause) (writes E.Sink faults.old faults.new) }
{
    match limits {
        Some(streams) => report_words(alloc, streams, faults, index, cause),
        None => report_numbers(faults, index, cause),
    }
}

/// Reports how many refused records have no line, if there are any.
#[tactic(auto, unfolding(crate::specs::Repeats::more_text))]
fn report_more<E: Sink>(faults: &mut E, repeats: Repeats)
    ensures { Reports (writes E.Sink faults.old faults.new) (repeats_text repeats) }
{
    match repeats.last {
        None => {}
        Some(last) => {
            if repeats.more > 0 {
                report_line(
                    faults,
                    "units refused alike",
                    &[u128::from(last.code), u128::from(repeats.more)],
                );
            }
        }
    }
}

/// Reports that a record is refused, or that the run follows it, unless it is like the last one that has a line; before
/// that, how many have none.
fn report_unlike<E: Sink>(
    alloc: Global,
    limits: &Option<Vec<UnitLimits>>,
    faults: &mut E,
    repeats: Repeats,
    index: u64,
    cause: AirRefusal,
)
    ensures none { is_repeat repeats cause ≡ true → IsUntouched (writes E.Sink faults.old faults.new) }
    ensures lines { (d : Described) → AreLimits (option_map (λ l. l.items) limits.now) d → is_repeat repeats cause ≡ false →
        ReportsBoth (limits_in d) repeats (index, cause) (writes E.Sink faults.old faults.new) }
{
    if repeats.has(cause) {
        return;
    }
    report_more(faults, repeats);
    report_refused(alloc, limits, faults, index, cause);
}

/// Returns what the streams of these texts declare, if there is memory for it.
fn limits_now(alloc: Global, texts: &Description) -> Option<Vec<UnitLimits>>
    ensures { AreLimits (option_map (λ l. l.items) result) texts.now }
{
    match stream_limits(alloc, texts.streams()) {
        Ok(limits) => Some(limits),
        Err(_) => None,
    }
}

/// Returns whether one of the two holds.
fn either(one: bool, other: bool) -> bool
    ensures { result ≡ (one || other) }
{
    one || other
}

/// Reports from which slot on the texts of a record, or its line-up, are in force.
fn report_slot<E: Sink>(faults: &mut E, index: u64, slot: u64)
    ensures { Reports (writes E.Sink faults.old faults.new) (change_line index slot) }
{
    report_line(faults, "switch", &[u128::from(index), u128::from(slot)]);
}

/// Reports from which slot on the texts of a record, or its line-up, are in force, and writes the versions of the texts to
/// the file of this name, if a name is given. Returns whether the versions are lost.
fn report_change<F: OutputFiles, E: Sink>(
    alloc: Global,
    files: &F,
    state: Option<&str>,
    texts: &Description,
    faults: &mut E,
    index: u64,
    slot: u64,
) -> bool
    ensures { ReportsChange (saving_of (F.creates files.now) (F.keeps files.now) (option_map (λ s. s.now) state.entry))
        index slot texts.now (writes E.Sink faults.old faults.new) result }
{
    report_slot(faults, index, slot);
    save_state(alloc, files, state, texts, faults)
}

/// Takes all records of a run, and reports the refused records before the next is read, and before the slots up to one
/// are written if the run follows it, by what the streams declare that are on air: those in a row that are alike once in
/// a second, with their number at the next line or at the end; and each change of the texts or of the line-up. Before the
/// first record and after each change it writes the versions of the texts in force to the file that is asked for. If
/// `--stop` is, the first refused record ends the run, after those slots.
pub fn hear_all<F: OutputFiles, R: HeldInput, W: Sink, E: Sink>(
    alloc: Global,
    asked: Asked<'_>,
    files: &F,
    on_air: &mut OnAir,
    input: &mut R,
    output: &mut W,
    faults: &mut E,
) -> Result<RecordsEnd, OutputFault>
    ensures { (run : Run) (start : Option (List ℕ)) →
        IsOnAir run silence start (W.contents output.old) on_air.old →
        HearsAll (saving_of (F.creates files.now) (F.keeps files.now) (option_map (λ s. s.now) asked.entry.state)) run
        asked.entry.options.stop start (reads R.Source input.old input.new) (writes W.Sink output.old output.new)
        (writes E.Sink faults.old faults.new) result on_air.new }
{
    let mut has_refused = false;
    let mut repeats = Repeats::none();
    let first = on_air.texts();
    let mut has_lost = save_state(alloc, files, asked.state, first, faults);
    let mut limits = limits_now(alloc, first);
    'records: loop {
        match on_air.hear_on(alloc, input, output) {
            Ok(Heard::Refused { index, cause }) => {
                report_unlike(alloc, &limits, faults, repeats, index, cause);
                repeats = repeats.with(cause);
                has_refused = true;
                match on_air.follow(cause, output) {
                    Ok(()) => {}
                    Err(fault) => return Err(fault),
                }
                if asked.options.stop {
                    report_more(faults, repeats);
                    let why = None;
                    return Ok(RecordsEnd {
                        has_refused,
                        has_lost,
                        why,
                    });
                }
            }
            Ok(Heard::Changed { index, slot }) => {
                let texts = on_air.texts();
                let is_lost = report_change(alloc, files, asked.state, texts, faults, index, slot);
                has_lost = either(is_lost, has_lost);
                limits = limits_now(alloc, texts);
            }
            Ok(Heard::LinedUp { index, slot }) => {
                let begun = on_air.texts();
                let is_gone = report_change(alloc, files, asked.state, begun, faults, index, slot);
                has_lost = either(is_gone, has_lost);
                limits = limits_now(alloc, begun);
            }
            Ok(Heard::Ended(why)) => {
                report_more(faults, repeats);
                let why = Some(why);
                return Ok(RecordsEnd {
                    has_refused,
                    has_lost,
                    why,
                });
            }
            Ok(Heard::Taken) => {}
            Err(fault) => return Err(fault),
        }
    }
}
