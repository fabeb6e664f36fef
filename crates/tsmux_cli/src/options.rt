//! The subcommands of the program with their options, and its usage.
ghost use Rattle.std.specs.Prelude.{◌≡◌, map, option_map};
ghost use Rattle.tsmux_cli.specs.Options as spec;
ghost use Rattle.word_faults.specs.KnownWords.{known_of};
ghost use Rattle.word_faults.specs.OptionRows.{view};

use word_faults::{KnownWords, OptionRow, ValueKind};

/// The options of `carry`.
pub(crate) const CARRY: [OptionRow; 3] = [
    OptionRow {
        name: "hex",
        value: ValueKind::Flag,
        form: "",
        unit: "",
        apart: "",
        help: "packets are written as lines of hexadecimal digits",
    },
    OptionRow {
        name: "pid",
        value: ValueKind::Number {
            least: 32,
            greatest: 8190,
            default: Some(256),
        },
        form: "",
        unit: "",
        apart: "",
        help: "the PID of the packets; else 256",
    },
    OptionRow {
        name: "id",
        value: ValueKind::StreamId,
        form: "189|192..239",
        unit: "",
        apart: "",
        help: "the stream_id of the PES packets; else 192",
    },
];

/// The options of `check`.
pub(crate) const CHECK: [OptionRow; 1] = [OptionRow {
    name: "switch",
    value: ValueKind::Flag,
    form: "",
    unit: "",
    apart: "",
    help: "whether the second plan may follow the first",
}];

/// The options of `mux`.
pub(crate) const MUX: [OptionRow; 3] = [
    OptionRow {
        name: "hex",
        value: ValueKind::Flag,
        form: "",
        unit: "",
        apart: "",
        help: "packets are written as lines of hexadecimal digits",
    },
    OptionRow {
        name: "slots",
        value: ValueKind::Number {
            least: 0,
            greatest: u64::MAX,
            default: None,
        },
        form: "N",
        unit: "packets",
        apart: "",
        help: "the number of packets; else those up to the greatest DTS",
    },
    OptionRow {
        name: "switch",
        value: ValueKind::Number {
            least: 0,
            greatest: u64::MAX,
            default: None,
        },
        form: "Q",
        unit: "periods",
        apart: "",
        help: "the periods of the first plan before the second",
    },
];

/// The options of `monitor`.
pub(crate) const MONITOR: [OptionRow; 2] = [
    OptionRow {
        name: "rate",
        value: ValueKind::Number {
            least: 100_000,
            greatest: 100_000_000,
            default: None,
        },
        form: "",
        unit: "bits a second",
        apart: "",
        help: "the rate of the stream in bits a second",
    },
    OptionRow {
        name: "pcr",
        value: ValueKind::Number {
            least: 1,
            greatest: 100,
            default: Some(40),
        },
        form: "",
        unit: "ms",
        apart: "",
        help: "the greatest time between program clock references, in ms; else 40",
    },
];

/// The usage, written to the second writer: the options of each table in the line of its subcommand, and what it does.
const USAGE: &str =
    "usage: tsmux carry [--hex] [--pid 32..8190] [--id 189|192..239] < RECORDS > PACKETS
           packets of one PID, from the records of stream 0; --hex: as hexadecimal digits
       tsmux plan < DESCRIPTION > PLAN
           a plan for a service description
       tsmux demux < PACKETS > FINDINGS
           a line for each PES packet, section and fault
       tsmux check [--switch] < JOB
           whether the plan of a job keeps every condition; --switch: a second plan after it, too
       tsmux mux [--hex] [--slots N] [--switch Q] < JOB > PACKETS
           the packets of a job, or N of them; --switch: Q periods of the first plan, then the second
       tsmux monitor --rate 100000..100000000 [--pcr 1..100] < PACKETS > REPORT
           a report by fifteen rules; --rate: in bits/s; --pcr: greatest time between PCRs, in ms; else 40
       tsmux --version
       tsmux --help
with no words: tsmux carry --hex
a job is a description, its plan and records: cat DESCRIPTION PLAN RECORDS | tsmux mux > PACKETS
an example: tsjob --whole in.ts | tsmux mux > out.ts
tsjob makes jobs of any stream, tsremux is both in one step, tsair runs without end, tsview looks at buffers
";

/// Returns the usage.
pub(crate) fn usage() -> &'static str
    ensures { result.now ≡ spec.usage_text }
{
    USAGE
}

/// A first word: a subcommand, or none.
#[derive(Clone, Copy)]
pub enum FirstWord {
    NoSubcommand,
    Carry,
    Plan,
    Demux,
    Check,
    Mux,
    Monitor,
}

// Returns the subcommand of this name, if there is one.
#[tactic(auto, unfolding(crate::specs::Options::named))]
fn named(word: &str) -> Option<FirstWord>
    ensures { result ≡ spec.named word.now }
{
    match word {
        "carry" => Some(FirstWord::Carry),
        "plan" => Some(FirstWord::Plan),
        "demux" => Some(FirstWord::Demux),
        "check" => Some(FirstWord::Check),
        "mux" => Some(FirstWord::Mux),
        "monitor" => Some(FirstWord::Monitor),
        _ => None,
    }
}

// Returns the first word; `NoSubcommand` if it is no subcommand.
fn known_after(words: &[&str]) -> FirstWord
    ensures { result ≡ spec.known_after (map (λ s. s.now) words.now) }
{
    match words {
        [] => FirstWord::NoSubcommand,
        [word, ..] => named(word).unwrap_or(FirstWord::NoSubcommand),
    }
}

// Returns the options of a subcommand.
#[tactic(auto, unfolding(crate::specs::Options::options_of))]
fn options_of(first: FirstWord) -> &'static [OptionRow]
    ensures { map view result.now ≡ spec.options_of first }
{
    match first {
        FirstWord::NoSubcommand | FirstWord::Plan | FirstWord::Demux => &[],
        FirstWord::Carry => &CARRY,
        FirstWord::Check => &CHECK,
        FirstWord::Mux => &MUX,
        FirstWord::Monitor => &MONITOR,
    }
}

// Returns the word of the option that must be given.
fn required_of(first: FirstWord) -> Option<&'static str>
    ensures { option_map (λ s. s.now) result ≡ spec.required_of first }
{
    match first {
        FirstWord::Monitor => Some("--rate"),
        _ => None,
    }
}

// Returns the options and words known after a first word.
fn known_words(first: FirstWord) -> KnownWords
    ensures { known_of result ≡ spec.known_words first }
{
    KnownWords {
        options: options_of(first),
        words: &["carry", "plan", "demux", "check", "mux", "monitor"],
        names: false,
        alone: &["-V"],
        required: required_of(first),
        barred: None,
    }
}

/// Returns the options and words that these words may have.
pub(crate) fn known_for(words: &[&str]) -> KnownWords
    ensures { known_of result ≡ spec.known_words (spec.known_after (map (λ s. s.now) words.now)) }
{
    known_words(known_after(words))
}
