//! The options and subcommands of the program, and its usage.
ghost use Rattle.std.specs.Prelude.{◌≡◌, map, option_map};
ghost use Rattle.tsjob_cli.specs.Options as spec;
ghost use Rattle.word_faults.specs.KnownWords.{known_of};

use crate::arguments::subcommand_of;
use crate::file_mark::has_mark;
use crate::rows::{
    ALIGNED, BASE, BUFFERS, CLOCK, DECLARE, FRAMES, HELP, JOINED, LEAD, LENIENT, MAKE_DTS,
    MARK_ACCESS, NAME, NETWORK, OUTPUT, PCR, PROGRAM, PROGRESS, QUIET, RATE, START, STRICT,
    VERBOSE, VERSION, WITHOUT,
};
use job_run::Subcommand;
use word_faults::{KnownWords, OptionRow, Scale, ValueKind, word_beside};

/// The options and the subcommand. The reader, the first faulty word and the usage follow these rows.
pub(crate) const OPTIONS: [OptionRow; 28] = [
    OptionRow {
        name: "subcommand",
        value: ValueKind::Word,
        form: "",
        unit: "",
        apart: "",
        help: "what is written: the description, the units, or why there is no plan; else the whole job",
    },
    RATE,
    PROGRAM,
    WITHOUT,
    BUFFERS,
    LEAD,
    FRAMES,
    DECLARE,
    PCR,
    CLOCK,
    START,
    BASE,
    NETWORK,
    NAME,
    MAKE_DTS,
    JOINED,
    MARK_ACCESS,
    ALIGNED,
    STRICT,
    LENIENT,
    OptionRow {
        name: "whole",
        value: ValueKind::Flag,
        form: "",
        unit: "",
        apart: "",
        help: "the input is no capture: its last PES packets are whole",
    },
    OptionRow {
        name: "stream",
        value: ValueKind::File,
        form: "FILE",
        unit: "",
        apart: "--output",
        help: "with units: those of the streams of this description, while the stream comes",
    },
    OUTPUT,
    QUIET,
    VERBOSE,
    PROGRESS,
    VERSION,
    HELP,
];

/// The options beside the word `explain`.
pub(crate) const EXPLAIN_OPTIONS: [OptionRow; 2] = [VERSION, HELP];

/// The options beside the word `next`: for a front, and for a record of it or of the texts.
pub(crate) const NEXT_OPTIONS: [OptionRow; 7] = [
    OptionRow {
        name: "plan",
        value: ValueKind::Flag,
        form: "",
        unit: "",
        apart: "",
        help: "NEW is written with a plan in which what stays keeps its slots",
    },
    OUTPUT,
    OptionRow {
        name: "at",
        value: ValueKind::Moment,
        form: "YYYY-MM-DDThh:mm:ss",
        unit: "UTC, in the years 1970 to 2037",
        apart: "",
        help: "the moment from which NEW is in force",
    },
    OptionRow {
        name: "to",
        value: ValueKind::File,
        form: "RECORD",
        unit: "",
        apart: "",
        help: "the file that the record of NEW is written to",
    },
    OptionRow {
        name: "wait",
        value: ValueKind::Scaled {
            scale: Scale::Ticks,
            least: 0,
            greatest: 8_100_000,
            default: Some(180_000),
        },
        form: "",
        unit: "units of 90 kHz, or with ms or s",
        apart: "",
        help: "--wait of tsair, in units of 90 kHz; else 180000",
    },
    VERSION,
    HELP,
];

/// The usage, written to the first writer if the words ask for help, to the second on a usage error: a line for each
/// option of the table.
const USAGE: &str = "usage: tsjob [describe|units|why] [OPTIONS] [FILE..|-] [-o OUT]
       tsjob units --stream DESCRIPTION < PACKETS > RECORDS
       tsjob explain [DESCRIPTION [PLAN [RECORDS]]]
       tsjob next JOB NEW [--plan [-o FRONT]] [--at YYYY-MM-DDThh:mm:ss --to RECORD [--wait T]]
  --rate 100000..100000000       bits a second; else the first tried rate with a plan
  --program N,..                 the programs that are taken
  --without PID,..               PIDs that are left out
  --buffers PID:RX:MAIN,..       buffers of a PID, in bits a second and bytes
  --lead 1..90000                the greatest lead of a unit, in units of 90 kHz
  --frames 1..64                 the most frames of sound of a PES packet; else the packets stay as they are
  --declare groups|time          by what packets are declared; else by groups if they ask for little more
  --pcr 1..100                   the greatest time between clock references, in ms
  --clock each|one               which programs share a clock: none or all; else those without video
  --start YYYY-MM-DDThh:mm:ss    the moment of the first packet
  --base 0..8589934591|input     the system clock as the run begins, in units of 90 kHz, or that of the input
  --network ID:NAME[:ORIGINAL]   the network, and original_network_id
  --name N:NAME[:PROVIDER],..    the names of the services of programs
  --make-dts                     DTS are made from PTS
  --joined                       a recording that was joined from several: its parts come one after another
  --mark-access                  units at which a decoder may begin have random_access_indicator
  --aligned PID,..               PIDs whose units have data_alignment_indicator
  --strict                       a stream that cannot be carried refuses the input; else it is left out
  --lenient                      a program may lose its only picture or sound; else that refuses the input
  --whole                        the input is no capture: its last PES packets are whole
  --stream FILE                  with units: those of the streams of this description, while the stream comes
  --output FILE                  or -o: the file that is written; else standard output
  --quiet                        or -q: report only why nothing is written
  --verbose                      or -v: report also what is left out without a loss
  --progress                     report each second how many bytes are read, on a terminal
  --version                      or -V, alone: the version, and the logic of its proof
  --help                         or -h: this text, on standard output
";

/// Returns the usage.
pub(crate) fn usage() -> &'static str
    ensures { result.now ≡ spec.usage_text }
{
    USAGE
}

// Returns the word of the option that is barred, if the file of a description cannot be named.
fn barred_word(takes_stream: bool) -> Option<&'static str>
    ensures { option_map (λ s. s.now) result ≡ spec.barred_word takes_stream }
{
    if takes_stream { None } else { Some("--stream") }
}

// Returns the options and words of the command line; `--stream` is known if `takes_stream`.
fn known_words(takes_stream: bool) -> KnownWords
    ensures { known_of result ≡ spec.known_words takes_stream }
{
    KnownWords {
        options: &OPTIONS,
        words: &["describe", "units", "why", "explain", "next", "--"],
        names: false,
        alone: &["-V"],
        required: None,
        barred: barred_word(takes_stream),
    }
}

/// Returns the options and words known before the words are sorted: all options, and all subcommands.
pub(crate) fn sorting_words() -> KnownWords
    ensures { known_of result ≡ spec.sorting_words }
{
    known_words(true)
}

/// Returns the options and words known for an explanation.
pub(crate) fn explain_words() -> KnownWords
    ensures { known_of result ≡ spec.explain_words }
{
    KnownWords {
        options: &EXPLAIN_OPTIONS,
        words: &["explain", "--"],
        names: false,
        alone: &["-V"],
        required: None,
        barred: None,
    }
}

/// Returns the options and words known for a question about new texts.
pub(crate) fn next_words() -> KnownWords
    ensures { known_of result ≡ spec.next_words }
{
    KnownWords {
        options: &NEXT_OPTIONS,
        words: &["next", "--"],
        names: false,
        alone: &["-V"],
        required: None,
        barred: None,
    }
}

// Returns whether units are asked for.
fn is_units(subcommand: Option<Subcommand>) -> bool
    ensures { result ≡ spec.is_units subcommand }
{
    match subcommand {
        Some(Subcommand::Units) => true,
        Some(Subcommand::Whole | Subcommand::Describe | Subcommand::Why) | None => false,
    }
}

// Returns whether the file of a description can be named beside these words.
fn takes_stream(words: &[&str]) -> bool
    ensures { result ≡ spec.takes_stream (map (λ s. s.now) words.now) }
{
    let all = known_words(true);
    is_units(subcommand_of(word_beside(all, words))) && !has_mark(words)
}

/// Returns the options and words known for these words. `--stream` is known only with `units` and without names of
/// files.
pub(crate) fn known_for(words: &[&str]) -> KnownWords
    ensures { known_of result ≡ spec.known_for (map (λ s. s.now) words.now) }
{
    known_words(takes_stream(words))
}
