//! The options of the program, and its usage.
ghost use Rattle.std.specs.Prelude.{◌≡◌};
ghost use Rattle.tsair_cli.specs.Options as spec;
ghost use Rattle.word_faults.specs.KnownWords.{known_of};

use word_faults::{KnownWords, OptionRow, Scale, ValueKind};

/// The options. The values that are read, the faults of words, and the usage follow from these rows.
pub(crate) const OPTIONS: [OptionRow; 12] = [
    OptionRow {
        name: "wait",
        value: ValueKind::Scaled {
            scale: Scale::Ticks,
            least: 0,
            greatest: 8_100_000,
            default: Some(180_000),
        },
        form: "",
        unit: "units of 90 kHz, or with ms or s",
        apart: "",
        help: "how much later than a greater DTS a unit may come, in units of 90 kHz; else 180000",
    },
    OptionRow {
        name: "ahead",
        value: ValueKind::Scaled {
            scale: Scale::Ticks,
            least: 0,
            greatest: 1 << 52,
            default: Some(900_000),
        },
        form: "",
        unit: "units of 90 kHz, or with ms or s",
        apart: "",
        help: "how far after the greatest DTS so far the next may lie; else 900000",
    },
    OptionRow {
        name: "stop",
        value: ValueKind::Flag,
        form: "",
        unit: "",
        apart: "",
        help: "the first unit that is refused ends the run",
    },
    OptionRow {
        name: "hex",
        value: ValueKind::Flag,
        form: "",
        unit: "",
        apart: "",
        help: "packets are written as lines of hexadecimal digits",
    },
    OptionRow {
        name: "slots",
        value: ValueKind::Number {
            least: 0,
            greatest: 1 << 40,
            default: None,
        },
        form: "",
        unit: "packets",
        apart: "",
        help: "the number of packets; else those up to the greatest DTS",
    },
    OptionRow {
        name: "room",
        value: ValueKind::Number {
            least: 1,
            greatest: 1_048_576,
            default: None,
        },
        form: "",
        unit: "units",
        apart: "",
        help: "the units of each stream that may wait; else as many as its lead needs",
    },
    OptionRow {
        name: "switch",
        value: ValueKind::Number {
            least: 0,
            greatest: u64::MAX,
            default: None,
        },
        form: "Q",
        unit: "periods",
        apart: "",
        help: "the periods of the first plan before the second",
    },
    OptionRow {
        name: "state",
        value: ValueKind::File,
        form: "FILE",
        unit: "",
        apart: "",
        help: "the file that has the versions of the texts in force, as a line of a description",
    },
    OptionRow {
        name: "unframe",
        value: ValueKind::Flag,
        form: "",
        unit: "",
        apart: "",
        help: "read frames of records instead of a job, and write their records",
    },
    OptionRow {
        name: "progress",
        value: ValueKind::Flag,
        form: "",
        unit: "",
        apart: "",
        help: "report each second how many bytes are read, on a terminal",
    },
    OptionRow {
        name: "version",
        value: ValueKind::Alone,
        form: "",
        unit: "",
        apart: "",
        help: "or -V, alone: the version, and the logic of its proof",
    },
    OptionRow {
        name: "help",
        value: ValueKind::Alone,
        form: "",
        unit: "",
        apart: "",
        help: "or -h: this text, on standard output",
    },
];

/// The usage, written to the first writer if the words ask for help, to the second on a usage error: a line for each
/// row of the table.
const USAGE: &str = "usage: tsair [OPTIONS] < JOB > PACKETS
  --wait 0..8100000              how much later than a greater DTS a unit may come, in units of 90 kHz; else 180000
  --ahead 0..4503599627370496    how far after the greatest DTS so far the next may lie; else 900000
  --stop                         the first unit that is refused ends the run
  --hex                          packets are written as lines of hexadecimal digits
  --slots 0..1099511627776       the number of packets; else those up to the greatest DTS
  --room 1..1048576              the units of each stream that may wait; else as many as its lead needs
  --switch Q                     the periods of the first plan before the second
  --state FILE                   the file that has the versions of the texts in force, as a line of a description
  --unframe                      read frames of records instead of a job, and write their records
  --progress                     report each second how many bytes are read, on a terminal
  --version                      or -V, alone: the version, and the logic of its proof
  --help                         or -h: this text, on standard output
";

/// Returns the usage.
pub(crate) fn usage() -> &'static str
    ensures { result.now ≡ spec.usage_text }
{
    USAGE
}

/// Returns what the program knows of its command line: options alone.
pub(crate) fn known_words() -> KnownWords
    ensures { known_of result ≡ spec.known_words }
{
    KnownWords {
        options: &OPTIONS,
        words: &[],
        names: false,
        alone: &["-V"],
        required: None,
        barred: None,
    }
}
