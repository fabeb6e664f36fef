//! The options of the program, and its usage.
ghost use Rattle.std.specs.Prelude.{◌≡◌};
ghost use Rattle.tsview_cli.specs.Options as spec;
ghost use Rattle.word_faults.specs.KnownWords.{known_of};

use word_faults::{KnownWords, OptionRow, Scale, ValueKind};

/// The options and the name of a file. The reader, the first faulty word and the usage follow these rows.
pub(crate) const OPTIONS: [OptionRow; 15] = [
    OptionRow {
        name: "file",
        value: ValueKind::Word,
        form: "",
        unit: "",
        apart: "",
        help: "the file with the packets; else, or with -, they come on standard input",
    },
    OptionRow {
        name: "rate",
        value: ValueKind::Scaled {
            scale: Scale::Bits,
            least: 100_000,
            greatest: 100_000_000,
            default: None,
        },
        form: "",
        unit: "bits a second, or with k or M",
        apart: "--arrival-stamps",
        help: "the rate of the stream in bits a second; else by its clock references",
    },
    OptionRow {
        name: "arrival-stamps",
        value: ValueKind::Flag,
        form: "",
        unit: "",
        apart: "--rate",
        help: "packets of 192 bytes arrive by the stamps before them",
    },
    OptionRow {
        name: "window",
        value: ValueKind::Scaled {
            scale: Scale::Millis,
            least: 10,
            greatest: 3_600_000,
            default: Some(1_000),
        },
        form: "",
        unit: "ms, or with s",
        apart: "",
        help: "the length of a window in ms; else 1000",
    },
    OptionRow {
        name: "from",
        value: ValueKind::Scaled {
            scale: Scale::Millis,
            least: 0,
            greatest: 1_000_000_000,
            default: None,
        },
        form: "",
        unit: "ms, or with s",
        apart: "",
        help: "leave out faults and windows that end before this time in ms",
    },
    OptionRow {
        name: "to",
        value: ValueKind::Scaled {
            scale: Scale::Millis,
            least: 0,
            greatest: 1_000_000_000,
            default: None,
        },
        form: "",
        unit: "ms, or with s",
        apart: "",
        help: "leave out faults and windows that begin after this time in ms",
    },
    OptionRow {
        name: "json",
        value: ValueKind::Flag,
        form: "",
        unit: "",
        apart: "--page",
        help: "a JSON object a line",
    },
    OptionRow {
        name: "quiet",
        value: ValueKind::Flag,
        form: "",
        unit: "",
        apart: "",
        help: "the verdict alone",
    },
    OptionRow {
        name: "page",
        value: ValueKind::Flag,
        form: "",
        unit: "",
        apart: "--json",
        help: "a page of HTML with pictures instead",
    },
    OptionRow {
        name: "program",
        value: ValueKind::Numbers { greatest: 65_535 },
        form: "N,..",
        unit: "",
        apart: "",
        help: "view the streams of these programs alone",
    },
    OptionRow {
        name: "buffers",
        value: ValueKind::Buffers,
        form: "PID:RX:MAIN,..",
        unit: "bits a second and bytes",
        apart: "",
        help: "buffers of a PID, in bits a second and bytes",
    },
    OptionRow {
        name: "progress",
        value: ValueKind::Flag,
        form: "",
        unit: "",
        apart: "",
        help: "report each second how many bytes are read, on a terminal",
    },
    OptionRow {
        name: "plan",
        value: ValueKind::Alone,
        form: "",
        unit: "",
        apart: "",
        help: "alone: a page of HTML of the plan in a job",
    },
    OptionRow {
        name: "version",
        value: ValueKind::Alone,
        form: "",
        unit: "",
        apart: "",
        help: "or -V, alone: the version, and the logic of its proof",
    },
    OptionRow {
        name: "help",
        value: ValueKind::Alone,
        form: "",
        unit: "",
        apart: "",
        help: "or -h: this text, on standard output",
    },
];

/// The usage, written to the first writer if the words ask for help, to the second on a usage error: a line for each
/// row of the table.
const USAGE: &str = "usage: tsview [OPTIONS] [FILE|-] < PACKETS
       tsview --plan < JOB
  --rate 100000..100000000       the rate of the stream in bits a second; else by its clock references
  --arrival-stamps               packets of 192 bytes arrive by the stamps before them
  --window 10..3600000           the length of a window in ms; else 1000
  --from 0..1000000000           leave out faults and windows that end before this time in ms
  --to 0..1000000000             leave out faults and windows that begin after this time in ms
  --json                         a JSON object a line
  --quiet                        the verdict alone
  --page                         a page of HTML with pictures instead
  --program N,..                 view the streams of these programs alone
  --buffers PID:RX:MAIN,..       buffers of a PID, in bits a second and bytes
  --progress                     report each second how many bytes are read, on a terminal
  --plan                         alone: a page of HTML of the plan in a job
  --version                      or -V, alone: the version, and the logic of its proof
  --help                         or -h: this text, on standard output
";

/// Returns the usage.
pub(crate) fn usage() -> &'static str
    ensures { result.now ≡ spec.usage_text }
{
    USAGE
}

/// Returns what the program knows of its command line: options, and the name of a file.
pub(crate) fn known_words() -> KnownWords
    ensures { known_of result ≡ spec.known_words }
{
    KnownWords {
        options: &OPTIONS,
        words: &[],
        names: true,
        alone: &["-V"],
        required: None,
        barred: None,
    }
}
