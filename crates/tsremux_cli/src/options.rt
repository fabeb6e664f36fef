//! The options of the program, and its usage.
ghost use Rattle.std.specs.Prelude.{◌≡◌};
ghost use Rattle.tsremux_cli.specs.Options as spec;
ghost use Rattle.word_faults.specs.KnownWords.{known_of};

use tsjob_cli::rows::{
    ALIGNED, BASE, BUFFERS, CLOCK, DECLARE, FRAMES, HELP, JOINED, LEAD, LENIENT, MAKE_DTS,
    MARK_ACCESS, NAME, NETWORK, OUTPUT, PCR, PROGRAM, PROGRESS, QUIET, RATE, START, STRICT,
    VERBOSE, VERSION, WITHOUT,
};
use word_faults::{KnownWords, OptionRow, ValueKind};

/// The description of a service by hand.
const DESCRIPTION: OptionRow = OptionRow {
    name: "description",
    value: ValueKind::File,
    form: "FILE",
    unit: "",
    apart: "",
    help: "a service by hand: its description; beside it --plan, --records, -o and -q",
};

/// The plan of a service by hand.
const PLAN: OptionRow = OptionRow {
    name: "plan",
    value: ValueKind::File,
    form: "FILE",
    unit: "",
    apart: "",
    help: "with --description: its plan; else a plan is made",
};

/// The access units of a service by hand.
const RECORDS: OptionRow = OptionRow {
    name: "records",
    value: ValueKind::File,
    form: "FILE",
    unit: "",
    apart: "",
    help: "with --description: the records of its access units; else they are the input",
};

/// The options. Which word is a fault, and the usage, follow these rows.
pub(crate) const OPTIONS: [OptionRow; 28] = [
    RATE,
    PROGRAM,
    WITHOUT,
    BUFFERS,
    LEAD,
    FRAMES,
    DECLARE,
    PCR,
    CLOCK,
    START,
    BASE,
    NETWORK,
    NAME,
    MAKE_DTS,
    JOINED,
    MARK_ACCESS,
    ALIGNED,
    STRICT,
    LENIENT,
    DESCRIPTION,
    PLAN,
    RECORDS,
    OUTPUT,
    QUIET,
    VERBOSE,
    PROGRESS,
    VERSION,
    HELP,
];

/// The options of a service by hand.
pub(crate) const HAND_OPTIONS: [OptionRow; 8] = [
    DESCRIPTION,
    PLAN,
    RECORDS,
    OUTPUT,
    QUIET,
    PROGRESS,
    VERSION,
    HELP,
];

/// The usage, written to the first writer if the words ask for help, to the second on a usage error: a line for each
/// option of the table.
const USAGE: &str = "usage: tsremux [OPTIONS] [FILE..|-] -o OUT
       tsremux [OPTIONS] [FILE..|-] > OUT
       tsremux --description FILE [--plan FILE] [--records FILE] -o OUT
  --rate 100000..100000000       bits a second; else the first tried rate with a plan
  --program N,..                 the programs that are taken
  --without PID,..               PIDs that are left out
  --buffers PID:RX:MAIN,..       buffers of a PID, in bits a second and bytes
  --lead 1..90000                the greatest lead of a unit, in units of 90 kHz
  --frames 1..64                 the most frames of sound of a PES packet; else the packets stay as they are
  --declare groups|time          by what packets are declared; else by groups if they ask for little more
  --pcr 1..100                   the greatest time between clock references, in ms
  --clock each|one               which programs share a clock: none or all; else those without video
  --start YYYY-MM-DDThh:mm:ss    the moment of the first packet
  --base 0..8589934591|input     the system clock as the run begins, in units of 90 kHz, or that of the input
  --network ID:NAME[:ORIGINAL]   the network, and original_network_id
  --name N:NAME[:PROVIDER],..    the names of the services of programs
  --make-dts                     DTS are made from PTS
  --joined                       a recording that was joined from several: its parts come one after another
  --mark-access                  units at which a decoder may begin have random_access_indicator
  --aligned PID,..               PIDs whose units have data_alignment_indicator
  --strict                       a stream that cannot be carried refuses the input; else it is left out
  --lenient                      a program may lose its only picture or sound; else that refuses the input
  --description FILE             a service by hand: its description; beside it --plan, --records, -o and -q
  --plan FILE                    with --description: its plan; else a plan is made
  --records FILE                 with --description: the records of its access units; else they are the input
  --output FILE                  or -o: the file that is written; else standard output
  --quiet                        or -q: report only why nothing is written
  --verbose                      or -v: report also what is left out without a loss
  --progress                     report each second how many bytes are read, on a terminal
  --version                      or -V, alone: the version, and the logic of its proof
  --help                         or -h: this text, on standard output
";

/// Returns the usage.
pub(crate) fn usage() -> &'static str
    ensures { result.now ≡ spec.usage_text }
{
    USAGE
}

/// Returns what the program knows of its command line: options, and names of files after `--`.
pub(crate) fn known_words() -> KnownWords
    ensures { known_of result ≡ spec.known_words }
{
    KnownWords {
        options: &OPTIONS,
        words: &["--"],
        names: false,
        alone: &["-V"],
        required: None,
        barred: None,
    }
}

/// Returns what the program knows of the words for a service by hand.
pub(crate) fn hand_words() -> KnownWords
    ensures { known_of result ≡ spec.hand_words }
{
    KnownWords {
        options: &HAND_OPTIONS,
        words: &[],
        names: false,
        alone: &["-V"],
        required: Some("--description"),
        barred: None,
    }
}
