//! The rows of options that several programs have.

use word_faults::{OptionRow, Scale, ValueKind};

/// The rate.
pub const RATE: OptionRow = OptionRow {
    name: "rate",
    value: ValueKind::Scaled {
        scale: Scale::Bits,
        least: 100_000,
        greatest: 100_000_000,
        default: None,
    },
    form: "",
    unit: "bits a second, or with k or M",
    apart: "",
    help: "bits a second; else the first tried rate with a plan",
};

/// The programs that are taken.
pub const PROGRAM: OptionRow = OptionRow {
    name: "program",
    value: ValueKind::Numbers { greatest: 65_535 },
    form: "N,..",
    unit: "",
    apart: "",
    help: "the programs that are taken",
};

/// PIDs that are left out.
pub const WITHOUT: OptionRow = OptionRow {
    name: "without",
    value: ValueKind::Numbers { greatest: 8_191 },
    form: "PID,..",
    unit: "",
    apart: "",
    help: "PIDs that are left out",
};

/// Buffers of PIDs.
pub const BUFFERS: OptionRow = OptionRow {
    name: "buffers",
    value: ValueKind::Buffers,
    form: "PID:RX:MAIN,..",
    unit: "bits a second and bytes",
    apart: "",
    help: "buffers of a PID, in bits a second and bytes",
};

/// The greatest lead of a unit.
pub const LEAD: OptionRow = OptionRow {
    name: "lead",
    value: ValueKind::Scaled {
        scale: Scale::Ticks,
        least: 1,
        greatest: 90_000,
        default: Some(90_000),
    },
    form: "",
    unit: "units of 90 kHz, or with ms or s",
    apart: "",
    help: "the greatest lead of a unit, in units of 90 kHz",
};

/// The most frames of sound of a PES packet.
pub const FRAMES: OptionRow = OptionRow {
    name: "frames",
    value: ValueKind::Number {
        least: 1,
        greatest: 64,
        default: None,
    },
    form: "",
    unit: "",
    apart: "",
    help: "the most frames of sound of a PES packet; else the packets stay as they are",
};

/// By what packets are declared.
pub const DECLARE: OptionRow = OptionRow {
    name: "declare",
    value: ValueKind::Declare,
    form: "groups|time",
    unit: "",
    apart: "",
    help: "by what packets are declared; else by groups if they ask for little more",
};

/// The greatest time between clock references.
pub const PCR: OptionRow = OptionRow {
    name: "pcr",
    value: ValueKind::Scaled {
        scale: Scale::Millis,
        least: 1,
        greatest: 100,
        default: Some(40),
    },
    form: "",
    unit: "ms",
    apart: "",
    help: "the greatest time between clock references, in ms",
};

/// The moment of the first packet.
pub const START: OptionRow = OptionRow {
    name: "start",
    value: ValueKind::Moment,
    form: "YYYY-MM-DDThh:mm:ss",
    unit: "the years 1970 to 2037",
    apart: "",
    help: "the moment of the first packet",
};

/// Which programs share a clock.
pub const CLOCK: OptionRow = OptionRow {
    name: "clock",
    value: ValueKind::Clock,
    form: "each|one",
    unit: "",
    apart: "",
    help: "which programs share a clock: none or all; else those without video",
};

/// What the system clock shows as the run begins.
pub const BASE: OptionRow = OptionRow {
    name: "base",
    value: ValueKind::Base,
    form: "",
    unit: "units of 90 kHz",
    apart: "",
    help: "the system clock as the run begins, in units of 90 kHz, or that of the input",
};

/// The network.
pub const NETWORK: OptionRow = OptionRow {
    name: "network",
    value: ValueKind::Network,
    form: "ID:NAME[:ORIGINAL]",
    unit: "",
    apart: "",
    help: "the network, and original_network_id",
};

/// The names of services.
pub const NAME: OptionRow = OptionRow {
    name: "name",
    value: ValueKind::Names,
    form: "N:NAME[:PROVIDER],..",
    unit: "",
    apart: "",
    help: "the names of the services of programs",
};

/// Whether DTS are made from PTS.
pub const MAKE_DTS: OptionRow = OptionRow {
    name: "make-dts",
    value: ValueKind::Flag,
    form: "",
    unit: "",
    apart: "",
    help: "DTS are made from PTS",
};

/// Whether the parts of a recording that was joined from several come one after another.
pub const JOINED: OptionRow = OptionRow {
    name: "joined",
    value: ValueKind::Flag,
    form: "",
    unit: "",
    apart: "",
    help: "a recording that was joined from several: its parts come one after another",
};

/// Whether the units at which a decoder may begin are marked.
pub const MARK_ACCESS: OptionRow = OptionRow {
    name: "mark-access",
    value: ValueKind::Flag,
    form: "",
    unit: "",
    apart: "",
    help: "units at which a decoder may begin have random_access_indicator",
};

/// PIDs whose units are aligned.
pub const ALIGNED: OptionRow = OptionRow {
    name: "aligned",
    value: ValueKind::Numbers { greatest: 8_191 },
    form: "PID,..",
    unit: "",
    apart: "",
    help: "PIDs whose units have data_alignment_indicator",
};

/// Whether a stream that cannot be carried refuses the input.
pub const STRICT: OptionRow = OptionRow {
    name: "strict",
    value: ValueKind::Flag,
    form: "",
    unit: "",
    apart: "--lenient",
    help: "a stream that cannot be carried refuses the input; else it is left out",
};

/// Whether a program is written without a picture or sound that can't be carried.
pub const LENIENT: OptionRow = OptionRow {
    name: "lenient",
    value: ValueKind::Flag,
    form: "",
    unit: "",
    apart: "--strict",
    help: "a program may lose its only picture or sound; else that refuses the input",
};

/// The file that is written.
pub const OUTPUT: OptionRow = OptionRow {
    name: "output",
    value: ValueKind::File,
    form: "FILE",
    unit: "",
    apart: "--stream",
    help: "or -o: the file that is written; else standard output",
};

/// Whether only refusals are reported.
pub const QUIET: OptionRow = OptionRow {
    name: "quiet",
    value: ValueKind::Flag,
    form: "",
    unit: "",
    apart: "--verbose",
    help: "or -q: report only why nothing is written",
};

/// Whether lines are reported too that say of no loss.
pub const VERBOSE: OptionRow = OptionRow {
    name: "verbose",
    value: ValueKind::Flag,
    form: "",
    unit: "",
    apart: "--quiet",
    help: "or -v: report also what is left out without a loss",
};

/// Whether progress is reported.
pub const PROGRESS: OptionRow = OptionRow {
    name: "progress",
    value: ValueKind::Flag,
    form: "",
    unit: "",
    apart: "",
    help: "report each second how many bytes are read, on a terminal",
};

/// A call for the version.
pub const VERSION: OptionRow = OptionRow {
    name: "version",
    value: ValueKind::Alone,
    form: "",
    unit: "",
    apart: "",
    help: "or -V, alone: the version, and the logic of its proof",
};

/// A call for help.
pub const HELP: OptionRow = OptionRow {
    name: "help",
    value: ValueKind::Alone,
    form: "",
    unit: "",
    apart: "",
    help: "or -h: this text, on standard output",
};
