//! The keys of a description, a row each, in the order of their refusals.

ghost use Rattle.std.specs.Prelude.{◌≡◌, ◌==◌, find, map, option_map};
ghost use Rattle.description_keys.specs.KeyRows.{keys, row_of, rule_of, view};
ghost use Rattle.description_keys.specs.Refusals.{rules};

use crate::key_row::JointKey::{
    BurstPackets, Channel, ClockPid, EitPackets, EntryDescriptors, EntryProgram, EntryType,
    EventDescriptors, EventLanguage, EventName, EventText, Frame, FrameLeft, FrameSize, Frames,
    Group, GroupPackets, Main, Mb, NetworkName, Pace, Rbx, Rx, ServiceDescriptors, SharedClock,
    SharedWith, Size, StreamId, Versions,
};
use crate::key_row::KeyKind::{
    Descriptors, Flag, Joint, LanguageIfAny, Moment, Number, NumberIfAny, NumberOr, OneTable,
    Owner, Pid, Sections, Tables, TextOrEmpty,
};
use crate::key_row::KeyPart::{Document, Event, Network, NetworkStream, Program, Stream, Table};
use crate::key_row::{KeyRow, Row};

/// All keys, in the order of their refusals: a table or an array before its keys.
pub const KEYS: [KeyRow; 82] = [
    Row(
        Document,
        10,
        "rate",
        Number(100_000, 100_000_000),
        " bits a second",
    ),
    Row(Document, 11, "start", Moment, ""),
    Row(
        Document,
        12,
        "base0",
        NumberOr(0, 0, 0x1_ffff_ffff),
        " units of 90 kHz",
    ),
    Row(Document, 13, "ts_id", Number(0, 65_535), ""),
    Row(Document, 14, "original_network_id", Number(0, 65_535), ""),
    Row(Document, 15, "sdt", Flag(false), ""),
    Row(Document, 16, "tdt", Flag(false), ""),
    Row(Document, 17, "transponder", Flag(false), ""),
    Row(
        Document,
        18,
        "clock_pid",
        Joint(SharedClock),
        "a PID, 32 to 8190, beside a program without pcr_pid",
    ),
    Row(Document, 95, "eit", Flag(false), ""),
    Row(
        Document,
        105,
        "eit_packets",
        Joint(EitPackets),
        "2 to 23 packets, beside eit = true",
    ),
    Row(Document, 97, "pat_packets", NumberOr(1, 1, 6), " packets"),
    Row(Document, 98, "sdt_packets", NumberOr(1, 1, 6), " packets"),
    Row(Document, 99, "nit_packets", NumberOr(1, 1, 6), " packets"),
    Row(
        Document,
        103,
        "versions",
        Joint(Versions),
        "an array of texts PAT V, NIT V, SDT V, PMT N V or EIT N V, with a program's number N and a version V of 0 to 31",
    ),
    Row(Document, 20, "network", OneTable, ""),
    Row(Network, 21, "id", Number(0, 65_535), ""),
    Row(
        Network,
        22,
        "name",
        Joint(NetworkName),
        "a text of up to 200 bytes; it may be absent beside network_descriptors",
    ),
    Row(Network, 23, "descriptors", Descriptors(700), ""),
    Row(Network, 24, "network_descriptors", Descriptors(700), ""),
    Row(Network, 25, "stream", Tables(0, 64, 64), ""),
    Row(NetworkStream, 26, "ts_id", Number(0, 65_535), ""),
    Row(
        NetworkStream,
        27,
        "original_network_id",
        Number(0, 65_535),
        "",
    ),
    Row(NetworkStream, 28, "descriptors", Descriptors(700), ""),
    Row(Document, 30, "program", Tables(1, 16, 64), ""),
    Row(Program, 31, "number", Number(1, 65_535), ""),
    Row(Program, 32, "pmt_pid", Pid, ""),
    Row(
        Program,
        33,
        "pcr_pid",
        Joint(ClockPid),
        "a PID, 32 to 8190; it may be absent beside clock_pid",
    ),
    Row(Program, 34, "pcr_limit", NumberOr(40, 1, 100), " ms"),
    Row(Program, 35, "descriptors", Descriptors(700), ""),
    Row(Program, 36, "service_type", NumberOr(1, 0, 255), ""),
    Row(Program, 37, "provider", TextOrEmpty(100), ""),
    Row(Program, 38, "name", TextOrEmpty(100), ""),
    Row(
        Program,
        88,
        "service_descriptors",
        Joint(ServiceDescriptors),
        "hex of whole descriptors, up to 1004 bytes, without service_type, provider and name",
    ),
    Row(Program, 89, "running_status", NumberOr(4, 0, 7), ""),
    Row(Program, 90, "free_ca", Flag(false), ""),
    Row(Program, 91, "eit_schedule", Flag(false), ""),
    Row(
        Program,
        93,
        "lcn",
        Joint(Channel),
        "1 to 1023, in no other program, and only beside [network]",
    ),
    Row(Program, 94, "pmt_packets", NumberOr(1, 1, 6), " packets"),
    Row(Program, 104, "on_air", Flag(true), ""),
    Row(Document, 40, "stream", Tables(0, 32, 254), ""),
    Row(Stream, 41, "program", Owner, ""),
    Row(Stream, 42, "pid", Pid, ""),
    Row(Stream, 43, "id", Joint(StreamId), "189, or 192 to 239"),
    Row(Stream, 44, "type", Number(0, 255), ""),
    Row(
        Stream,
        45,
        "interval",
        Number(1, 90_000),
        " units of 90 kHz",
    ),
    Row(
        Stream,
        46,
        "size",
        Joint(Size),
        "1 to 4000000 bytes for an id of 224 to 239, else 1 to 65522",
    ),
    Row(Stream, 47, "lead", Number(1, 90_000), " units of 90 kHz"),
    Row(
        Stream,
        48,
        "rx",
        Joint(Rx),
        "64000 to 200000000 bits a second, beside main; both may be absent for an id of 192 to 223",
    ),
    Row(
        Stream,
        49,
        "main",
        Joint(Main),
        "1 to 10000000 bytes, beside rx",
    ),
    Row(Stream, 50, "tag", NumberIfAny(0, 255), ""),
    Row(Stream, 51, "language", LanguageIfAny, ""),
    Row(Stream, 52, "descriptors", Descriptors(700), ""),
    Row(
        Stream,
        53,
        "group",
        Joint(Group),
        "1 to 64 units, and not beside burst_packets or pace",
    ),
    Row(
        Stream,
        54,
        "group_packets",
        Joint(GroupPackets),
        "the packets of one greatest unit to group times that number, and not beside burst_packets or pace",
    ),
    Row(
        Stream,
        55,
        "burst_packets",
        Joint(BurstPackets),
        "the packets of one greatest unit to 100000, beside pace",
    ),
    Row(
        Stream,
        56,
        "pace",
        Joint(Pace),
        "1 to 100000000 bits a second, beside burst_packets",
    ),
    Row(
        Stream,
        57,
        "shared_with",
        Joint(SharedWith),
        "an array of up to 15 numbers of other programs, with transponder = true up to 63, each once",
    ),
    Row(
        Stream,
        58,
        "rbx",
        Joint(Rbx),
        "64000 to rx, in bits a second, beside mb",
    ),
    Row(
        Stream,
        59,
        "mb",
        Joint(Mb),
        "1 to 10000000 bytes, beside rbx",
    ),
    Row(
        Stream,
        84,
        "frames",
        Joint(Frames),
        "1 to 64 access units, beside frame and frame_size or frame_left",
    ),
    Row(
        Stream,
        85,
        "frame",
        Joint(Frame),
        "1 to interval / (frames - 1), with frame_rest to 90000, units of 90 kHz, beside frames and frame_size or frame_left",
    ),
    Row(
        Stream,
        86,
        "frame_size",
        Joint(FrameSize),
        "1 to size bytes, beside frames and frame, without frame_left",
    ),
    Row(
        Stream,
        87,
        "pts_limit",
        NumberOr(90_000, 1, 5_400_000),
        " units of 90 kHz",
    ),
    Row(
        Stream,
        100,
        "frame_rest",
        NumberIfAny(0, 90_000),
        " units of 90 kHz",
    ),
    Row(
        Stream,
        101,
        "frame_left",
        Joint(FrameLeft),
        "frames - 1 numbers of 1 to size bytes, none less than the one before, beside frames and frame",
    ),
    Row(Document, 60, "event", Tables(0, 256, 1_024), ""),
    Row(Event, 61, "program", Owner, ""),
    Row(Event, 62, "id", Number(0, 65_535), ""),
    Row(Event, 63, "start", Moment, ""),
    Row(Event, 64, "duration", Number(1, 359_999), " seconds"),
    Row(
        Event,
        65,
        "language",
        Joint(EventLanguage),
        "three ASCII letters; it may be absent beside descriptors",
    ),
    Row(
        Event,
        66,
        "name",
        Joint(EventName),
        "a text of up to 100 bytes; it may be absent beside descriptors",
    ),
    Row(
        Event,
        67,
        "text",
        Joint(EventText),
        "a text of up to 150 bytes; it may be absent beside descriptors",
    ),
    Row(
        Event,
        68,
        "descriptors",
        Joint(EventDescriptors),
        "hex of whole descriptors, up to 4000 bytes, without language, name and text",
    ),
    Row(Document, 70, "table", Tables(0, 16, 64), ""),
    Row(Table, 71, "pid", Pid, ""),
    Row(Table, 72, "limit", Number(1, 30_000), " ms"),
    Row(Table, 73, "sections", Sections, ""),
    Row(
        Table,
        74,
        "program",
        Joint(EntryProgram),
        "the number of a program, beside stream_type and descriptors",
    ),
    Row(
        Table,
        75,
        "stream_type",
        Joint(EntryType),
        "1 to 255, beside program and descriptors",
    ),
    Row(
        Table,
        76,
        "descriptors",
        Joint(EntryDescriptors),
        "hex of whole descriptors, up to 700 bytes, beside program and stream_type",
    ),
];

/// Returns the rows of all keys. They state the rules of the keys: the part, the number, the name and the range of each, in
/// the order of the refusals.
pub fn keys() -> &'static [KeyRow]
    ensures rows { map view result.now ≡ keys }
    ensures rules { map (λ row. rule_of (view row)) result.now ≡ rules }
{
    &KEYS
}

// Returns the first row with this number.
fn row_in(rows: &'static [KeyRow], code: u8) -> Option<&'static KeyRow>
    ensures { option_map (λ row. row.now) result ≡ find (λ row. (view row).code == code) rows.now }
{
    rows.iter().find(|row| row.1 == code)
}

/// Returns the row of the key whose refusal has this number.
pub fn row_of(code: u8) -> Option<&'static KeyRow>
    ensures { option_map (λ row. view row.now) result ≡ row_of code }
{
    row_in(keys(), code)
}
