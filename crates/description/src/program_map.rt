//! The program map section of a program (ISO/IEC 13818-1, 2.4.4.8).

ghost use Rattle.std.specs.Prelude.{◌≡◌, ◌≤◌, ◌<◌, ◌+◌, ◌++◌, [], ◌∷◌, All, length, sum_by};
ghost use Rattle.std.specs.Option.{option_to_list};
ghost use Rattle.arrayvec.specs.ArrayVec.{array_vec_len};
ghost use Rattle.psi_tables.specs.ProgramMap.{stream_loop_of, streams_of, streams_bytes, pmt_section};
ghost use Rattle.psi_tables.specs.Encoding.{section_bytes};
ghost use Rattle.psi_tables.specs.declared.writing.TheConstants.{GREATEST_TABLE_LENGTH};
ghost use Rattle.description_parts.specs.Ranges.{IsProgram, IsStream, IsTable, longest_section};
ghost use Rattle.description_parts.specs.Tables.{es_info_length, entry_length, shared_length, listed_length};
ghost use Rattle.description_parts.specs.Tables.{pmt_length};
ghost use Rattle.description.specs.SectionBytes as spec;

use crate::description::Description;
use arrayvec::ArrayVec;
use bit_fields::append;
use description_parts::{MapEntry, PrivateTable, ProgramDescription, StreamDescription};
use dvb_tables::{push_iso_639_language, push_stream_identifier};
use psi_tables::{LongHeader, Pmt, Stream, StreamLoop, Streams};

fn push_tag(out: &mut ArrayVec<u8, 709>, tag: Option<u8>)
    requires { array_vec_len out.old + 3 ≤ 709 }
    ensures { out.new.items ≡ out.old.items ++ spec.tag_bytes tag }
{
    match tag {
        None => {}
        Some(tag) => push_stream_identifier(out, tag),
    }
}

fn push_language(out: &mut ArrayVec<u8, 709>, language: Option<[u8; 3]>)
    requires { array_vec_len out.old + 6 ≤ 709 }
    ensures { out.new.items ≡ out.old.items ++ spec.language_bytes language }
{
    match language {
        None => {}
        Some(language) => push_iso_639_language(out, language, 0),
    }
}

// Returns the descriptors of a stream in its PMT.
fn stream_descriptors(stream: &StreamDescription) -> ArrayVec<u8, 709>
    requires { IsStream stream.now }
    ensures value { result.items ≡ spec.stream_descriptors stream.now }
    ensures length { array_vec_len result ≡ es_info_length stream.now }
{
    let mut bytes = ArrayVec::new();
    push_tag(&mut bytes, stream.tag);
    push_language(&mut bytes, stream.language);
    append(&mut bytes, stream.descriptors.as_bytes());
    bytes
}

// Adds a stream, for which there is room.
fn push_stream(entries: &mut StreamLoop, stream: &StreamDescription)
    requires ranges { IsStream stream.now }
    requires room { length (streams_bytes (stream_loop_of entries.old)) + 5 + es_info_length stream.now ≤ 1012 }
    ensures value { stream_loop_of entries.new ≡ stream_loop_of entries.old ++ spec.pmt_stream stream.now ∷ [] }
    ensures length { length (streams_bytes (stream_loop_of entries.new))
        ≡ length (streams_bytes (stream_loop_of entries.old)) + 5 + es_info_length stream.now }
{
    let descriptors = stream_descriptors(stream);
    let entry = Stream {
        stream_type: stream.stream_type,
        elementary_pid: stream.pid,
        descriptors: descriptors.as_slice(),
    };
    match entries.push(&entry) {
        Ok(()) => {}
        Err(_) => unreachable!(),
    }
}

// Returns the streams of the program of a number.
fn program_streams(number: u16, streams: &[StreamDescription]) -> StreamLoop
    requires ranges { All IsStream streams.now }
    requires room { sum_by (entry_length number) streams.now ≤ 1012 }
    ensures value { stream_loop_of result ≡ spec.pmt_streams number streams.now }
    ensures length { length (streams_bytes (stream_loop_of result)) ≡ sum_by (entry_length number) streams.now }
{
    let mut entries = StreamLoop::new();
    for stream in streams {
        if stream.program == number {
            push_stream(&mut entries, stream);
        }
    }
    entries
}

// Adds a stream, for which there is room, where the program of a number shares it.
fn push_if_shared(entries: &mut StreamLoop, number: u16, stream: &StreamDescription)
    requires ranges { IsStream stream.now }
    requires room { length (streams_bytes (stream_loop_of entries.old)) + shared_length number stream.now ≤ 1012 }
    ensures value { stream_loop_of entries.new
        ≡ stream_loop_of entries.old ++ spec.pmt_shared number (stream.now ∷ []) }
    ensures length { length (streams_bytes (stream_loop_of entries.new))
        ≡ length (streams_bytes (stream_loop_of entries.old)) + shared_length number stream.now }
{
    if stream.shared_with.contains(number) {
        push_stream(entries, stream);
    }
}

// Adds the streams that the program of a number shares.
fn push_shared(entries: &mut StreamLoop, number: u16, streams: &[StreamDescription])
    requires ranges { All IsStream streams.now }
    requires room { length (streams_bytes (stream_loop_of entries.old))
        + sum_by (shared_length number) streams.now ≤ 1012 }
    ensures value { stream_loop_of entries.new ≡ stream_loop_of entries.old ++ spec.pmt_shared number streams.now }
    ensures length { length (streams_bytes (stream_loop_of entries.new))
        ≡ length (streams_bytes (stream_loop_of entries.old)) + sum_by (shared_length number) streams.now }
{
    for stream in streams {
        push_if_shared(entries, number, stream);
    }
}

// Adds the entry of a table on a PID, for which there is room.
fn push_entry(entries: &mut StreamLoop, pid: u16, entry: &MapEntry)
    requires pid { pid < 8192 }
    requires room { length (streams_bytes (stream_loop_of entries.old)) + 5 + length entry.now.descriptors ≤ 1012 }
    ensures value { stream_loop_of entries.new ≡ stream_loop_of entries.old ++ spec.table_stream pid entry.now ∷ [] }
    ensures length { length (streams_bytes (stream_loop_of entries.new))
        ≡ length (streams_bytes (stream_loop_of entries.old)) + 5 + length entry.now.descriptors }
{
    let entry = Stream {
        stream_type: entry.stream_type,
        elementary_pid: pid,
        descriptors: entry.descriptors.as_bytes(),
    };
    match entries.push(&entry) {
        Ok(()) => {}
        Err(_) => unreachable!(),
    }
}

// Adds a table, for which there is room, where the program of a number names it.
fn push_table(entries: &mut StreamLoop, number: u16, table: &PrivateTable)
    requires ranges { IsTable table.now }
    requires room { length (streams_bytes (stream_loop_of entries.old)) + listed_length number table.now ≤ 1012 }
    ensures value { stream_loop_of entries.new
        ≡ stream_loop_of entries.old ++ option_to_list (spec.pmt_table number table.now) }
    ensures length { length (streams_bytes (stream_loop_of entries.new))
        ≡ length (streams_bytes (stream_loop_of entries.old)) + listed_length number table.now }
{
    match table.entry_in(number) {
        None => {}
        Some(entry) => push_entry(entries, table.pid(), entry),
    }
}

// Adds the tables that the program of a number names.
fn push_tables(entries: &mut StreamLoop, number: u16, tables: &[PrivateTable])
    requires ranges { All IsTable tables.now }
    requires room { length (streams_bytes (stream_loop_of entries.old))
        + sum_by (listed_length number) tables.now ≤ 1012 }
    ensures value { stream_loop_of entries.new ≡ stream_loop_of entries.old ++ spec.pmt_tables number tables.now }
    ensures length { length (streams_bytes (stream_loop_of entries.new))
        ≡ length (streams_bytes (stream_loop_of entries.old)) + sum_by (listed_length number) tables.now }
{
    for table in tables {
        push_table(entries, number, table);
    }
}

impl Description {
    fn entries_on_air(&self, number: u16) -> StreamLoop
        requires { spec.entries_length self.now number ≤ 1012 }
        ensures value { stream_loop_of result ≡ spec.pmt_entries self.now number }
        ensures length { length (streams_bytes (stream_loop_of result)) ≡ spec.entries_length self.now number }
    {
        let mut entries = program_streams(number, self.streams());
        push_shared(&mut entries, number, self.streams());
        push_tables(&mut entries, number, self.private_tables());
        entries
    }

    // Returns what the map of a program names: nothing if the program is off air.
    fn map_entries(&self, program: &ProgramDescription) -> StreamLoop
        requires { spec.entries_length self.now program.now.number ≤ 1012 }
        ensures value { stream_loop_of result ≡ spec.entries_of self.now program.now }
        ensures length { length (streams_bytes (stream_loop_of result))
            ≤ spec.entries_length self.now program.now.number }
    {
        if program.is_on_air() {
            self.entries_on_air(program.number())
        } else {
            StreamLoop::new()
        }
    }

    /// Writes the program map section of a program under a version.
    pub(crate) fn write_pmt(
        &self,
        program: &ProgramDescription,
        version: u8,
        out: &mut ArrayVec<u8, 4096>,
    )
        requires ranges { IsProgram program.now }
        requires fits { pmt_length self.now program.now ≤ longest_section }
        requires version { version < 32 }
        ensures { out.new.items ≡ section_bytes (pmt_section (spec.pmt_of self.now program.now version)) }
    {
        let entries = self.map_entries(program);
        write_section(
            LongHeader::single(program.number(), version),
            program.pcr_pid(),
            program.descriptors().as_bytes(),
            entries.streams(),
            out,
        );
    }
}

#[tactic(auto, using(psi_tables::proofs::StreamEncodings::length_pmt_body))]
fn write_section<'a>(
    header: LongHeader,
    pcr_pid: u16,
    program_info: &'a [u8],
    streams: Streams<'a>,
    out: &mut ArrayVec<u8, 4096>,
)
    requires version { header.version_number < 32 }
    requires pid { pcr_pid < 8192 }
    requires room { 13 + length program_info.now + length (streams_bytes (streams_of streams)) ≤ GREATEST_TABLE_LENGTH }
    ensures { out.new.items ≡ section_bytes (pmt_section (record {
      header = header;
      pcr_pid = pcr_pid;
      program_info = program_info.now;
      streams = streams_of streams.entry;
    })) }
{
    let section = Pmt {
        header,
        pcr_pid,
        program_info,
        streams,
    };
    match section.write_to(out) {
        Ok(()) => {}
        Err(_) => unreachable!(),
    }
}
