//! An elementary stream of a service description.

ghost use Rattle.std.specs.Prelude.{◌≡◌, ◌++◌, OnOk, codes, option_map, string_bytes};
ghost use Rattle.job_text.specs.DescriptionParts.{framing_view, stream_view};
ghost use Rattle.job_text.specs.Fields.{burst_numbers, group_numbers};
ghost use Rattle.job_text.specs.Fields.{size_numbers, pace_numbers, leak_numbers};
ghost use Rattle.job_text.specs.KeyLines.{hex_line, number_if_any, number_lines};
ghost use Rattle.job_text.specs.Texts.{framing_if_any, stream_text, stream_front, stream_times, stream_place, stream_end};

use crate::framing_part::{FramingPart, write_framing};
use crate::key_line::{
    write_header, write_hex, write_list, write_number, write_numbers, write_type,
};
use std::alloc::{AllocError, Allocator};
use stream_coding::ProfileLevel;
use unit_timing::allowance::Allowance;
use unit_timing::multiplexing_buffer::MultiplexingBuffer;

/// An elementary stream and its units in a description (ISO/IEC 13818-1, 2.4.2 and 2.4.4.8). It has no component_tag
/// and no language of its own: their descriptors are among `descriptors`.
#[derive(Clone, Copy)]
pub struct StreamPart<'a> {
    /// The number of its program.
    pub program: u16,
    pub pid: u16,
    /// stream_id of its PES packets: 189, or 192 to 239.
    pub stream_id: u8,
    pub stream_type: u8,
    /// The least time between two units, in units of 90 kHz.
    pub interval: u32,
    /// The greatest unit, in bytes.
    pub size: u32,
    /// How long before its decoding time a unit may be sent, in units of 90 kHz.
    pub lead: u32,
    /// How long after its decoding a unit may be presented, in units of 90 kHz; a second if the description does not
    /// say it.
    pub pts_limit: Option<u32>,
    /// The rate at which its transport buffer is emptied, in bits a second.
    pub rx: u32,
    /// Its main buffer, in bytes; its elementary stream buffer if it has a multiplexing buffer.
    pub main: u32,
    /// Whole descriptors of the stream in its PMT.
    pub descriptors: &'a [u8],
    /// The most packets of successive units.
    pub allowance: Allowance,
    /// The numbers of the programs beside its own whose PMTs name it.
    pub shared_with: &'a [u16],
    /// Its multiplexing buffer, if it has one.
    pub multiplexing: Option<MultiplexingBuffer>,
    /// The access units of its units, if these are PES packets that hold several.
    pub framing: Option<FramingPart<'a>>,
    /// The profile and level in its headers, for the comment beside its stream_type.
    pub said: ProfileLevel,
}

impl StreamPart<'_> {
    /// Appends an empty line, `[[stream]]`, and its lines: every key, but `descriptors` and `shared_with` only if there
    /// are any, `pts_limit` only if it has one, `rbx` and `mb` only if it has a multiplexing buffer, the keys of its
    /// access units only if it has a framing, and the keys of its packets by groups or by pace.
    pub fn write_text<A: Allocator + Clone>(&self, text: &mut String<A>) -> Result<(), AllocError>
        ensures { OnOk result (string_bytes text.new ≡ string_bytes text.old ++ stream_text (stream_view self.now)) }
    {
        self.write_front(text)?;
        self.write_times(text)?;
        self.write_place(text)?;
        self.write_end(text)
    }

    // Appends the line of its burst, if it is declared by pace.
    fn write_burst<A: Allocator>(&self, text: &mut String<A>) -> Result<(), AllocError>
        ensures { OnOk result (string_bytes text.new ≡ string_bytes text.old
            ++ number_lines (burst_numbers self.now.allowance)) }
    {
        match self.allowance {
            Allowance::Groups { .. } => Ok(()),
            Allowance::Pace { burst, .. } => {
                let numbers = [("burst_packets", burst as u64)];
                write_numbers(text, &numbers)
            }
        }
    }

    // Writes the lines of its access units, if it has a framing.
    fn write_frames<A: Allocator>(&self, text: &mut String<A>) -> Result<(), AllocError>
        ensures { OnOk result (string_bytes text.new ≡ string_bytes text.old
            ++ framing_if_any (option_map framing_view self.now.framing)) }
    {
        match self.framing {
            None => Ok(()),
            Some(framing) => write_framing(framing, text),
        }
    }

    // Appends the lines of its groups, if it is declared by groups.
    fn write_groups<A: Allocator>(&self, text: &mut String<A>) -> Result<(), AllocError>
        ensures { OnOk result (string_bytes text.new ≡ string_bytes text.old
            ++ number_lines (group_numbers self.now.allowance)) }
    {
        match self.allowance {
            Allowance::Groups { units, packets } => {
                let numbers = [("group", units as u64), ("group_packets", packets as u64)];
                write_numbers(text, &numbers)
            }
            Allowance::Pace { .. } => Ok(()),
        }
    }

    // Writes the lines of its descriptors, its access units and its groups, if it has them.
    fn write_units<A: Allocator + Clone>(&self, text: &mut String<A>) -> Result<(), AllocError>
        ensures { OnOk result (string_bytes text.new ≡ string_bytes text.old
            ++ (hex_line (codes "descriptors") self.now.descriptors.now
            ++ (framing_if_any (option_map framing_view self.now.framing)
            ++ number_lines (group_numbers self.now.allowance)))) }
    {
        write_hex(text, "descriptors", self.descriptors)?;
        self.write_frames(text)?;
        self.write_groups(text)
    }

    // Writes the lines up to its group, or up to its access units.
    fn write_front<A: Allocator + Clone>(&self, text: &mut String<A>) -> Result<(), AllocError>
        ensures { OnOk result (string_bytes text.new ≡ string_bytes text.old ++ stream_front (stream_view self.now)) }
    {
        write_header(text, "stream")?;
        self.write_burst(text)?;
        self.write_units(text)
    }

    // Appends the line of its pace, if it is declared by pace.
    fn write_pace<A: Allocator>(&self, text: &mut String<A>) -> Result<(), AllocError>
        ensures { OnOk result (string_bytes text.new ≡ string_bytes text.old
            ++ number_lines (pace_numbers self.now.allowance)) }
    {
        match self.allowance {
            Allowance::Groups { .. } => Ok(()),
            Allowance::Pace { pace, .. } => write_number(text, "pace", pace as u64),
        }
    }

    // Writes the line of the size of its multiplexing buffer, if it has one.
    fn write_size<A: Allocator>(&self, text: &mut String<A>) -> Result<(), AllocError>
        ensures { OnOk result (string_bytes text.new ≡ string_bytes text.old
            ++ number_lines (size_numbers self.now.multiplexing)) }
    {
        match self.multiplexing {
            None => Ok(()),
            Some(buffer) => write_number(text, "mb", buffer.size as u64),
        }
    }

    // Appends the line of its leak, if it has one.
    fn write_leak<A: Allocator>(&self, text: &mut String<A>) -> Result<(), AllocError>
        ensures { OnOk result (string_bytes text.new ≡ string_bytes text.old
            ++ number_lines (leak_numbers self.now.multiplexing)) }
    {
        match self.multiplexing {
            None => Ok(()),
            Some(buffer) => write_number(text, "rbx", buffer.rbx as u64),
        }
    }

    // Appends the line of its limit, if it has one.
    fn write_limit<A: Allocator>(&self, text: &mut String<A>) -> Result<(), AllocError>
        ensures { OnOk result (string_bytes text.new ≡ string_bytes text.old
            ++ number_lines (number_if_any (codes "pts_limit") self.now.pts_limit)) }
    {
        match self.pts_limit {
            None => Ok(()),
            Some(limit) => write_number(text, "pts_limit", limit as u64),
        }
    }

    // Writes the lines from `id` to `main`, of the size of its multiplexing buffer, and of its pace.
    fn write_times<A: Allocator>(&self, text: &mut String<A>) -> Result<(), AllocError>
        ensures { OnOk result (string_bytes text.new ≡ string_bytes text.old ++ stream_times (stream_view self.now)) }
    {
        let numbers = [
            ("id", self.stream_id as u64),
            ("interval", self.interval as u64),
            ("lead", self.lead as u64),
            ("main", self.main as u64),
        ];
        write_numbers(text, &numbers)?;
        self.write_size(text)?;
        self.write_pace(text)
    }

    // Appends the lines from `pid` to `rx`.
    fn write_place<A: Allocator>(&self, text: &mut String<A>) -> Result<(), AllocError>
        ensures { OnOk result (string_bytes text.new ≡ string_bytes text.old ++ stream_place (stream_view self.now)) }
    {
        let place = [("pid", self.pid as u64), ("program", self.program as u64)];
        let drain = [("rx", self.rx as u64)];
        write_numbers(text, &place)?;
        self.write_limit(text)?;
        self.write_leak(text)?;
        write_numbers(text, &drain)
    }

    // Appends the lines after `rx`.
    fn write_end<A: Allocator>(&self, text: &mut String<A>) -> Result<(), AllocError>
        ensures { OnOk result (string_bytes text.new ≡ string_bytes text.old ++ stream_end (stream_view self.now)) }
    {
        let last = [("size", self.size as u64)];
        write_list(text, "shared_with", self.shared_with)?;
        write_numbers(text, &last)?;
        write_type(text, self.stream_type as u64, self.said)
    }
}
