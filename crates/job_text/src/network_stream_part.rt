//! Another transport stream of the network of a service description.

ghost use Rattle.std.specs.Prelude.{◌≡◌, ◌++◌, OnOk, string_bytes};
ghost use Rattle.std.specs.List.{flat_map};
ghost use Rattle.job_text.specs.Fields.{network_ids, network_stream_numbers};
ghost use Rattle.job_text.specs.KeyLines.{number_lines};
ghost use Rattle.job_text.specs.Texts.{network_stream_front, network_stream_text};

use crate::key_line::{write_header, write_hex, write_numbers};
use std::alloc::{AllocError, Allocator};
use std::marker::Model;

/// Another transport stream of the network in its network information table (EN 300 468, 5.2.1).
#[derive(Drop)]
pub struct NetworkStreamPart {
    pub transport_stream_id: u16,
    pub original_network_id: u16,
    /// Whole descriptors of this transport stream.
    pub descriptors: Vec<u8>,
}

// A contract sees its descriptors as a list.
impl Model for NetworkStreamPart {
    ghost use Rattle.dvb_tables.specs.TransportStreams.{TransportStreamView};

    ghost Value = { TransportStreamView };

    ghost view = { λ s. record {
      transport_stream_id = s.transport_stream_id;
      original_network_id = s.original_network_id;
      descriptors = s.descriptors.items;
    } };
}

// Appends the lines of a transport stream's numbers.
fn write_ids<A: Allocator>(
    original_network_id: u16,
    transport_stream_id: u16,
    text: &mut String<A>,
) -> Result<(), AllocError>
    ensures { OnOk result (string_bytes text.new ≡ string_bytes text.old
        ++ number_lines (network_ids original_network_id transport_stream_id)) }
{
    let numbers = [
        ("original_network_id", original_network_id as u64),
        ("ts_id", transport_stream_id as u64),
    ];
    write_numbers(text, &numbers)
}

impl NetworkStreamPart {
    // Appends an empty line, `[[network.stream]]`, and its lines: every key, but `descriptors` only if there are any.
    fn write_text<A: Allocator + Clone>(&self, text: &mut String<A>) -> Result<(), AllocError>
        ensures { OnOk result (string_bytes text.new ≡ string_bytes text.old ++ network_stream_text self.now) }
    {
        self.write_front(text)?;
        self.write_numbers(text)
    }

    // Appends its first lines.
    fn write_front<A: Allocator + Clone>(&self, text: &mut String<A>) -> Result<(), AllocError>
        ensures { OnOk result (string_bytes text.new ≡ string_bytes text.old ++ network_stream_front self.now) }
    {
        write_header(text, "network.stream")?;
        write_hex(text, "descriptors", self.descriptors.as_slice())
    }

    // Appends the lines of its numbers.
    fn write_numbers<A: Allocator>(&self, text: &mut String<A>) -> Result<(), AllocError>
        ensures { OnOk result (string_bytes text.new ≡ string_bytes text.old
            ++ number_lines (network_stream_numbers self.now)) }
    {
        write_ids(self.original_network_id, self.transport_stream_id, text)
    }
}

/// Appends the lines of all these transport streams.
pub(crate) fn write_streams<A: Allocator + Clone>(
    streams: &[NetworkStreamPart],
    text: &mut String<A>,
) -> Result<(), AllocError>
    ensures { OnOk result (string_bytes text.new
        ≡ string_bytes text.old ++ flat_map network_stream_text streams.now) }
{
    for stream in streams {
        stream.write_text(text)?;
    }
    Ok(())
}
