//! The network of a service description.

ghost use Rattle.std.specs.Prelude.{◌≡◌, ◌++◌, OnOk, string_bytes};
ghost use Rattle.job_text.specs.DescriptionParts.{network_view};
ghost use Rattle.job_text.specs.Texts.{network_names, network_own, network_text};

use crate::key_line::{write_hex, write_named, write_number, write_string, write_table_header};
use crate::network_stream_part::{NetworkStreamPart, write_streams};
use std::alloc::{AllocError, Allocator};

/// The network of a description's network information table (EN 300 468, 5.2.1).
#[derive(Clone, Copy)]
pub struct NetworkPart<'a> {
    /// network_id.
    pub id: u16,
    pub name: &'a str,
    /// All descriptors of the network, if its name does not give exactly these.
    pub network_descriptors: Option<&'a [u8]>,
    /// Whole descriptors of this transport stream in the table.
    pub descriptors: &'a [u8],
    /// The other transport streams in the table.
    pub streams: &'a [NetworkStreamPart],
}

impl NetworkPart<'_> {
    /// Appends an empty line, `[network]`, and its lines: every key, but `descriptors` only if there are any, and either
    /// `name`, or `network_descriptors` with the name as a comment; then `[[network.stream]]` with the lines of each other
    /// transport stream.
    pub fn write_text<A: Allocator + Clone>(&self, text: &mut String<A>) -> Result<(), AllocError>
        ensures { OnOk result (string_bytes text.new ≡ string_bytes text.old ++ network_text (network_view self.now)) }
    {
        self.write_own(text)?;
        write_streams(self.streams, text)
    }

    // Appends the lines without other transport streams.
    fn write_own<A: Allocator + Clone>(&self, text: &mut String<A>) -> Result<(), AllocError>
        ensures { OnOk result (string_bytes text.new ≡ string_bytes text.old ++ network_own (network_view self.now)) }
    {
        write_table_header(text, "network")?;
        write_hex(text, "descriptors", self.descriptors)?;
        write_number(text, "id", self.id as u64)?;
        self.write_names(text)
    }

    // Appends the line of its name, or of all its descriptors.
    fn write_names<A: Allocator + Clone>(&self, text: &mut String<A>) -> Result<(), AllocError>
        ensures { OnOk result (string_bytes text.new ≡ string_bytes text.old
            ++ network_names (network_view self.now).network_descriptors (network_view self.now)) }
    {
        match self.network_descriptors {
            None => write_string(text, "name", self.name),
            Some(bytes) => write_named(text, "network_descriptors", bytes, self.name),
        }
    }
}
