//! Packetized elementary streams (ISO/IEC 13818-1, 2.4.3.6 and 2.4.3.7): access units, the headers of
//! PES packets, written and read, and the payloads that a PES packet is cut into.
//!
//! Definitions first: `specs/StreamIds` says what each stream_id may carry, `specs/Marks` what packets say of a unit
//! beside its stamps, `specs/PrivateData` where PES_private_data is in a header, `specs/Syntax` is the standard's table
//! of the header's fields, `specs/Reading` reads them from left to right, `specs/Encoding` writes them,
//! `specs/Payloads` has the payloads of a packet.
#![tactic(auto)]

mod access_unit;
mod laws;
mod marks;
mod private_data;
mod reading;
mod refusal;
mod stream_ids;
mod time_stamps;
mod writing;

pub use access_unit::Unit;
pub use laws::{
    header_counts, header_sizes, longer_is_read, marks_are_read, marks_have_sixteen, payloads_join,
    unit_pieces_join, without_marks, written_is_header, written_is_read,
};
pub use marks::{Marks, PesFlags, field_size};
pub use private_data::first_sixteen;
pub use reading::{PesHeader, read_header};
pub use refusal::PesError;
pub use stream_ids::{fits_packet, greatest_size, has_flags, is_unit_id};
pub use time_stamps::Stamps;
pub use writing::{on_wire, packet_size, write_header};
