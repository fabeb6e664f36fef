//! Whether the packets of a stream are in step, 188 bytes apart (ISO/IEC 13818-1, 2.4.3.2), and where that step is
//! lost.
//!
//! A [`Slip`] is a place where a packet gained or lost bytes, so that the packets after it are in another step
//! (`specs/Slips`); the bytes between slips are carried. `laws` say that a stream in step has no slip and is carried
//! unchanged, and that nothing but the bytes of slips is left out. [`next_stretch`] returns the carried bytes while a
//! stream arrives (`specs/Stretches`). [`StreamNotes`] keeps the notes about its packets (`specs/Notes`): its slips,
//! and the fields of adaptation fields and PES headers that are not written again (`specs/Fields`), each once for a PID
//! (`specs/FieldsLeftOut`; found by `specs/FieldMasks`). [`other_packets`] knows packets of other sizes
//! (`specs/OtherPackets`), [`inner_bytes`] makes packets of 188 bytes of them and finds their step again where it is
//! lost (`specs/PacketBytes`), and [`PacketSearch`] finds an input that is no transport stream (`specs/NoStreams`), and
//! its form (`specs/FrontForms`).
#![tactic(auto)]

mod field;
mod file_form;
mod five_search;
mod front_form;
mod laws;
mod left_out;
mod noted_fields;
mod notes;
mod packet_bytes;
mod packet_search;
mod packet_sizes;
mod slip;
mod stretch;
mod sync_bytes;

pub use field::Field;
pub use file_form::FileForm;
pub use front_form::form_of;
pub use laws::{carried_in_step, nothing_else_is_left_out};
pub use left_out::FieldLeftOut;
pub use notes::StreamNotes;
pub use packet_bytes::{InnerBytes, inner_bytes};
pub use packet_search::PacketSearch;
pub use packet_sizes::{OtherPackets, bytes_apart, bytes_before, other_packets};
pub use slip::Slip;
pub use stretch::{REACH, Stretch, next_stretch};
