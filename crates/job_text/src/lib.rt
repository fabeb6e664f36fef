//! A service description written in TOML, part by part.
//!
//! `Heading`, `EventPart`, `NetworkPart` (with `NetworkStreamPart`), `ProgramPart`, `StreamPart` (with `FramingPart`) and
//! `TablePart` are the parts of a description; each appends its lines. The heading comes first, then the events, the network if there is one, the programs, the
//! streams and the private tables. `specs/Documents` says which keys and values a part has, `specs/Texts` how they are
//! written, `specs/Notes` and `ProfileWords` which comment is beside a number, and the law `texts_are_read` that TOML's
//! grammar reads the whole as that document.
#![tactic(auto)]

mod event_part;
mod framing_part;
mod heading;
mod key_line;
mod laws;
mod measure;
mod network_part;
mod network_stream_part;
mod note;
mod profile_words;
mod program_part;
mod stream_part;
mod table_part;

pub use event_part::EventPart;
pub use framing_part::FramingPart;
pub use heading::Heading;
pub use laws::{notes_are_shown, texts_are_read};
pub use network_part::NetworkPart;
pub use network_stream_part::NetworkStreamPart;
pub use program_part::ProgramPart;
pub use stream_part::StreamPart;
pub use table_part::TablePart;
