//! The texts of service information as characters (EN 300 468, annex A).
//!
//! The first bytes of a text name its character table (`specs/CharacterTables`); `decode_text` reads its characters by
//! this table, as UTF-8 (`specs/Texts`).
#![tactic(auto)]

mod character_sets;
mod character_tables;
mod texts;

pub use texts::{decode_text, has_unread};
