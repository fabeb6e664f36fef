//! PAT and PMTs in force in a transport stream.
//!
//! `association` says which programs the program association table in force names (`specs/Association`,
//! `specs/ProgramLists`), `program_map` which program map table of a program is the last (`specs/ProgramMaps`),
//! `map_places` where it is (`specs/MapPlaces`), `changed_maps` at which packets maps change, and `known_tables` which
//! programs and maps are known so far (`specs/KnownTables`).
#![tactic(auto)]

mod association;
mod changed_maps;
mod known_tables;
mod map_descriptors;
pub mod map_places;
mod program_list;
mod program_map;
pub mod sections;

pub use association::{Association, association_change, named_programs};
pub use changed_maps::{MapChanges, map_changes};
pub use known_tables::KnownTables;
pub use map_places::{map_key, program_found};
pub use program_map::{MapPart, any_map, last_program_map};
pub use sections::section_on;
