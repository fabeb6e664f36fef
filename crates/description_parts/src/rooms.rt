//! The packets that a description reserves for the sections of its tables.

/// The packets of each section of the PAT, the SDT, the NIT and the EIT: a section that needs fewer leaves null packets, and one
/// packet reserves nothing.
#[derive(Clone, Copy)]
pub struct Rooms {
    pub pat: u8,
    pub sdt: u8,
    pub nit: u8,
    /// Without meaning if the EIT has sections of programs with an event alone.
    pub eit: u8,
}
