//! The versions of the tables that belong to no program.

/// version_number, 0 to 31, of the sections of the PAT (ISO/IEC 13818-1, 2.4.4.5), the SDT and the NIT (EN 300 468, 5.2).
#[derive(Clone, Copy)]
pub struct Versions {
    pub pat: u8,
    pub sdt: u8,
    pub nit: u8,
}
