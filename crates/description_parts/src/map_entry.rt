//! What names a private table in a PMT.

use description_values::DescriptorLoop;

/// The entry of a private table in the PMT of a program (ISO/IEC 13818-1, 2.4.4.8): its elementary_PID is
/// the table's PID.
#[derive(Drop)]
pub struct MapEntry {
    /// The number of the program.
    pub program: u16,
    pub stream_type: u8,
    pub descriptors: DescriptorLoop,
}
