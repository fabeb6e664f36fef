//! An elementary stream of the description.

use description_keys::ProgramNumbers;
use description_values::DescriptorLoop;
use unit_timing::allowance::Allowance;
use unit_timing::framing::FrameDeclaration;
use unit_timing::multiplexing_buffer::MultiplexingBuffer;

/// An elementary stream and what it declares of its units (ISO/IEC 13818-1, 2.4.2 and 2.4.4.8).
#[derive(Drop)]
pub struct StreamDescription {
    /// The number of its program.
    pub program: u16,
    pub pid: u16,
    /// stream_id of its PES packets: 189, or 192 to 239.
    pub stream_id: u8,
    pub stream_type: u8,
    /// The least time between two units, in units of 90 kHz.
    pub interval: u32,
    /// The greatest unit, in bytes.
    pub size: u32,
    /// The longest time from the arrival of a unit to its decoding, in units of 90 kHz.
    pub lead: u32,
    /// The rate at which its transport buffer is emptied, in bits a second.
    pub rx: u32,
    /// The longest time from the decoding of a unit to its presentation, in units of 90 kHz.
    pub pts_limit: u32,
    /// Its main buffer, in bytes; its elementary stream buffer EB if it has a multiplexing buffer (2.4.2.3).
    pub main: u32,
    pub tag: Option<u8>,
    pub language: Option<[u8; 3]>,
    pub descriptors: DescriptorLoop,
    /// The most packets of its units in a row.
    pub allowance: Allowance,
    /// The programs, other than its own, whose PMTs name it.
    pub shared_with: ProgramNumbers,
    /// Its multiplexing buffer MB before EB; one main buffer takes the place of both if there is no such buffer.
    pub multiplexing: Option<MultiplexingBuffer>,
    /// The access units of its units, if these are PES packets that hold several; otherwise a unit is one access unit.
    pub framing: Option<FrameDeclaration>,
}
