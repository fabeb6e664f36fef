//! The meaning of a stream_id for its packets (ISO/IEC 13818-1, 2.4.3.7, table 2-22).

ghost use Rattle.std.specs.Prelude.{◌≡◌};
ghost use Rattle.pes_packet.specs.StreamIds.{has_flags, is_video, is_unit_id, greatest_size, fits_packet};

/// Returns whether packets of this stream_id have flag bytes, and so may have stamps. Packets of
/// program_stream_map, padding_stream, private_stream_2, ECM, EMM, DSMCC_stream, ITU-T H.222.1 type E
/// and program_stream_directory have none.
#[tactic(auto, unfolding(crate::specs::StreamIds::has_flags))]
pub fn has_flags(id: u8) -> bool
    ensures { result ≡ has_flags id }
{
    !matches!(id, 0xbc | 0xbe | 0xbf | 0xf0 | 0xf1 | 0xf2 | 0xf8 | 0xff)
}

// Returns whether a stream_id is a video stream, 1110 xxxx.
fn is_video(id: u8) -> bool
    ensures { result ≡ is_video id }
{
    224 <= id && id <= 239
}

/// Returns whether units are written with this stream_id: 189 (private_stream_1), or 192 to 239 (audio, video).
pub fn is_unit_id(id: u8) -> bool
    ensures { result ≡ is_unit_id id }
{
    id == 189 || 192 <= id && id <= 239
}

/// Returns the greatest size in bytes of a unit with this stream_id: 4,000,000 for video, otherwise the greatest size
/// that PES_packet_length, of 16 bits, can express.
pub fn greatest_size(id: u8) -> usize
    ensures { result ≡ greatest_size id }
{
    if is_video(id) { 4_000_000 } else { 65_522 }
}

/// Returns whether a unit of `size` bytes may be a PES packet of this stream_id, which `write_header` requires.
pub fn fits_packet(id: u8, size: usize) -> bool
    ensures { result ≡ fits_packet id size }
{
    is_unit_id(id) && 1 <= size && size <= greatest_size(id)
}
