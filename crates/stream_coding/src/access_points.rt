//! The access units at which a decoder may begin.

ghost use Rattle.std.specs.Prelude.{◌≡◌};
ghost use Rattle.stream_coding.specs.AccessPoints as spec;

use crate::structures::{Structure, bytes_of, has};

// Returns the coding type of the picture with these bytes after the start code of its header.
#[tactic(auto, unfolding(crate::specs::AccessPoints::picture_coding_type))]
fn picture_coding_type(header: &[u8]) -> u8
    ensures { result ≡ spec.picture_coding_type header.now }
{
    match header {
        [_, second, ..] => *second / 8 % 8,
        _ => 0,
    }
}

#[tactic(auto, unfolding(crate::specs::AccessPoints::is_mpeg_access))]
fn is_mpeg_access(unit: &[u8]) -> bool
    ensures { result ≡ spec.is_mpeg_access unit.now }
{
    has(Structure::SequenceHeader, unit)
        && picture_coding_type(bytes_of(Structure::PictureHeader, unit)) == 1
}

#[tactic(auto, unfolding(crate::specs::AccessPoints::is_avc_access))]
fn is_avc_access(unit: &[u8]) -> bool
    ensures { result ≡ spec.is_avc_access unit.now }
{
    has(Structure::AvcParameters, unit)
        && (has(Structure::IdrSlice, unit) || has(Structure::RecoveryPoint, unit))
}

#[tactic(auto, unfolding(crate::specs::AccessPoints::is_hevc_access))]
fn is_hevc_access(unit: &[u8]) -> bool
    ensures { result ≡ spec.is_hevc_access unit.now }
{
    has(Structure::HevcParameters, unit) && has(Structure::IrapSlice, unit)
}

/// Returns whether a decoder may begin with this access unit of a stream that a program map names with this
/// stream_type.
#[tactic(auto, unfolding(crate::specs::AccessPoints::is_access_point))]
pub fn is_access_point(stream_type: u8, unit: &[u8]) -> bool
    ensures { result ≡ spec.is_access_point stream_type unit.now }
{
    match stream_type {
        0x01 | 0x02 => is_mpeg_access(unit),
        0x1b => is_avc_access(unit),
        0x24 => is_hevc_access(unit),
        _ => false,
    }
}
