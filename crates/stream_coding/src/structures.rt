//! The structures of a coded stream that say its level, its video buffer, how many channels it has, or where a decoder
//! may begin.

ghost use Rattle.std.specs.Prelude.{◌≡◌, option_map};
ghost use Rattle.stream_coding.specs.Structures as spec;

use crate::sei::has_recovery_point;

/// The structures that are looked for in a unit.
#[derive(Clone, Copy)]
pub(crate) enum Structure {
    /// The sequence header of ISO/IEC 11172-2 and 13818-2 video.
    SequenceHeader,
    /// The sequence extension of ISO/IEC 13818-2 video.
    SequenceExtension,
    /// The picture header of ISO/IEC 11172-2 and 13818-2 video.
    PictureHeader,
    /// The sequence parameter set of ISO/IEC 14496-10 video.
    AvcParameters,
    /// A slice of an IDR picture of ISO/IEC 14496-10 video.
    IdrSlice,
    /// SEI messages of ISO/IEC 14496-10 video with a recovery point.
    RecoveryPoint,
    /// The sequence parameter set of ISO/IEC 23008-2 video.
    HevcParameters,
    /// A slice of an IRAP picture of ISO/IEC 23008-2 video.
    IrapSlice,
    /// The header of a frame of ISO/IEC 13818-7 audio.
    AdtsHeader,
}

// Returns the bytes after a start code prefix at the front.
#[tactic(auto, unfolding(crate::specs::Structures::after_start_code))]
fn after_start_code(bytes: &[u8]) -> Option<&[u8]>
    ensures { option_map (λ rest. rest.now) result ≡ spec.after_start_code bytes.now }
{
    bytes.strip_prefix(&[0, 0, 1])
}

// Returns the bytes after the start code of a sequence header.
#[tactic(auto, unfolding(crate::specs::Structures::sequence_header))]
fn sequence_header(bytes: &[u8]) -> Option<&[u8]>
    ensures { option_map (λ rest. rest.now) result ≡ spec.sequence_header bytes.now }
{
    match bytes {
        [] => None,
        [code, rest @ ..] => if *code == 0xb3 { Some(rest) } else { None },
    }
}

// Returns the bytes after the start code of a picture header.
#[tactic(auto, unfolding(crate::specs::Structures::picture_header))]
fn picture_header(bytes: &[u8]) -> Option<&[u8]>
    ensures { option_map (λ rest. rest.now) result ≡ spec.picture_header bytes.now }
{
    match bytes {
        [] => None,
        [code, rest @ ..] => if *code == 0x00 { Some(rest) } else { None },
    }
}

// Returns the bytes of an extension, if it is of a sequence.
#[tactic(auto, unfolding(crate::specs::Structures::is_identified))]
fn is_identified(bytes: &[u8]) -> Option<&[u8]>
    ensures { option_map (λ rest. rest.now) result ≡ spec.is_identified bytes.now }
{
    match bytes {
        [] => None,
        [first, ..] => if *first / 16 == 1 { Some(bytes) } else { None },
    }
}

// Returns the bytes after the start code of a sequence extension.
#[tactic(auto, unfolding(crate::specs::Structures::sequence_extension))]
fn sequence_extension(bytes: &[u8]) -> Option<&[u8]>
    ensures { option_map (λ rest. rest.now) result ≡ spec.sequence_extension bytes.now }
{
    match bytes {
        [] => None,
        [code, rest @ ..] => if *code == 0xb5 {
            is_identified(rest)
        } else {
            None
        },
    }
}

// Returns the bytes of a sequence parameter set of ISO/IEC 14496-10.
#[tactic(auto, unfolding(crate::specs::Structures::avc_parameters))]
fn avc_parameters(bytes: &[u8]) -> Option<&[u8]>
    ensures { option_map (λ rest. rest.now) result ≡ spec.avc_parameters bytes.now }
{
    match bytes {
        [] => None,
        [header, rest @ ..] => if *header % 32 == 7 { Some(rest) } else { None },
    }
}

// Returns the bytes of a slice of an IDR picture.
#[tactic(auto, unfolding(crate::specs::Structures::idr_slice))]
fn idr_slice(bytes: &[u8]) -> Option<&[u8]>
    ensures { option_map (λ rest. rest.now) result ≡ spec.idr_slice bytes.now }
{
    match bytes {
        [] => None,
        [header, rest @ ..] => if *header % 32 == 5 { Some(rest) } else { None },
    }
}

// Returns the bytes of SEI messages with a recovery point.
#[tactic(auto, unfolding(crate::specs::Structures::recovery_point))]
fn recovery_point(bytes: &[u8]) -> Option<&[u8]>
    ensures { option_map (λ rest. rest.now) result ≡ spec.recovery_point bytes.now }
{
    match bytes {
        [] => None,
        [header, rest @ ..] => {
            if *header % 32 == 6 && has_recovery_point(rest) {
                Some(rest)
            } else {
                None
            }
        }
    }
}

// Returns the bytes of a sequence parameter set of ISO/IEC 23008-2.
#[tactic(auto, unfolding(crate::specs::Structures::hevc_parameters))]
fn hevc_parameters(bytes: &[u8]) -> Option<&[u8]>
    ensures { option_map (λ rest. rest.now) result ≡ spec.hevc_parameters bytes.now }
{
    match bytes {
        [first, second, rest @ ..] => {
            if *first == 0x42 && *second < 8 {
                Some(rest)
            } else {
                None
            }
        }
        _ => None,
    }
}

// Returns the bytes of a slice of an IRAP picture.
#[tactic(auto, unfolding(crate::specs::Structures::irap_slice))]
fn irap_slice(bytes: &[u8]) -> Option<&[u8]>
    ensures { option_map (λ rest. rest.now) result ≡ spec.irap_slice bytes.now }
{
    match bytes {
        [first, second, rest @ ..] => {
            if *first / 16 == 2 && *first % 2 == 0 && *second < 8 {
                Some(rest)
            } else {
                None
            }
        }
        _ => None,
    }
}

// Returns the bytes of an ADTS header from protection_absent on.
#[tactic(auto, unfolding(crate::specs::Structures::adts_header))]
fn adts_header(bytes: &[u8]) -> Option<&[u8]>
    ensures { option_map (λ rest. rest.now) result ≡ spec.adts_header bytes.now }
{
    match bytes {
        [first, second, ..] => {
            if *first == 0xff && *second / 16 == 15 && *second / 2 % 4 == 0 {
                Some(&bytes[1..])
            } else {
                None
            }
        }
        _ => None,
    }
}

// Returns the bytes after the beginning of a structure, if it begins with the first of these bytes.
#[tactic(auto, unfolding(crate::specs::Structures::at_front))]
fn at_front(structure: Structure, bytes: &[u8]) -> Option<&[u8]>
    ensures { option_map (λ rest. rest.now) result ≡ spec.at_front structure bytes.now }
{
    match structure {
        Structure::SequenceHeader => sequence_header(after_start_code(bytes)?),
        Structure::SequenceExtension => sequence_extension(after_start_code(bytes)?),
        Structure::PictureHeader => picture_header(after_start_code(bytes)?),
        Structure::AvcParameters => avc_parameters(after_start_code(bytes)?),
        Structure::IdrSlice => idr_slice(after_start_code(bytes)?),
        Structure::RecoveryPoint => recovery_point(after_start_code(bytes)?),
        Structure::HevcParameters => hevc_parameters(after_start_code(bytes)?),
        Structure::IrapSlice => irap_slice(after_start_code(bytes)?),
        Structure::AdtsHeader => adts_header(bytes),
    }
}

// Returns the bytes of a structure at the first place in a unit that has it.
#[tactic(auto, using(crate::proofs::StructureSearch::found_here, crate::proofs::StructureSearch::found_later, crate::proofs::StructureSearch::found_nowhere))]
fn found_in(structure: Structure, unit: &[u8]) -> Option<&[u8]>
    ensures { option_map (λ rest. rest.now) result ≡ spec.found_in structure unit.now }
{
    let mut left = unit;
    while let Some((_, rest)) = left.split_first() {
        if let Some(found) = at_front(structure, left) {
            return Some(found);
        }
        left = rest;
    }
    None
}

/// Returns whether a unit has a structure of this kind.
pub(crate) fn has(structure: Structure, unit: &[u8]) -> bool
    ensures { result ≡ spec.has structure unit.now }
{
    match found_in(structure, unit) {
        Some(_) => true,
        None => false,
    }
}

/// Returns the bytes of the first structure of this kind in a unit, without its beginning; none if there is none.
pub(crate) fn bytes_of(structure: Structure, unit: &[u8]) -> &[u8]
    ensures { result.now ≡ spec.bytes_of structure unit.now }
{
    match found_in(structure, unit) {
        Some(bytes) => bytes,
        None => &[],
    }
}
