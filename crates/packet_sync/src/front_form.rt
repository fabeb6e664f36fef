//! What an input is by its first bytes.
ghost use Rattle.std.specs.Prelude.{◌≡◌, nat_eq};
ghost use Rattle.std.specs.List.{list_all};
ghost use Rattle.packet_sync.specs.FrontForms as spec;

use crate::file_form::FileForm;

/// How many bytes of the front are looked at.
const FRONT_BYTES: usize = 188;

#[tactic(auto, unfolding(crate::specs::FrontForms::is_mp4))]
fn is_mp4(front: &[u8]) -> bool
    ensures { result ≡ spec.is_mp4 front.now }
{
    match front.get(4..) {
        Some(rest) => rest.starts_with(b"ftyp"),
        None => false,
    }
}

#[tactic(auto, unfolding(crate::specs::FrontForms::is_matroska))]
fn is_matroska(front: &[u8]) -> bool
    ensures { result ≡ spec.is_matroska front.now }
{
    front.starts_with(&[0x1A, 0x45, 0xDF, 0xA3])
}

#[tactic(auto, unfolding(crate::specs::FrontForms::is_riff))]
fn is_riff(front: &[u8], kind: &[u8]) -> bool
    ensures { result ≡ spec.is_riff front.now kind.now }
{
    match front.get(8..) {
        Some(rest) => front.starts_with(b"RIFF") && rest.starts_with(kind),
        None => false,
    }
}

#[tactic(auto, unfolding(crate::specs::FrontForms::is_ogg))]
fn is_ogg(front: &[u8]) -> bool
    ensures { result ≡ spec.is_ogg front.now }
{
    front.starts_with(b"OggS")
}

#[tactic(auto, unfolding(crate::specs::FrontForms::is_program_stream))]
fn is_program_stream(front: &[u8]) -> bool
    ensures { result ≡ spec.is_program_stream front.now }
{
    front.starts_with(&[0, 0, 1, 0xBA])
}

#[tactic(auto, unfolding(crate::specs::FrontForms::is_elementary_stream))]
fn is_elementary_stream(front: &[u8]) -> bool
    ensures { result ≡ spec.is_elementary_stream front.now }
{
    front.starts_with(&[0, 0, 1]) || front.starts_with(&[0, 0, 0, 1])
}

#[tactic(auto, unfolding(crate::specs::FrontForms::is_network_capture))]
fn is_network_capture(front: &[u8]) -> bool
    ensures { result ≡ spec.is_network_capture front.now }
{
    front.starts_with(&[0xD4, 0xC3, 0xB2, 0xA1])
        || front.starts_with(&[0xA1, 0xB2, 0xC3, 0xD4])
        || front.starts_with(&[0x0A, 0x0D, 0x0D, 0x0A])
}

fn is_text_byte(byte: u8) -> bool
    ensures { result ≡ spec.is_text_byte byte }
{
    (byte >= 32 && byte <= 126) || byte == 9 || byte == 10 || byte == 13
}

fn all_text(front: &[u8]) -> bool
    ensures { result ≡ list_all spec.is_text_byte front.now }
{
    front.iter().all(|byte| is_text_byte(*byte))
}

fn is_text(front: &[u8]) -> bool
    ensures { result ≡ spec.is_text front.now }
{
    !front.is_empty() && all_text(front)
}

// Returns the form of a front that is no file of a container.
#[tactic(auto, unfolding(crate::specs::FrontForms::stream_form))]
fn stream_form(front: &[u8]) -> FileForm
    ensures { result ≡ spec.stream_form front.now }
{
    if is_program_stream(front) {
        FileForm::ProgramStream
    } else if is_elementary_stream(front) {
        FileForm::ElementaryStream
    } else if is_network_capture(front) {
        FileForm::NetworkCapture
    } else if is_text(front) {
        FileForm::Text
    } else {
        FileForm::Unknown
    }
}

#[tactic(auto, unfolding(crate::specs::FrontForms::form_in))]
fn form_in(front: &[u8]) -> FileForm
    ensures { result ≡ spec.form_in front.now }
{
    if is_mp4(front) {
        FileForm::Mp4
    } else if is_matroska(front) {
        FileForm::Matroska
    } else if is_riff(front, b"AVI ") {
        FileForm::Avi
    } else if is_riff(front, b"WAVE") {
        FileForm::Wave
    } else if is_ogg(front) {
        FileForm::Ogg
    } else {
        stream_form(front)
    }
}

/// Returns what an input that is no transport stream is, by its first bytes.
pub fn form_of(bytes: &[u8]) -> FileForm
    ensures { result ≡ spec.form_of bytes.now }
{
    if bytes.len() < FRONT_BYTES {
        form_in(bytes)
    } else {
        form_in(&bytes[..FRONT_BYTES])
    }
}
