//! Descriptors as they are written (ISO/IEC 13818-1, 2.6, and EN 300 468, 6.2): a tag, the number of
//! bytes after it, and these bytes. Each function appends one descriptor.

ghost use Rattle.std.specs.Prelude.{◌≡◌, ◌+◌, ◌<◌, ◌≤◌, ◌++◌, length};
ghost use Rattle.arrayvec.specs.ArrayVec.{array_vec_len};
ghost use Rattle.dvb_tables.specs.Descriptors.{iso_639_language_descriptor, network_name_descriptor};
ghost use Rattle.dvb_tables.specs.Descriptors.{service_descriptor, short_event_descriptor};
ghost use Rattle.dvb_tables.specs.Descriptors.{stream_identifier_descriptor};

use crate::character_coding::Text;
use crate::schedule::Event;
use arrayvec::ArrayVec;
use bit_fields::append;

/// Appends the ISO_639_language_descriptor (ISO/IEC 13818-1, 2.6.18) of one language.
#[tactic(auto, unfolding(crate::specs::Descriptors::iso_639_language_descriptor))]
pub fn push_iso_639_language<const N: usize>(
    out: &mut ArrayVec<u8, N>,
    language: [u8; 3],
    audio_type: u8,
)
    requires { array_vec_len out.old + 6 ≤ N }
    ensures { out.new.items ≡ out.old.items ++ iso_639_language_descriptor language audio_type }
{
    append(out, &[0x0a, 4]);
    append(out, &language);
    append(out, &[audio_type]);
}

/// Appends the network_name_descriptor (EN 300 468, 6.2.28).
#[tactic(auto, unfolding(crate::specs::Descriptors::network_name_descriptor))]
pub fn push_network_name<const N: usize, const M: usize>(out: &mut ArrayVec<u8, N>, name: &Text<M>)
    requires length { length name.now < 256 }
    requires room { array_vec_len out.old + 2 + length name.now ≤ N }
    ensures { out.new.items ≡ out.old.items ++ network_name_descriptor name.now }
{
    let name = name.as_bytes();
    append(out, &[0x40, name.len() as u8]);
    append(out, name);
}

/// Appends the service_descriptor (EN 300 468, 6.2.34).
#[tactic(auto, unfolding(crate::specs::Descriptors::service_descriptor))]
pub fn push_service<const N: usize, const P: usize, const M: usize>(
    out: &mut ArrayVec<u8, N>,
    service_type: u8,
    provider: &Text<P>,
    name: &Text<M>,
)
    requires length { 3 + length provider.now + length name.now < 256 }
    requires room { array_vec_len out.old + 5 + length provider.now + length name.now ≤ N }
    ensures { out.new.items ≡ out.old.items ++ service_descriptor service_type provider.now name.now }
{
    let provider = provider.as_bytes();
    let name = name.as_bytes();
    append(
        out,
        &[
            0x48,
            3 + provider.len() as u8 + name.len() as u8,
            service_type,
        ],
    );
    append(out, &[provider.len() as u8]);
    append(out, provider);
    append(out, &[name.len() as u8]);
    append(out, name);
}

/// Appends the short_event_descriptor (EN 300 468, 6.2.38) of an event.
#[tactic(auto, unfolding(crate::specs::Descriptors::short_event_descriptor))]
pub fn push_short_event<const N: usize>(out: &mut ArrayVec<u8, N>, event: &Event)
    requires { array_vec_len out.old + 7 + length event.now.name + length event.now.text ≤ N }
    ensures { out.new.items ≡ out.old.items ++ short_event_descriptor event.now.language event.now.name event.now.text }
{
    let name = event.name.as_bytes();
    let text = event.text.as_bytes();
    append(out, &[0x4d, 5 + name.len() as u8 + text.len() as u8]);
    append(out, &event.language);
    append(out, &[name.len() as u8]);
    append(out, name);
    append(out, &[text.len() as u8]);
    append(out, text);
}

/// Appends the stream_identifier_descriptor (EN 300 468, 6.2.40).
#[tactic(auto, unfolding(crate::specs::Descriptors::stream_identifier_descriptor))]
pub fn push_stream_identifier<const N: usize>(out: &mut ArrayVec<u8, N>, component_tag: u8)
    requires { array_vec_len out.old + 3 ≤ N }
    ensures { out.new.items ≡ out.old.items ++ stream_identifier_descriptor component_tag }
{
    append(out, &[0x52, 1, component_tag]);
}
