//! How many channels an ADTS header has.

ghost use Rattle.std.specs.Prelude.{◌≡◌, drop};
ghost use Rattle.stream_coding.specs.Adts as spec;

// Returns the channels of a channel_configuration.
#[tactic(auto, unfolding(crate::specs::Adts::channel_count))]
fn channel_count(configuration: u8) -> u8
    ensures { result ≡ spec.channel_count configuration }
{
    if configuration == 7 { 8 } else { configuration }
}

// Returns the number of elements in a program_config_element at the front; each has one or two channels.
#[tactic(auto, unfolding(crate::specs::Adts::element_count))]
fn element_count(bytes: &[u8]) -> u8
    ensures { result ≡ spec.element_count bytes.now }
{
    match bytes {
        [a, b, c, d, ..] => {
            if *a / 32 == 5 {
                *b % 8 * 2 + *c / 128 + *c / 8 % 16 + (*c % 8 * 2 + *d / 128) + *d / 32 % 4
            } else {
                0
            }
        }
        _ => 0,
    }
}

/// Returns the bytes from a place on; none if they are fewer.
pub(crate) fn bytes_from(place: usize, bytes: &[u8]) -> &[u8]
    ensures { result.now ≡ drop place bytes.now }
{
    if bytes.len() < place {
        &[]
    } else {
        &bytes[place..]
    }
}

// Returns the channels of a channel_configuration, with the bytes after it.
#[tactic(auto, unfolding(crate::specs::Adts::channels_by))]
fn channels_by(absent: u8, configuration: u8, rest: &[u8]) -> u8
    ensures { result ≡ spec.channels_by absent configuration rest.now }
{
    if configuration != 0 {
        return channel_count(configuration);
    }
    let place = if absent == 1 { 3 } else { 5 };
    element_count(bytes_from(place, rest))
}

/// Returns the channels of an ADTS header, at least; without a channel_configuration one for each element; 0 if the
/// header is cut.
#[tactic(auto, unfolding(crate::specs::Adts::channels))]
pub(crate) fn channels(header: &[u8]) -> u8
    ensures { result ≡ spec.channels header.now }
{
    match header {
        [b, c, d, rest @ ..] => channels_by(*b % 2, *c % 2 * 4 + *d / 64, rest),
        _ => 0,
    }
}
