//! Bytes as pairs of hexadecimal digits.

ghost use Rattle.std.specs.Prelude.{◌≡◌, option_map};
ghost use Rattle.description_values.specs.Values.{hex_bytes};

use arrayvec::ArrayVec;

/// Returns the bytes that a text of pairs of digits, of either case, writes, if they are at most `N`.
pub fn hex_bytes<const N: usize>(text: &str) -> Option<ArrayVec<u8, N>>
    ensures { option_map (λ bytes. bytes.items) result ≡ hex_bytes N text.now }
{
    let size = text.len() / 2;
    if size > N {
        return None;
    }
    let mut room = [0; N];
    let written = &mut room[..size];
    if hex::decode_to_slice(text, written).is_err() {
        return None;
    }
    let mut bytes = ArrayVec::new();
    if bytes.try_extend_from_slice(written).is_err() {
        return None;
    }
    Some(bytes)
}
