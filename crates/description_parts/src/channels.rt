//! The channel numbers of the services of a network, as descriptors of its transport stream.

ghost use Rattle.std.specs.Prelude.{◌≡◌, ◌≤◌, ◌+◌, ◌++◌, length, map};
ghost use Rattle.arrayvec.specs.ArrayVec.{array_vec_len};
ghost use Rattle.toml.specs.View.{view};
ghost use Rattle.description_parts.specs.Channels as spec;

use arrayvec::ArrayVec;
use description_keys::channels::channel_of;
use description_keys::owner::program_number;
use toml::Value;

// Appends the entry of a service in the logical_channel_descriptor.
fn push_entry(out: &mut ArrayVec<u8, 256>, number: u16, channel: u16)
    requires room { array_vec_len out.old + 4 ≤ 256 }
    requires channel { channel ≤ 1023 }
    ensures { out.new.items ≡ out.old.items ++ spec.channel_entry number channel }
{
    out.push((number >> 8) as u8);
    out.push((number & 0xff) as u8);
    out.push(0xfc + (channel >> 8) as u8);
    out.push((channel & 0xff) as u8);
}

// Appends the entry of a program, if it has a channel.
fn push_channel(out: &mut ArrayVec<u8, 256>, program: &Value)
    requires room { array_vec_len out.old + 4 ≤ 256 }
    ensures value { out.new.items ≡ out.old.items ++ spec.entry_of (view program.now) }
    ensures most { length out.new.items ≤ length out.old.items + 4 }
{
    if let Some(channel) = channel_of(program) {
        push_entry(out, program_number(program).unwrap_or(1), channel);
    }
}

fn entries_of(programs: &[Value]) -> ArrayVec<u8, 256>
    requires { length programs.now ≤ 64 }
    ensures { result.items ≡ spec.channel_entries (map view programs.now) }
{
    let mut out = ArrayVec::new();
    for program in programs {
        push_channel(&mut out, program);
    }
    out
}

/// Appends bytes that have room.
pub(crate) fn append(out: &mut ArrayVec<u8, 966>, bytes: &[u8])
    requires { array_vec_len out.old + length bytes.now ≤ 966 }
    ensures { out.new.items ≡ out.old.items ++ bytes.now }
{
    match out.try_extend_from_slice(bytes) {
        Ok(()) => {}
        Err(_) => unreachable!(),
    }
}

// Appends the descriptor of entries, if there is one.
fn push_descriptor(out: &mut ArrayVec<u8, 966>, entries: &[u8])
    requires few { length entries.now ≤ 252 }
    requires room { array_vec_len out.old + 2 + length entries.now ≤ 966 }
    ensures value { out.new.items ≡ out.old.items ++ spec.channel_descriptor entries.now }
    ensures most { length out.new.items ≤ length out.old.items + 2 + length entries.now }
{
    if entries.is_empty() {
        return;
    }
    append(out, &[0x83, entries.len() as u8]);
    append(out, entries);
}

// Appends the specifier and the descriptors of entries, if there is an entry: a second descriptor if the first is full.
fn push_descriptors(out: &mut ArrayVec<u8, 966>, entries: &[u8])
    requires few { length entries.now ≤ 256 }
    requires room { array_vec_len out.old ≤ 700 }
    ensures { out.new.items ≡ out.old.items ++ spec.channel_descriptors entries.now }
{
    if entries.is_empty() {
        return;
    }
    let first = usize::min(entries.len(), 252);
    append(out, &[0x5f, 4, 0, 0, 0, 0x28]);
    push_descriptor(out, &entries[..first]);
    push_descriptor(out, &entries[first..]);
}

/// Appends the channel numbers of the programs, if there are at most 64.
pub(crate) fn push_channels(out: &mut ArrayVec<u8, 966>, programs: &[Value])
    requires { array_vec_len out.old ≤ 700 }
    ensures { out.new.items ≡ out.old.items ++ spec.described_channels (map view programs.now) }
{
    if programs.len() <= 64 {
        push_descriptors(out, entries_of(programs).as_slice());
    }
}
