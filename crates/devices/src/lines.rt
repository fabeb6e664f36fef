//! Text on an output, and lines: a name, numbers in decimal digits, and LF.
ghost use Rattle.std.specs.Prelude.{◌≡◌, ◌++◌, ◌∷◌, ◌+◌, ◌*◌, ◌≤◌, length, decimal};
ghost use Rattle.arrayvec.specs.ArrayVec.{array_vec_len};
ghost use Rattle.devices.specs.Devices.{writes};
ghost use Rattle.devices.specs.Lines.{line_text, Reports, WritesLine};

use crate::halt::Halt;
use arrayvec::ArrayVec;
use counted_io::{Sink, write_part};
use itoa::Buffer;

/// The room of a line: a name of up to 40 bytes, five numbers of up to 128 bits with a space before each, and LF.
pub(crate) const ROOM: usize = 256;

/// Appends bytes to a line.
pub(crate) fn append(line: &mut ArrayVec<u8, ROOM>, bytes: &[u8])
    requires { array_vec_len line.old + length bytes.now ≤ 256 }
    ensures items { line.new.items ≡ line.old.items ++ bytes.now }
    ensures len { array_vec_len line.new ≡ array_vec_len line.old + length bytes.now }
{
    let _ = line.try_extend_from_slice(bytes);
}

/// Appends a space and a number to a line.
pub(crate) fn append_number(line: &mut ArrayVec<u8, ROOM>, number: u128)
    requires { array_vec_len line.old + 41 ≤ 256 }
    ensures items { line.new.items ≡ line.old.items ++ (32 ∷ decimal number) }
    ensures len { array_vec_len line.new ≤ array_vec_len line.old + 41 }
{
    let mut digits = Buffer::new();
    append(line, b" ");
    append(line, digits.format(number).as_bytes());
}

#[tactic(auto, unfolding(crate::specs::Lines::numbers_text))]
/// Returns a line of a name of up to 40 bytes and up to five numbers.
fn line(name: &str, numbers: &[u128]) -> ArrayVec<u8, ROOM>
    requires name { length name.now ≤ 40 }
    requires numbers { length numbers.now ≤ 5 }
    ensures { result.items ≡ line_text name.now numbers.now }
{
    let mut line = ArrayVec::new();
    append(&mut line, name.as_bytes());
    for number in numbers {
        append_number(&mut line, *number);
    }
    append(&mut line, b"\n");
    line
}

/// Writes bytes whole.
pub fn write_bytes<W: Sink>(bytes: &[u8], to: &mut W) -> Result<(), Halt>
    ensures { WritesLine bytes.now (writes W.Sink to.old to.new) result }
{
    match write_part(to, bytes) {
        Ok(()) => Ok(()),
        Err(_) => Err(Halt::Write),
    }
}

/// Writes a line.
pub fn write_line<W: Sink>(to: &mut W, name: &str, numbers: &[u128]) -> Result<(), Halt>
    requires name { length name.now ≤ 40 }
    requires numbers { length numbers.now ≤ 5 }
    ensures { WritesLine (line_text name.now numbers.now)
        (writes W.Sink to.old to.new) result }
{
    let text = line(name, numbers);
    write_bytes(text.as_slice(), to)
}

/// Writes a text whole.
pub fn write_text<W: Sink>(text: &str, to: &mut W) -> Result<(), Halt>
    ensures { WritesLine text.now (writes W.Sink to.old to.new) result }
{
    write_bytes(text.as_bytes(), to)
}

/// Writes bytes, as far as the writer goes.
pub(crate) fn report_bytes<W: Sink>(to: &mut W, bytes: &[u8])
    ensures { Reports (writes W.Sink to.old to.new) bytes.now }
{
    let _ = write_part(to, bytes);
}

/// Writes a text, as far as the writer goes.
pub fn report_text<W: Sink>(to: &mut W, text: &str)
    ensures { Reports (writes W.Sink to.old to.new) text.now }
{
    report_bytes(to, text.as_bytes());
}

/// Writes a line, as far as the writer goes.
pub fn report_line<W: Sink>(to: &mut W, name: &str, numbers: &[u128])
    requires name { length name.now ≤ 40 }
    requires numbers { length numbers.now ≤ 5 }
    ensures { Reports (writes W.Sink to.old to.new) (line_text name.now numbers.now) }
{
    let text = line(name, numbers);
    report_bytes(to, text.as_slice());
}
