//! The loop of programs in a PAT.

ghost use Rattle.std.specs.Prelude.{◌≡◌, ◌<◌, [], ◌↔◌, length, IsTrue};
ghost use Rattle.std.specs.Iterator.{YieldsFirst, item_count};
ghost use Rattle.psi_tables.specs.ProgramAssociation.{program_of, program_bytes, programs_in, programs_of};

/// One entry of a PAT.
#[derive(Clone, Copy, PartialEq, Eq)]
pub struct Program {
    /// 0 names the network PID, any other number a program.
    pub program_number: u16,
    /// network_PID or program_map_PID: 13 bits.
    pub pid: u16,
}

/// The entries of a PAT, in order: an iterator over the bytes of the loop.
#[derive(Clone, Copy)]
pub struct Programs<'a> {
    bytes: &'a [u8],
}

impl Program {
    /// Returns the entry as it is written, reserved bits 1.
    pub fn to_bytes(self) -> [u8; 4]
        requires { self.pid < 8192 }
        ensures { result ≡ program_bytes self }
    {
        self.bytes()
    }

    // Returns the entry of a PID that is known to have 13 bits, as after reading.
    #[tactic(auto, unfolding(crate::specs::ProgramAssociation::program_bytes))]
    pub(super) fn bytes(self) -> [u8; 4]
        ensures { result ≡ program_bytes self }
    {
        let [a, b] = self.program_number.to_be_bytes();
        let [c, d] = self.pid.to_be_bytes();
        [a, b, 0xe0 + (c & 0x1f), d]
    }
}

impl<'a> Programs<'a> {
    /// Returns the entries that bytes hold, four bytes each; it ignores bytes after the last whole
    /// entry.
    #[tactic(auto, unfolding(crate::specs::ProgramAssociation::programs_of))]
    pub fn over(bytes: &'a [u8]) -> Programs<'a>
        ensures { programs_of result ≡ programs_in bytes.now }
    {
        Programs { bytes }
    }

    /// Returns how many entries are left.
    pub fn len(&self) -> usize
        ensures { result ≡ length (programs_of self.now) }
    {
        self.bytes.len() / 4
    }

    /// Returns whether no entry is left.
    pub fn is_empty(&self) -> bool
        ensures { IsTrue result ↔ (programs_of self.now ≡ []) }
    {
        self.len() == 0
    }
}

impl Iterator for Programs<'_> {
    type Item = Program;

    ghost next_gives = { YieldsFirst programs_of };

    ghost remaining = { item_count programs_of };

    #[tactic(auto, unfolding(crate::specs::ProgramAssociation::programs_of, crate::specs::ProgramAssociation::programs_in))]
    fn next(&mut self) -> Option<Program> {
        match self.bytes {
            [a, b, c, d, rest @ ..] => {
                self.bytes = rest;
                Some(program_of(*a, *b, *c, *d))
            }
            _ => None,
        }
    }
}

#[tactic(auto, unfolding(crate::specs::ProgramAssociation::program_of))]
fn program_of(a: u8, b: u8, c: u8, d: u8) -> Program
    ensures { result ≡ program_of a b c d }
{
    Program {
        program_number: u16::from_be_bytes([a, b]),
        pid: u16::from_be_bytes([c & 0x1f, d]),
    }
}
