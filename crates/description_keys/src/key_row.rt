//! A key of a description as a row of a table.

ghost use Rattle.std.specs.Prelude.{◌≡◌};
ghost use Rattle.description_keys.specs.Rules.{part_number, is_of};

/// The part of a description that has a key: the document, its table `network`, or a table of an array of one of them.
#[derive(Clone, Copy)]
pub enum KeyPart {
    Document,
    Network,
    Program,
    Stream,
    Event,
    Table,
    NetworkStream,
}

impl KeyPart {
    // Returns its number.
    fn number(self) -> u8
        ensures { result ≡ part_number self }
    {
        match self {
            KeyPart::Document => 0,
            KeyPart::Network => 1,
            KeyPart::Program => 2,
            KeyPart::Stream => 3,
            KeyPart::Event => 4,
            KeyPart::Table => 5,
            KeyPart::NetworkStream => 6,
        }
    }

    /// Returns whether it is this part.
    pub fn is_part(self, part: KeyPart) -> bool
        ensures { result ≡ is_of self part }
    {
        self.number() == part.number()
    }
}

/// A key whose values depend on other keys.
#[derive(Clone, Copy)]
pub enum JointKey {
    SharedClock,
    EitPackets,
    Versions,
    NetworkName,
    ServiceDescriptors,
    EventLanguage,
    EventName,
    EventText,
    EventDescriptors,
    ClockPid,
    Channel,
    StreamId,
    Size,
    Rx,
    Main,
    Group,
    GroupPackets,
    BurstPackets,
    Pace,
    SharedWith,
    Rbx,
    Mb,
    Frames,
    Frame,
    FrameSize,
    FrameLeft,
    EntryProgram,
    EntryType,
    EntryDescriptors,
}

/// Which values a key may have.
#[derive(Clone, Copy)]
pub enum KeyKind {
    /// A number from the first to the second.
    Number(u64, u64),
    /// A PID that a description may name.
    Pid,
    /// A number from the second to the third; the first if the key is absent.
    NumberOr(u64, u64, u64),
    /// A number from the first to the second, or no number.
    NumberIfAny(u64, u64),
    /// A time.
    Moment,
    /// True or false; the value of the field if the key is absent.
    Flag(bool),
    /// A text of up to so many bytes; empty if the key is absent.
    TextOrEmpty(u8),
    /// Three letters, or no language.
    LanguageIfAny,
    /// Whole descriptors of up to so many bytes, or no descriptors.
    Descriptors(usize),
    /// Ready-made sections.
    Sections,
    /// The number of a declared program.
    Owner,
    /// A table, or no table.
    OneTable,
    /// Tables, at least the first and at most the second number, with `transponder = true` at most the third; an absent key
    /// is no tables.
    Tables(usize, usize, usize),
    /// What the key may have beside other keys.
    Joint(JointKey),
}

/// A key of a description: the part that has it, the number of its refusal, its name, which values it may have, and words:
/// for a number its unit, for a joint key the values. It is generic in how its texts are held: a constant of a type that
/// is not, and holds a reference, has no name in a specification.
#[derive(Clone, Copy)]
pub struct Row<Text>(pub KeyPart, pub u8, pub Text, pub KeyKind, pub Text);

/// A row of a table that is a constant.
pub type KeyRow = Row<&'static str>;
