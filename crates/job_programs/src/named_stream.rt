//! A stream that a warning names.

/// What a stream is for a viewer.
#[derive(Clone, Copy, PartialEq, Eq)]
pub enum StreamKind {
    Picture,
    Sound,
}

/// A stream of the tables: the program that names it first, its PID, and whether it is a picture or sound, if it is
/// either.
#[derive(Clone, Copy)]
pub struct NamedStream {
    pub program: u16,
    pub pid: u16,
    pub kind: Option<StreamKind>,
}
