//! By what the packets of units are declared.

/// By what the packets of a stream's units are declared.
#[derive(Clone, Copy)]
pub enum DeclareBy {
    /// By groups where that asks for at most a 64th more of the multiplex than by pace, else by pace.
    Either,
    /// By groups of units.
    Groups,
    /// By time: a burst and a pace.
    Pace,
}
