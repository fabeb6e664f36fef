//! An event and its fault.
use crate::event::Event;
use crate::fault::Fault;

/// An event, and the fault that it says there is, if it says so, with its moments.
#[derive(Drop)]
pub struct TimedEvent {
    pub event: Event,
    pub fault: Option<Fault>,
}
