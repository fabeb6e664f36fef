//! Buffered input whose unread bytes a caller can look at without blocking.
//!
//! `HeldInput` is a `Source` that shows the bytes it holds: its next reads give these bytes, and call no device.
//! `BufferedInput` is a `HeldInput` with a buffer; a `Counted` holds no bytes.
//!
//! Definitions are in `specs/`: `Holding` says what a `BufferedInput` shows, and what a read of held bytes leaves of
//! it.
#![tactic(auto)]

mod buffered;
mod held;

pub use buffered::BufferedInput;
pub use held::HeldInput;
