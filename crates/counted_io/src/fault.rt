//! The rest of a part when the device fails.
use thiserror::Error;

/// A call of the device failed. `taken` counts the bytes of the part that were read or written before that call.
#[derive(Clone, Copy, Debug, PartialEq, Eq, Error)]
#[error("the device failed after {taken} bytes of the part")]
pub struct DeviceFault {
    pub taken: usize,
}
