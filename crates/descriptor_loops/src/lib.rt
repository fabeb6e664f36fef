//! The descriptors of the loops that tables have (ISO/IEC 13818-1, 2.6; EN 300 468, 6): a tag, the number of the bytes
//! after
//! it, and these bytes (`specs/Descriptors`).
#![tactic(auto)]

mod descriptors;
mod kept;
mod multiplex;
mod tags;

pub use descriptors::{Descriptor, Descriptors, first_descriptor};
pub use kept::kept_descriptors;
pub use multiplex::has_of_multiplex;
pub use tags::{has_ca, has_tag};
