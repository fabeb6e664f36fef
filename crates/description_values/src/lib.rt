//! The values of a service description's document: numbers, texts, moments, bytes.
//!
//! Each reader returns a value, or `None` if the document has another type there or a value out of range.
#![tactic(auto)]

// Values at a key.
pub mod descriptors;
pub mod moments;
pub mod private_section;
pub mod texts;
pub mod values;

// Arrays of values, and of tables.
pub mod arrays;

// Bytes in hexadecimal.
mod hexadecimal;

pub use descriptors::DescriptorLoop;
pub use private_section::PrivateSection;
