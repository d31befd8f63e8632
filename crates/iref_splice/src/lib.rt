//! A part of a text replaced in place: of a string, of a vector of bytes, or of what else holds it. What
//! takes a text from its end, and what a hasher reads of it.
#![tactic(auto)]

pub mod backward;
pub mod bytes;
pub mod change;
pub mod fed;
pub mod held;
pub mod out_of_memory;
pub mod target;
pub mod text;
pub mod unwritten;

pub use out_of_memory::Memory;
