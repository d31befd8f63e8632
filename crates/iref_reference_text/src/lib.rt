//! Texts of references, with the lengths of their components beside them.
#![tactic(auto)]

pub mod after_authority;
pub mod base;
pub mod lengths;
mod mapped_bytes;
pub mod measured;
pub mod reference_text;
pub mod relative;
mod relativized;
mod row;
