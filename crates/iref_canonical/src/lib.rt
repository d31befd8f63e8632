//! Canonical texts and sort keys of references, with the laws about them. Both depend on the key
//! alone.
#![tactic(auto)]

mod authority;
pub mod canonical_laws;
pub mod encoded;
pub mod hashed;
pub mod hashed_laws;
pub mod key_bytes;
pub mod length_laws;
mod literal;
pub mod owned;
mod padded;
mod path;
pub mod plain;
pub mod reference;
pub mod sort_key;
pub mod sort_key_laws;
pub mod sort_parts;
pub mod sort_path;
pub mod sort_prefix;
mod sort_short;
pub mod sort_text;
pub mod text;
