//! Whether a text is in a rule of the grammar, and where its parts stand.
#![tactic(auto)]

pub mod ascii;
pub mod authority;
pub mod cut;
pub mod decoded;
pub mod dots;
mod encoded;
pub mod front;
pub mod host;
pub mod ip;
pub mod ipv6;
mod lanes;
mod marked;
mod plain;
pub mod position;
pub mod scan;
pub mod split;
pub mod unescaped;
