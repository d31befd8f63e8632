//! References and URIs, borrowed and owned, with their components (RFC 3986 sections 3 and 4.1).
#![tactic(auto)]

pub mod borrowed;
pub mod canonical;
pub mod comparison;
pub mod composed;
pub mod conversions;
pub mod editors;
pub mod owned;
pub mod parts;
pub mod relative;
pub mod resolution;
pub mod rule;
pub mod setters;
pub mod sort_key;
