//! The calls of `iref` for C, declared in `c/iref.h`: each states the library's clause again, and
//! results are numbers.
#![tactic(auto)]

pub mod comparison;
pub mod fault;
pub mod parse;
pub mod ranges;
pub mod status;
pub mod store;
pub mod texts;
