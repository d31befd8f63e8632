//! What is read from the text of a path (RFC 3986 sections 3.3 and 5.2.4): its ends, its normal
//! segments from both ends, its comparison by these, and the text of the normalized path;
//! and what edits make of such a text.
#![tactic(auto)]

pub mod compare_lists;
pub mod counted;
mod counted_segments;
pub mod directory;
pub mod forward;
pub mod guard;
pub mod measured;
pub mod measured_body;
pub mod normal_items;
pub mod order;
pub mod path_part;
pub mod relative_steps;
pub mod relativized;
pub mod rewriting;
pub mod segments;
pub mod settled;
mod shown;
pub mod spell;
pub mod staying_names;
pub mod steps;
pub mod suffix;
pub mod target;
