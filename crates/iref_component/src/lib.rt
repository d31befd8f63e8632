//! The components of references: schemes, authorities and their parts, paths and their segments,
//! queries and fragments. Each is a rule of the grammar; its borrowed and its owned text are
//! aliases of one type over what holds the text. Authorities and paths have editors besides.
#![tactic(auto)]

pub mod authority;
pub mod authority_mut;
pub mod authority_parts;
pub mod borrowed;
pub mod component_rules;
pub mod faults;
pub mod host;
pub mod key;
pub mod named_texts;
pub mod normal;
pub mod owned;
pub mod path;
pub mod path_buf;
pub mod path_equality;
pub mod path_mut;
pub mod pct;
pub mod port;
pub mod rule;
pub mod rule_text;
pub mod same_calls;
pub mod scheme_like;
pub mod segments;
pub mod test_before_edit;
