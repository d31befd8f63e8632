//! The definitions of URIs and IRIs (RFC 3986, RFC 3987) and their laws: grammar, values, spelling and
//! reading; and what the calls mean: normal forms, steps of edits, resolution, comparison, relative
//! references, the shortest reference to a text, numbers of hosts and ports, IRIs as URIs.
#![tactic(auto)]

pub mod authority_laws;
pub mod chars;
pub mod context;
pub mod key_laws;
pub mod mapping_laws;
pub mod number_laws;
pub mod offsets;
pub mod path_call_laws;
pub mod path_laws;
pub mod reference_laws;
pub mod relativized_laws;
pub mod resolution_laws;
pub mod step_laws;
pub mod text_laws;
