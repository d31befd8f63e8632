//! What both families share: types of ASCII alone, errors, offsets, counted equality, and the traits
//! of editors.
pub use iref_component::authority_mut::AuthorityPart;
pub use iref_component::named_texts::{Port, PortBuf, Scheme, SchemeBuf};
pub use iref_component::path_equality::{Steps, new_steps_have_room, path_eq_counted};
pub use iref_fault::{
    InvalidAuthority, InvalidFragment, InvalidHost, InvalidPath, InvalidPort, InvalidQuery,
    InvalidScheme, InvalidSegment, InvalidUserInfo, PortError, TryError,
};
pub use iref_grammar::context::PathContext;
pub use iref_grammar::offsets::Offsets;
pub use iref_path::path_part::PathPart;
pub use iref_path::target::PathTarget;
pub use iref_splice::Memory;
pub use iref_splice::target::Target;
