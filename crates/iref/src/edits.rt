//! Lists of edits, each one step on the components of an owned value (RFC 3986 section 3).
ghost use Rattle.std.specs.Prelude.{◌≡◌, ⊤};

mod lists;
mod parts;
mod schemes;

use iref_component::authority::Authority;
use iref_component::named_texts::{Fragment, Host, Port, Query, Scheme, Segment, UserInfo};
use iref_component::path::Path;
use iref_grammar::chars::CharSet;
use iref_splice::Memory;
pub use lists::{Applied, apply_all, apply_all_uri};
use std::alloc::{AllocError, Global};
use std::default::MadeWith;
use std::fmt;
use thiserror::Error;

/// An edit of a reference or of a URI: `Pop` turns `//h/a?q` into `//h/?q` (RFC 3986 sections 3 and
/// 5.2.4).
#[derive_where(Copy)]
pub enum Edit<'a, C: CharSet> {
    /// Replaces the scheme, or removes it, which a URI refuses.
    SetScheme(Option<Scheme<'a>>),
    /// Replaces, adds or removes the authority.
    SetAuthority(Option<Authority<'a, C>>),
    /// Replaces the authority, which must be present.
    ReplaceAuthority(Authority<'a, C>),
    /// Replaces, adds or removes the user info of the authority.
    SetUserInfo(Option<UserInfo<'a, C>>),
    /// Replaces the host of the authority.
    SetHost(Host<'a, C>),
    /// Replaces, adds or removes the port of the authority.
    SetPort(Option<Port<'a>>),
    /// Sets the port to a number, which is written in decimal digits without leading zeros.
    SetPortU32(Option<u32>),
    /// Replaces the path. One with segments is made absolute after an authority, and guarded where
    /// it would be read as something else.
    SetPath(Path<'a, C>),
    /// Sets the path and normalizes it, as one edit (RFC 3986 section 5.2.4).
    SetAndNormalizePath(Path<'a, C>),
    /// Replaces, adds or removes the query.
    SetQuery(Option<Query<'a, C>>),
    /// Replaces, adds or removes the fragment.
    SetFragment(Option<Fragment<'a, C>>),
    /// Appends a segment as it is.
    LazyPush(Segment<'a, C>),
    /// Appends a segment, but follows `.` and `..`: `..` turns `foo/bar` into `foo/`.
    Push(Segment<'a, C>),
    /// Follows the segments of a relative path; an absolute one replaces the path.
    JoinPath(Path<'a, C>),
    /// Removes the last segment; a path that ends in `..`, or a relative one without segments,
    /// gains a `..`.
    Pop,
    /// Removes all segments.
    Clear,
    /// Replaces the path by its normal form.
    Normalize,
}

impl<C: CharSet> Clone for Edit<'_, C> {
    ghost is_clone = { λ edit copy. copy ≡ edit };

    ghost is_infallible = { λ _. ⊤ };

    fn clone(&self) -> Result<Self, AllocError> {
        Ok(*self)
    }
}

impl<C: CharSet> MadeWith<Global> for Edit<'_, C> {
    // The unused places of a short list hold it.
    fn made_with(_: Global) -> Self {
        Edit::Normalize
    }
}

impl<C: CharSet> Edit<'_, C> {
    // The name of what it does.
    fn name(&self) -> &'static str {
        match self {
            Edit::SetScheme(_) => "SetScheme",
            Edit::SetAuthority(_) => "SetAuthority",
            Edit::ReplaceAuthority(_) => "ReplaceAuthority",
            Edit::SetUserInfo(_) => "SetUserInfo",
            Edit::SetHost(_) => "SetHost",
            Edit::SetPort(_) => "SetPort",
            Edit::SetPortU32(_) => "SetPortU32",
            Edit::SetPath(_) => "SetPath",
            Edit::SetAndNormalizePath(_) => "SetAndNormalizePath",
            Edit::SetQuery(_) => "SetQuery",
            Edit::SetFragment(_) => "SetFragment",
            Edit::LazyPush(_) => "LazyPush",
            Edit::Push(_) => "Push",
            Edit::JoinPath(_) => "JoinPath",
            Edit::Pop => "Pop",
            Edit::Clear => "Clear",
            Edit::Normalize => "Normalize",
        }
    }
}

impl<C: CharSet> fmt::Debug for Edit<'_, C> {
    fn fmt<W: fmt::Write>(&self, f: &mut fmt::Formatter<W>) -> fmt::Result {
        f.write_str(self.name())
    }
}

/// Why an edit of a list is refused: `SetHost` on `s:a` returns `NoAuthority` (RFC 3986 section
/// 3.2).
#[derive(Clone, Copy, Debug, PartialEq, Eq, Error)]
pub enum EditFault {
    /// The edit changes a subcomponent of an absent authority.
    #[error("no authority")]
    NoAuthority,
    /// The edit removes the scheme of a URI.
    #[error("a URI needs a scheme")]
    SchemeNeeded,
    /// An allocation failed, or the new length exceeds the maximum of a buffer.
    #[error("out of memory")]
    Memory,
}

impl From<Memory> for EditFault {
    ghost use Rattle.iref.specs.declared.edits.EditFault.TheVariants as edit_fault;

    ghost from_gives = { λ _ error. error ≡ edit_fault.Memory };

    fn from(_: Memory) -> EditFault {
        EditFault::Memory
    }
}
