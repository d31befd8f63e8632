//! The rows of the table by which a reference is resolved (RFC 3986 section 5.2.2).
ghost use Rattle.std.specs.Prelude.{◌≡◌};
ghost use Rattle.iref_parse.specs.{texts_of};
ghost use Rattle.iref_reference_text.specs.Rows.{has_path, row_of};

use iref_parse::split::ReferenceSlices;
use iref_path::segments::split_root;

/// The row of a reference: which path what it resolves to has.
#[derive(Clone, Copy)]
pub enum Row {
    /// Its own, normalized: it has a scheme or an authority, as `//h/a` has.
    Own,
    /// The base's as it stands: it has no path either, as `?q` has none.
    Base,
    /// Its own, normalized, after the base's authority: it is absolute, as `/a` is.
    Rooted,
    /// Its own after the base's directory, normalized: it is relative, as `a` is.
    Merged,
}

impl Row {
    /// The row of the reference of these components.
    #[inline(always)]
    #[tactic(auto, using(crate::proofs::RowLemmas::rows))]
    pub fn of(reference: ReferenceSlices<'_>) -> Row
        ensures { result ≡ row_of (texts_of reference.entry) }
    {
        let is_own = reference.scheme.is_some() | reference.authority.is_some();
        if is_own {
            Row::Own
        } else if reference.path.is_empty() {
            Row::Base
        } else if split_root(reference.path).0 {
            Row::Rooted
        } else {
            Row::Merged
        }
    }

    /// Whether what it resolves to has the reference's path after the base's authority.
    #[inline(always)]
    pub fn has_path(self) -> bool
        ensures { result ≡ has_path self }
    {
        matches!(self, Row::Rooted | Row::Merged)
    }
}
