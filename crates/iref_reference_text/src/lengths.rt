//! How long the components of a reference are with their delimiters, from which all its offsets
//! follow.
ghost use Rattle.std.specs.Prelude.{◌≡◌, ◌+◌, ◌<◌, ◌^◌, length};
ghost use Rattle.iref_grammar.specs.{offsets_in, spell};
ghost use Rattle.iref_parse.specs.{texts_of, value_of};
ghost use Rattle.iref_reference_text.specs.ComponentLengths.{context_by, fragment_after, lengths_before};
ghost use Rattle.iref_reference_text.specs.ComponentLengths.{lengths_of_texts, path_after, placed, query_after};
ghost use Rattle.iref_reference_text.specs.ComponentLengths.{range_after, range_before, total_length};

use iref_grammar::context::PathContext;
use iref_grammar::offsets::Offsets;
use iref_parse::split::ReferenceSlices;
use iref_splice::text::marked_len;
use std::ops::Range;

/// The lengths of the components in bytes, each with its delimiter, and 0 for one that is absent:
/// of `s:/a?q` they are 2, 0, 2, 2 and 0 (RFC 3986 section 5.3).
#[derive(Clone, Copy)]
pub struct Lengths {
    /// The scheme's, with its `:`.
    pub scheme: usize,
    /// The authority's, with its `//`.
    pub authority: usize,
    /// The path's.
    pub path: usize,
    /// The query's, with its `?`.
    pub query: usize,
    /// The fragment's, with its `#`.
    pub fragment: usize,
}

impl Lengths {
    /// The lengths of these slices.
    pub fn of(slices: ReferenceSlices<'_>) -> Lengths
        ensures { result ≡ lengths_of_texts (texts_of slices.entry) }
    {
        Lengths {
            scheme: marked_len(1, slices.scheme),
            authority: marked_len(2, slices.authority),
            path: slices.path.len(),
            query: marked_len(1, slices.query),
            fragment: marked_len(1, slices.fragment),
        }
    }

    /// With a path of this length, and the query and the fragment of a reference.
    #[inline(always)]
    pub fn before(self, path: usize, reference: ReferenceSlices<'_>) -> Lengths
        ensures { result ≡ lengths_before self path (texts_of reference.entry) }
    {
        Lengths {
            path,
            query: marked_len(1, reference.query),
            fragment: marked_len(1, reference.fragment),
            ..self
        }
    }

    /// What stands before the path.
    pub fn context(self) -> PathContext
        ensures { result ≡ context_by self }
    {
        PathContext {
            has_scheme: self.scheme != 0,
            has_authority: self.authority != 0,
        }
    }

    /// Where the path begins: of `s:/a?q` at 2.
    pub fn path_start(self) -> usize
        requires { path_after self < 2 ^ 64 }
        ensures { result ≡ path_after self }
    {
        self.scheme + self.authority
    }

    /// Where the path ends, and the delimiter of a query stands: of `s:/a?q` at 4.
    pub fn query_mark(self) -> usize
        requires { query_after self < 2 ^ 64 }
        ensures { result ≡ query_after self }
    {
        self.path_start() + self.path
    }

    /// Where the delimiter of a fragment stands: of `s:/a?q#f` at 6.
    pub fn fragment_mark(self) -> usize
        requires { fragment_after self < 2 ^ 64 }
        ensures { result ≡ fragment_after self }
    {
        self.query_mark() + self.query
    }

    /// Where components of these lengths stand in their text.
    pub fn offsets(self) -> Offsets
        requires { total_length self < 2 ^ 64 }
        ensures { result ≡ placed self }
    {
        let path = self.path_start();
        let query = path + self.path;
        let fragment = query + self.query;
        Offsets {
            scheme: range_before(self.scheme),
            authority: range_after(self.scheme, 2, self.authority),
            path: path..query,
            query: range_after(query, 1, self.query),
            fragment: range_after(fragment, 1, self.fragment),
        }
    }
}

/// Where the components stand in the text that they spell.
pub fn offsets_of(slices: ReferenceSlices<'_>) -> Offsets
    requires { length (spell (value_of slices)) < 2 ^ 64 }
    ensures { result ≡ offsets_in (value_of slices.entry) }
{
    Lengths::of(slices).offsets()
}

// Where the scheme stands, if it and its delimiter are this long.
fn range_before(len: usize) -> Option<Range<usize>>
    ensures { result ≡ range_before len }
{
    match len.checked_sub(1) {
        Some(end) => Some(0..end),
        None => None,
    }
}

// Where a part stands after a delimiter at `start`, if the two are this long.
fn range_after(start: usize, mark: usize, len: usize) -> Option<Range<usize>>
    requires { start + len < 2 ^ 64 }
    ensures { result ≡ range_after start mark len }
{
    if len < mark {
        return None;
    }
    Some(start + mark..start + len)
}
