//! Paths (RFC 3986 section 3.3).
ghost use Rattle.std.specs.Prelude.{◌≡◌, ◌<◌, ◌^◌, ◌++◌, not, [], IfOk, IsNone, IsOk, length, OnErr, OnOk, codes};
ghost use Rattle.std.specs.Prelude.{option_map};
ghost use Rattle.iref_grammar.specs.{alone, is_empty, spell_path};
ghost use Rattle.iref_canonical.specs.Hashed.{IsPathKey, fed_lone_path};
ghost use Rattle.iref_grammar.specs.{normal_segments, path_key, path_key_cmp, PathSuffix.{path_suffix}};
ghost use Rattle.iref_component.specs.{Comparisons.{AreKnown, ComparesBy}, Components.{text_of}};
ghost use Rattle.iref_component.specs.{NormalPaths.{normal_segments_left}, Paths.{path_value, segments_left}};
ghost use Rattle.iref_component.specs.Suffixes.{SpellsSuffix};
ghost use Rattle.iref_grammar.specs.PathFunctions as function;
ghost use Rattle.iref_grammar.specs.PathSteps as step;

use crate::borrowed::BorrowedText;
use crate::component_rules::PathRule;
use crate::named_texts::Segment;
use crate::normal::NormalizedSegments;
use crate::path_buf::PathBuf;
use crate::rule_text::{RuleText, Storage};
use crate::scheme_like::looks_like_scheme;
use crate::segments::Segments;
use iref_grammar::chars::CharSet;
use iref_grammar::context::PathContext;
use iref_path::directory::{directory_text, parent_text};
use iref_path::segments::split_root;
use iref_path::spell::{append_normalized, normalized_text};
use iref_path::suffix::suffix_text;
use iref_splice::Memory;
use std::alloc::Global;
use std::hash::Hash;

/// A path (RFC 3986 section 3.3): `/a//b` has the segments `a`, the empty one and `b`.
/// `InvalidPath` holds a text that is no path, such as `a?b`.
pub type Path<'a, C> = BorrowedText<'a, PathRule, C>;

impl<S: Storage, C: CharSet> RuleText<S, PathRule, C> {
    /// Whether the path has no segments. It is true of `/`, whose text is not empty, and of the empty
    /// path; `//` has two segments, both empty.
    #[tactic(auto, using(iref_path::proofs::SlashLemmas::some_pieces))]
    pub fn is_empty(&self) -> bool
        ensures { result ≡ is_empty (path_value self.now).segments }
    {
        split_root(self.as_borrowed().as_str()).1.is_none()
    }

    /// Whether the path begins with `/`: `/a` does, `a` does not.
    pub fn is_absolute(&self) -> bool
        ensures { result ≡ (path_value self.now).absolute }
    {
        split_root(self.as_borrowed().as_str()).0
    }

    /// Whether the path does not begin with `/`: `a` and the empty path are relative, `/a` is not.
    pub fn is_relative(&self) -> bool
        ensures { result ≡ not (path_value self.now).absolute }
    {
        !self.is_absolute()
    }

    /// How many segments the path has: `/a//b` has three, `a/` two.
    pub fn segment_count(&self) -> usize
        ensures { result ≡ function.segment_count (path_value self.now) }
    {
        self.as_borrowed().segments().len()
    }

    /// The path of the normal segments, with a guard where one is needed (RFC 3986 section 5.2.4):
    /// of `a/../b:c`, `./b:c`. It is equal to this path. Out of memory, it returns `Memory`.
    pub fn normalized(&self, alloc: Global) -> Result<PathBuf<C>, Memory>
        ensures text { IfOk result (λ path.
            text_of path ≡ spell_path (step.normalized alone (path_value self.now))) }
        ensures value { IfOk result (λ path.
            path_value path ≡ step.normalized alone (path_value self.now)) }
        ensures equal { IfOk result (λ path.
            path_key (path_value path) ≡ path_key (path_value self.now)) }
    {
        let path = self.as_borrowed().as_str();
        let alone = PathContext::default();
        let text = normalized_text::<C>(alloc, alone, self.is_absolute(), path)?;
        Ok(PathBuf::new_unchecked(text))
    }

    /// Appends the text of the normalized path to a vector: with `a/../b:c`, `ok` becomes `ok./b:c`
    /// (RFC 3986 section 5.2.4). Memory is requested once: out of memory, it returns `Memory` and
    /// changes nothing.
    pub fn append_normalized_to(&self, out: &mut Vec<u8>) -> Result<(), Memory>
        ensures ok { OnOk result (out.new.items
            ≡ out.old.items ++ spell_path (step.normalized alone (path_value self.now))) }
        ensures err { OnErr result (out.new.items ≡ out.old.items) }
    {
        append_normalized(PathContext::default(), self.as_borrowed().as_str(), out)
    }

    /// What is left of the path after a prefix, as a relative path: of `/foo/bar` after `/foo` it
    /// is `bar`, of `//foo` after `/` it is `.//foo`. None where the normal segments of the prefix
    /// are not a beginning of the path's, after decoding, or where only one of both is absolute. A
    /// prefix that ends in `/` has an empty segment last: of `/foo/bar` after `/foo/` it is None.
    /// Out of memory, it returns `Memory`, but None takes no memory.
    pub fn suffix(&self, alloc: Global, prefix: Path<'_, C>) -> Result<Option<PathBuf<C>>, Memory>
        ensures suffix { IfOk result
            (SpellsSuffix (path_value prefix.entry) (path_value self.now)) }
        ensures none { IsNone (path_suffix (path_value prefix.entry) (path_value self.now))
            → IsOk result }
    {
        let path = self.as_borrowed().as_str();
        match suffix_text::<C>(alloc, prefix.as_str(), path)? {
            Some(text) => Ok(Some(PathBuf::new_unchecked(text))),
            None => Ok(None),
        }
    }

    /// Whether what stands before the first `:` is a scheme (RFC 3986 section 4.2): in `a:b/c` it
    /// is, in `a/b:c` it is not.
    pub fn looks_like_scheme(&self) -> bool
        ensures { result ≡ function.looks_like_scheme (text_of self.now) }
    {
        looks_like_scheme(self.as_borrowed().as_str())
    }
}

impl<'a, C: CharSet> Path<'a, C> {
    /// The relative path without segments, which is that of `?q`.
    pub fn empty_relative() -> Self
        ensures { text_of result ≡ [] }
    {
        Path::empty()
    }

    /// The absolute path without segments: `/`.
    #[tactic(auto, using(iref_grammar::proofs::PathGrammarLemmas::empty_paths))]
    pub fn empty_absolute() -> Self
        ensures { text_of result ≡ codes "/" }
    {
        Path::new_unchecked("/")
    }

    // The path without segments.
    #[tactic(auto, unfolding(iref_grammar::specs::PathValue::read_path))]
    pub(crate) fn without_segments(absolute: bool) -> Self
        ensures { path_value result ≡ record { absolute = absolute; segments = [] } }
    {
        if absolute {
            Path::empty_absolute()
        } else {
            Path::empty_relative()
        }
    }

    /// The segments (RFC 3986 section 3.3): of `/a//b` they are `a`, an empty one and `b`.
    pub fn segments(&self) -> Segments<'a, C>
        ensures left { segments_left result ≡ (path_value self.now).segments }
        ensures fits { length (segments_left result) < 2 ^ 64 }
    {
        Segments::of_text(split_root(self.as_str()).1)
    }

    /// The normal segments: of `a/../b/./c` they are `b` and `c`. The `..` that nothing cancels
    /// stand first where the path is relative.
    ///
    /// This reads the path from its end, to count them. The back then reads each segment once more,
    /// and so does the front behind the last `..`. What stands before that `..` the front reads two
    /// to five times for each doubling of the number of segments there. No segment is copied.
    pub fn normalized_segments(&self) -> NormalizedSegments<'a, C>
        ensures { normal_segments_left result ≡ normal_segments (path_value self.now) }
    {
        NormalizedSegments::of_text(self.as_str())
    }

    /// The first segment: of `/a/b`, `a`.
    pub fn first(&self) -> Option<Segment<'a, C>>
        ensures { option_map text_of result ≡ function.first (path_value self.now) }
    {
        self.segments().next()
    }

    /// The last segment: of `/a/b`, `b`; of `a/`, an empty one.
    pub fn last(&self) -> Option<Segment<'a, C>>
        ensures { option_map text_of result ≡ function.last (path_value self.now) }
    {
        self.segments().next_back()
    }

    /// The last segment unless it is empty: of `/a/b`, `b`; of `a/`, None; of `/a/..`, `..`. It may
    /// hold escapes, and is no safe name for a file.
    #[tactic(auto, unfolding(iref_grammar::specs::PathFunctions::file_name))]
    pub fn file_name(&self) -> Option<Segment<'a, C>>
        ensures { option_map text_of result ≡ function.file_name (path_value self.now) }
    {
        let last = self.last()?;
        if last.is_empty() { None } else { Some(last) }
    }

    /// All up to and with the last `/` (RFC 3986 section 5.2.3): of `/foo/bar`, `/foo/`; of `foo`,
    /// which has none, the empty path.
    pub fn directory(&self) -> Self
        ensures text { text_of result ≡ function.directory_text (text_of self.now) }
        ensures value { path_value result ≡ function.directory (path_value self.now) }
    {
        Path::new_unchecked(directory_text::<C>(self.as_str()))
    }

    /// The path without its last segment: of `/a/b`, `/a`. None of a path without segments, and of
    /// one relative segment: of `/` and of `a`.
    pub fn parent(&self) -> Option<Self>
        ensures { option_map path_value result ≡ function.parent (path_value self.now) }
    {
        let text = parent_text::<C>(self.as_str())?;
        Some(Path::new_unchecked(text))
    }

    /// The parent, or else the empty path that is absolute where this one is: of `/a/b`, `/a`; of
    /// `a`, the empty path; of `/`, `/`.
    #[tactic(auto, unfolding(iref_grammar::specs::PathFunctions::parent_or_empty))]
    pub fn parent_or_empty(&self) -> Self
        ensures { path_value result ≡ function.parent_or_empty (path_value self.now) }
    {
        self.parent()
            .unwrap_or(Path::without_segments(self.is_absolute()))
    }
}

impl<'a, C: CharSet> IntoIterator for Path<'a, C> {
    type Item = Segment<'a, C>;

    type IntoIter = Segments<'a, C>;

    ghost into_iter_gives = { λ path segments.
        (segments_left segments ≡ (path_value path).segments)
        × (length (segments_left segments) < 2 ^ 64) };

    fn into_iter(self) -> Segments<'a, C> {
        self.segments()
    }
}

/// Paths are equal where both are absolute or both relative, and their segments are the same once
/// dot segments are removed (RFC 3986 section 6.2.2.3) and escapes are decoded. Order and hash go
/// by the same.
pub fn paths_compare_by_key<S: Storage, C: CharSet>()
    ensures by_key { ComparesBy (λ p. path_key (path_value p)) path_key_cmp IsPathKey fed_lone_path
        ⟦<RuleText<S, PathRule, C> as Ord>⟧ ⟦<RuleText<S, PathRule, C> as Hash>⟧ }
    ensures known { AreKnown (λ p. path_key (path_value p)) IsPathKey
        ⟦<RuleText<S, PathRule, C> as Hash>⟧ }
{}
