//! Edits of a reference's text: each is one step of the reference, and keeps the lengths with the text.
ghost use Rattle.std.specs.Prelude.{◌≡◌, ◌≤◌, ◌<◌, ◌+◌, ◌-◌, ◌^◌, ◌++◌, true, false, [], ◌∷◌, length, Option, is_some};
ghost use Rattle.std.specs.{Prelude.{option_map, codes, OnOk, OnErr, IsOk, IsNone}, Option.{option_copied}};
ghost use Rattle.std.specs.{List.{splice}, String.{string_bytes}};
ghost use Rattle.iref_splice.specs.Changes.{IsNoLonger, IsWithin, changed, replaced};
ghost use Rattle.iref_component.specs.{Text, colon, question_mark, hash_sign, AuthorityValue, spell_authority};
ghost use Rattle.iref_component.specs.{read_authority, is_authority, part_then, then_part, none_or, is_scheme, is_path};
ghost use Rattle.iref_component.specs.{is_query, is_fragment, offsets_of, read_reference, spell, PathValue, read_path};
ghost use Rattle.iref_component.specs.{spell_path, with_query, with_fragment, with_path, with_authority, with_scheme};
ghost use Rattle.iref_reference_text.specs.{PathTexts.{authority_text}, Steps.{StepsOrStays}};
ghost use Rattle.iref_reference_text.specs.ComponentLengths.{HasLengths, lengths_of};

use super::{HeldRule, ReferenceText};
use crate::lengths::Lengths;
use iref_grammar::chars::CharSet;
use iref_grammar::context::PathContext;
use iref_path::guard::{guard_of, root_of};
use iref_splice::Memory;
use iref_splice::change::Change;
use iref_splice::text::{self, marked, marked_after, marked_len};
use std::alloc::AllocError;
use std::ops::Range;

// Replaces a range of a text by a delimiter and a part, or removes it, which takes no memory.
fn put_marked(
    text: &mut String,
    within: Range<usize>,
    mark: &str,
    part: Option<&str>,
) -> Result<(), AllocError>
    requires { IsWithin (string_bytes text.old) within }
    ensures ok { OnOk result (string_bytes text.new ≡ replaced (string_bytes text.old) within
        (then_part mark.now (option_copied part.entry))) }
    ensures err { OnErr result (string_bytes text.new ≡ string_bytes text.old) }
    ensures none { IsNone part.entry → IsOk result }
{
    let (first, middle) = marked(mark, part);
    let close = "";
    let change = Change {
        within,
        first,
        middle,
        close,
    };
    text::replace(text, change)
}

impl<R: HeldRule, C: CharSet> ReferenceText<R, C> {
    /// Replaces, adds or removes the query; removing takes no memory.
    pub fn set_query(&mut self, query: Option<&str>) -> Result<(), Memory>
        requires { none_or (is_query C.tests) (option_copied query) ≡ true }
        ensures set { StepsOrStays (with_query (option_copied query.entry)) self.old self.new
            result }
        ensures none { IsNone query.entry → IsOk result }
    {
        let within = self.query_range();
        put_marked(&mut self.text, within, "?", query)?;
        self.lengths.query = marked_len(1, query);
        Ok(())
    }

    /// Replaces, adds or removes the fragment; removing takes no memory.
    pub fn set_fragment(&mut self, fragment: Option<&str>) -> Result<(), Memory>
        requires { none_or (is_fragment C.tests) (option_copied fragment) ≡ true }
        ensures set { StepsOrStays (with_fragment (option_copied fragment.entry)) self.old self.new
            result }
        ensures none { IsNone fragment.entry → IsOk result }
    {
        let within = self.fragment_range();
        put_marked(&mut self.text, within, "#", fragment)?;
        self.lengths.fragment = marked_len(1, fragment);
        Ok(())
    }

    /// Replaces the path, with a guard where it would be read as something else.
    pub fn set_path(&mut self, path: &str) -> Result<(), Memory>
        requires { is_path C.tests path.now ≡ true }
        ensures { StepsOrStays (with_path (read_path path.now)) self.old self.new result }
    {
        let old = self.lengths();
        let guard = guard_of(old.context(), path);
        let lengths = Lengths {
            path: guard.len() + path.len(),
            ..old
        };
        let change = Change {
            within: self.path_range(),
            first: guard,
            middle: path,
            close: "",
        };
        self.step(lengths, change)
    }

    /// Replaces, adds or removes the scheme; removing takes no memory. A path whose first segment
    /// holds a `:` is guarded where no scheme stands before it any more.
    pub fn set_scheme(&mut self, scheme: Option<&str>) -> Result<(), Memory>
        requires scheme { none_or is_scheme (option_copied scheme) ≡ true }
        requires allowed { R.allows_scheme (option_copied scheme) ≡ true }
        ensures set { StepsOrStays (with_scheme (option_copied scheme.entry)) self.old self.new
            result }
        ensures none { IsNone scheme.entry → IsOk result }
    {
        let old = self.lengths();
        let guard = self.scheme_guard(scheme.is_some());
        let len = guard.len() + old.path;
        let within = self.scheme_range();
        let (part, mark) = marked_after(scheme, ":");
        let change = Change {
            within,
            first: part,
            middle: mark,
            close: guard,
        };
        text::replace(&mut self.text, change)?;
        self.lengths.scheme = marked_len(1, scheme);
        self.lengths.path = len;
        Ok(())
    }

    /// Replaces, adds or removes the authority; removing takes no memory. Where one comes to stand
    /// the path becomes absolute, and where it goes a path that begins with `//` is guarded.
    pub fn set_authority(&mut self, authority: Option<&str>) -> Result<(), Memory>
        requires { none_or (is_authority C.tests) (option_copied authority) ≡ true }
        ensures set { StepsOrStays (with_authority
            (option_map read_authority (option_copied authority.entry))) self.old self.new result }
        ensures none { IsNone authority.entry → IsOk result }
    {
        let old = self.lengths();
        let guard = self.authority_guard(authority.is_some());
        let len = guard.len() + old.path;
        let within = self.authority_range();
        let (mark, part) = marked("//", authority);
        let change = Change {
            within,
            first: mark,
            middle: part,
            close: guard,
        };
        text::replace(&mut self.text, change)?;
        self.lengths.authority = marked_len(2, authority);
        self.lengths.path = len;
        Ok(())
    }

    // Makes a change of the text, which leaves components of these lengths.
    pub(super) fn step(&mut self, lengths: Lengths, change: Change<'_>) -> Result<(), Memory>
        requires within { IsWithin self.old change.within }
        requires leaves { HasLengths (R.test C.tests) lengths (changed self.old change) }
        ensures ok { OnOk result (self.new ≡ changed self.old change.entry) }
        ensures err { OnErr result (self.new ≡ self.old) }
        ensures shorter { IsNoLonger change.entry → IsOk result }
    {
        text::replace(&mut self.text, change)?;
        self.lengths = lengths;
        Ok(())
    }

    // The query and its delimiter, or where they would stand.
    #[tactic(auto, using(crate::proofs::EditLemmas::replaces))]
    fn query_range(&self) -> Range<usize>
        ensures within { IsWithin self.now result }
        ensures replaced { (query : Option Text)
            → splice self.now result.start result.end (then_part (question_mark ∷ []) query)
            ≡ spell (with_query query (read_reference self.now)) }
    {
        let lengths = self.lengths();
        lengths.query_mark()..lengths.fragment_mark()
    }

    // The fragment and its delimiter, or where they would stand.
    #[tactic(auto, using(crate::proofs::EditLemmas::replaces))]
    fn fragment_range(&self) -> Range<usize>
        ensures within { IsWithin self.now result }
        ensures replaced { (fragment : Option Text)
            → splice self.now result.start result.end (then_part (hash_sign ∷ []) fragment)
            ≡ spell (with_fragment fragment (read_reference self.now)) }
    {
        self.lengths().fragment_mark()..self.text.as_str().len()
    }

    // Where the path stands.
    pub(super) fn path_range(&self) -> Range<usize>
        ensures range { result ≡ (offsets_of self.now).path }
        ensures in_rule { R.test C.tests self.now ≡ true }
        ensures within { IsWithin self.now result }
        ensures replaced { (path : PathValue) → replaced self.now result (spell_path path)
            ≡ spell (record (read_reference self.now) { path = path }) }
    {
        let lengths = self.lengths();
        lengths.path_start()..lengths.query_mark()
    }

    // The authority and its delimiter, or where they would stand.
    #[tactic(auto, using(crate::proofs::EditLemmas::replaces))]
    fn authority_range(&self) -> Range<usize>
        ensures within { IsWithin self.now result }
        ensures len { result.end - result.start
            ≡ (lengths_of (read_reference self.now)).authority }
        ensures replaced { (authority : Option AuthorityValue) (path : PathValue) (guard : Text)
            → guard ++ spell_path (read_reference self.now).path ≡ spell_path path
            → splice self.now result.start result.end
            (then_part (codes "//") (option_map spell_authority authority) ++ guard)
            ≡ spell (record (read_reference self.now) { authority = authority; path = path }) }
    {
        let lengths = self.lengths();
        lengths.scheme..lengths.path_start()
    }

    // What is written before the path where an authority is put, or removed.
    #[tactic(auto, using(crate::proofs::LeadLemmas::authority_guards))]
    fn authority_guard(&self, has_authority: bool) -> &'static str
        ensures spelled { (authority : Option AuthorityValue) → is_some authority ≡ has_authority
            → result.now ++ spell_path (read_reference self.now).path
            ≡ spell_path (with_authority authority (read_reference self.now)).path }
        ensures short { has_authority ≡ false → length result.now
            ≤ (lengths_of (read_reference self.now)).authority }
        ensures fits { length result.now
            + (lengths_of (read_reference self.now)).path < 2 ^ 64 }
    {
        let path = self.slices().path;
        let context = self.lengths().context();
        let comes = has_authority & !context.has_authority;
        if comes {
            root_of(path)
        } else {
            guard_of(
                PathContext {
                    has_authority,
                    ..context
                },
                path,
            )
        }
    }

    // The scheme and its delimiter, or where they would stand.
    #[tactic(auto, using(crate::proofs::EditLemmas::replaces))]
    fn scheme_range(&self) -> Range<usize>
        ensures within { IsWithin self.now result }
        ensures len { result.end - result.start
            ≡ (lengths_of (read_reference self.now)).scheme }
        ensures replaced { (scheme : Option Text) (path : PathValue) (guard : Text)
            → guard ++ authority_text self.now ++ spell_path (read_reference self.now).path
            ≡ authority_text self.now ++ spell_path path
            → splice self.now result.start result.end (part_then (colon ∷ []) scheme ++ guard)
            ≡ spell (record (read_reference self.now) { scheme = scheme; path = path }) }
    {
        0..self.lengths().scheme
    }

    // What is written before the authority and the path where a scheme is put, or removed.
    #[tactic(auto, using(crate::proofs::LeadLemmas::scheme_guards))]
    fn scheme_guard(&self, has_scheme: bool) -> &'static str
        ensures spelled { (scheme : Option Text) → is_some scheme ≡ has_scheme
            → result.now ++ authority_text self.now ++ spell_path (read_reference self.now).path
            ≡ authority_text self.now
            ++ spell_path (with_scheme scheme (read_reference self.now)).path }
        ensures short { has_scheme ≡ false → length result.now
            ≤ (lengths_of (read_reference self.now)).scheme }
        ensures fits { length result.now
            + (lengths_of (read_reference self.now)).path < 2 ^ 64 }
    {
        let path = self.slices().path;
        let context = self.lengths().context();
        let stays = has_scheme | context.has_authority;
        if stays {
            ""
        } else {
            guard_of(
                PathContext {
                    has_scheme,
                    ..context
                },
                path,
            )
        }
    }
}
