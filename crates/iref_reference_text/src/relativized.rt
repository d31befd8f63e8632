//! The shortest reference that resolves against a base to a target's very text (RFC 3986 sections
//! 4.2 and 5.2).
ghost use Rattle.std.specs.Option.{option_copied};
ghost use Rattle.std.specs.Prelude.{◌≡◌, ◌+◌, ◌*◌, ◌<◌, ◌^◌, ◌&&◌, IfOk, IfSome, is_some, length, option_map, true};
ghost use Rattle.iref_grammar.specs.{Contexts.{fits}, Reference.{ReferenceValue, context_of}};
ghost use Rattle.iref_grammar.specs.{spell_components, spell_path};
ghost use Rattle.iref_parse.specs.{value_of};
ghost use Rattle.iref_path.specs.MeasuredPaths.{IsMeasured, measured_text};
ghost use Rattle.iref_grammar.specs.Relativized.{fragment_alone, relative_path};
ghost use Rattle.iref_grammar.specs.RelativizedChoice.{chosen, with_a_path, with_own_scheme, with_whole_path};
ghost use Rattle.iref_grammar.specs.RelativizedTests.{is_reachable, is_settled};
ghost use Rattle.iref_reference_text.specs.MeasuredReferences.{IsReady, measured_components};
ghost use Rattle.iref_reference_text.specs.ShortestTexts.{same_part, shared_of, shares_authority, shares_path};
ghost use Rattle.iref_reference_text.specs.ShortestTexts.{shares_query, shares_scheme, shorter_texts};

use crate::measured::{MeasuredReference, context_after};
use iref_grammar::context::PathContext;
use iref_parse::split::ReferenceSlices;
use iref_path::measured::MeasuredPath;
use iref_path::segments::split_root;
use iref_path::settled::is_settled;
use iref_splice::unwritten::Unwritten;
use std::alloc::AllocError;

// Nothing stands before the path.
const ALONE: PathContext = PathContext {
    has_scheme: false,
    has_authority: false,
};

// Whether two parts have the same text, or both are absent.
fn same_part(part: Option<&str>, other: Option<&str>) -> bool
    ensures { result ≡ same_part (option_copied part.entry) (option_copied other.entry) }
{
    part == other
}

// The last of the leading components whose texts a target has in common with its base.
#[derive(Clone, Copy)]
enum Shared {
    // Not even the scheme.
    Nothing,
    Scheme,
    Authority,
    Path,
    Query,
}

impl Shared {
    // What the references of these components have in common.
    fn of(target: ReferenceSlices<'_>, base: ReferenceSlices<'_>) -> Shared
        ensures { result ≡ shared_of (value_of target.entry) (value_of base.entry) }
    {
        if !same_part(target.scheme, base.scheme) {
            Shared::Nothing
        } else if !same_part(target.authority, base.authority) {
            Shared::Scheme
        } else if target.path != base.path {
            Shared::Authority
        } else if !same_part(target.query, base.query) {
            Shared::Path
        } else {
            Shared::Query
        }
    }

    // Whether the scheme is the same.
    fn has_scheme(self) -> bool
        ensures { result ≡ shares_scheme self }
    {
        !matches!(self, Shared::Nothing)
    }

    // Whether the authority is the same too.
    fn has_authority(self) -> bool
        ensures { result ≡ shares_authority self }
    {
        matches!(self, Shared::Authority | Shared::Path | Shared::Query)
    }

    // Whether the path is the same too.
    fn has_path(self) -> bool
        ensures { result ≡ shares_path self }
    {
        matches!(self, Shared::Path | Shared::Query)
    }

    // Whether the query is the same too.
    fn has_query(self) -> bool
        ensures { result ≡ shares_query self }
    {
        matches!(self, Shared::Query)
    }
}

// The target as it stands, without the `/` after a path of `..` alone.
fn with_own_scheme(target: ReferenceSlices<'_>) -> MeasuredReference<'_>
    requires { length target.path.now + 16 < 2 ^ 64 }
    ensures texts { measured_components result
        ≡ spell_components (with_own_scheme (value_of target.entry)) }
    ensures ready { IsReady result }
{
    let whole = MeasuredReference::whole(target);
    match MeasuredPath::climb(target.path) {
        Some(path) => MeasuredReference { path, ..whole },
        None => whole,
    }
}

// The shortest reference that gives the whole path.
fn with_whole_path(shared: Shared, target: ReferenceSlices<'_>) -> MeasuredReference<'_>
    requires { length target.path.now + 16 < 2 ^ 64 }
    ensures texts { (base : ReferenceValue) → shared ≡ shared_of (value_of target.entry) base
        → measured_components result
        ≡ spell_components (with_whole_path (value_of target.entry) base) }
    ensures ready { IsReady result }
{
    if shared.has_authority() & split_root(target.path).0 {
        let path = MeasuredPath::normalized(ALONE, target.path);
        return MeasuredReference::with_only_path(path, target);
    }
    if shared.has_scheme() & target.authority.is_some() {
        let whole = MeasuredReference::whole(target);
        return MeasuredReference {
            scheme: None,
            ..whole
        };
    }
    with_own_scheme(target)
}

// The path that leads from the base's directory, after the same authority, if one does.
fn relative_path<'a>(
    shared: Shared,
    target: ReferenceSlices<'a>,
    base: ReferenceSlices<'a>,
) -> Option<MeasuredPath<'a>>
    requires room { 3 * length base.path.now + length target.path.now + 16 < 2 ^ 64 }
    ensures some { is_some result ≡ shares_authority shared
        && is_reachable (value_of target.entry) (value_of base.entry) }
    ensures text { IfSome result (λ path. measured_text path
        ≡ spell_path (relative_path (value_of target.entry) (value_of base.entry))) }
    ensures measured { IfSome result IsMeasured }
{
    if !shared.has_authority() {
        return None;
    }
    MeasuredPath::relativized(base.authority.is_some(), base.path, target.path)
}

// The reference with the shorter text, and of two as long the first.
fn shorter<'a>(
    first: MeasuredReference<'a>,
    other: MeasuredReference<'a>,
) -> Result<MeasuredReference<'a>, AllocError>
    requires first { IsReady first }
    requires other { IsReady other }
    ensures texts { IfOk result (λ found. measured_components found
        ≡ shorter_texts (measured_components first.entry) (measured_components other.entry)) }
    ensures ready { IfOk result IsReady }
{
    if other.count()? < first.count()? {
        Ok(other)
    } else {
        Ok(first)
    }
}

// The shortest reference that gives a path.
fn with_a_path<'a>(
    shared: Shared,
    target: ReferenceSlices<'a>,
    base: ReferenceSlices<'a>,
) -> Result<MeasuredReference<'a>, AllocError>
    requires room { 3 * length base.path.now + length target.path.now + 16 < 2 ^ 64 }
    requires shared { shared ≡ shared_of (value_of target) (value_of base) }
    ensures texts { IfOk result (λ found. measured_components found
        ≡ spell_components (with_a_path (value_of target.entry) (value_of base.entry))) }
    ensures ready { IfOk result IsReady }
{
    let whole = with_whole_path(shared, target);
    match relative_path(shared, target, base) {
        Some(path) => shorter(MeasuredReference::with_only_path(path, target), whole),
        None => Ok(whole),
    }
}

// Whether the path of the target stands as normalizing leaves it.
fn is_settled_there(target: ReferenceSlices<'_>) -> bool
    requires { fits (context_of (value_of target)) (value_of target).path ≡ true }
    ensures { result ≡ is_settled (value_of target.entry) }
{
    is_settled(context_after(target.scheme, target.authority), target.path)
}

// The fragment of the target, and nothing else.
#[tactic(auto, unfolding(iref_grammar::specs::PathValue::spell_path))]
fn fragment_alone(target: ReferenceSlices<'_>) -> MeasuredReference<'_>
    ensures texts { measured_components result
        ≡ spell_components (fragment_alone (value_of target.entry)) }
    ensures ready { IsReady result }
{
    MeasuredReference {
        scheme: None,
        authority: None,
        path: MeasuredPath::kept(""),
        query: None,
        fragment: target.fragment,
    }
}

impl<'a> MeasuredReference<'a> {
    /// The shortest reference that resolves against the base to the target's very text. There is none
    /// where no reference does. It gives no path where the base has the path and the query, or the path
    /// where the target has a query; and else one where the target's path stands as normalizing leaves
    /// it.
    pub fn relativized(
        target: ReferenceSlices<'a>,
        base: ReferenceSlices<'a>,
    ) -> Result<Option<Self>, AllocError>
        requires fits { fits (context_of (value_of target)) (value_of target).path ≡ true }
        requires room { 3 * length base.path.now + length target.path.now + 16 < 2 ^ 64 }
        ensures texts { IfOk result (λ found. option_map measured_components found
            ≡ option_map spell_components
            (chosen (value_of target.entry) (value_of base.entry))) }
        ensures ready { IfOk result (λ found. IfSome found IsReady) }
    {
        let shared = Shared::of(target, base);
        if shared.has_query() {
            return Ok(Some(fragment_alone(target)));
        }
        if shared.has_path() & target.query.is_some() {
            let tail = MeasuredReference::with_only_path(MeasuredPath::kept(""), target);
            return Ok(Some(tail));
        }
        if is_settled_there(target) {
            return Ok(Some(with_a_path(shared, target, base)?));
        }
        Ok(None)
    }
}
