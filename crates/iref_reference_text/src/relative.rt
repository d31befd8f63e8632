//! What leads from a base to a target, the way back from resolution (RFC 3986 section 5.2).
ghost use Rattle.std.specs.Prelude.{◌≡◌, ◌+◌, ◌*◌, ◌<◌, ◌^◌, length};
ghost use Rattle.iref_grammar.specs.{relative_to, Relative.{is_same_place}};
ghost use Rattle.iref_parse.specs.{AreComponents, spell_components, texts_of, value_of};
ghost use Rattle.iref_path.specs.MeasuredPaths.{IsMeasured, measured_text};
ghost use Rattle.iref_reference_text.specs.Relatives.{after_path, agree, may_end_here};
ghost use Rattle.iref_reference_text.specs.MeasuredReferences.{IsReady, measured_components};

use crate::measured::MeasuredReference;
use iref_component::authority::Authority;
use iref_component::borrowed::borrowed_of;
use iref_component::named_texts::Scheme;
use iref_grammar::chars::CharSet;
use iref_parse::split::ReferenceSlices;
use iref_path::counted::path_texts_eq;
use iref_path::measured::MeasuredPath;
use iref_path::segments::split_root;

// Whether a reference to the target may leave out scheme and authority: they are equal, or the target
// takes its scheme from any base.
#[tactic(auto, using(iref_grammar::proofs::PartTieLemmas::parts_tested), unfolding(iref_grammar::specs::Key::key))]
fn agree<C: CharSet>(target: ReferenceSlices<'_>, base: ReferenceSlices<'_>) -> bool
    requires target { AreComponents C.tests (texts_of target) }
    requires base { AreComponents C.tests (texts_of base) }
    ensures { result ≡ agree (value_of target.entry) (value_of base.entry) }
{
    let scheme: Option<Scheme<'_>> = borrowed_of(target.scheme);
    let same_scheme = scheme == borrowed_of(base.scheme);
    let has_root = target.authority.is_some() | split_root(target.path).0;
    let schemes_agree = same_scheme | (target.scheme.is_none() & has_root);
    if !schemes_agree {
        return false;
    }
    let authority: Option<Authority<'_, C>> = borrowed_of(target.authority);
    authority == borrowed_of(base.authority)
}

// Whether the target has a query or a fragment, or a path for which the empty one may stand with
// neither: a relative one, or one with no normal segments, as `/` has none.
fn may_end_here(target: ReferenceSlices<'_>) -> bool
    ensures { result ≡ may_end_here (value_of target.entry) }
{
    let has_end = target.query.is_some() | target.fragment.is_some();
    let ends_anyway = has_end | !split_root(target.path).0;
    ends_anyway || path_texts_eq(target.path, "/")
}

// Whether the empty path leads to the target: it stands for the base's path, and for its query
// where the target has none.
fn is_same_place(target: ReferenceSlices<'_>, base: ReferenceSlices<'_>) -> bool
    ensures { result ≡ is_same_place (value_of target.entry) (value_of base.entry) }
{
    let keeps_query = target.query.is_some() | base.query.is_none();
    if !keeps_query {
        return false;
    }
    path_texts_eq(target.path, base.path) && may_end_here(target)
}

impl<'a> MeasuredReference<'a> {
    /// What leads from the base to the target: the empty path, steps from the base's directory, or
    /// the target whole.
    #[tactic(auto, unfolding(iref_grammar::specs::Relative::relative_to, iref_grammar::specs::PathValue::spell_path))]
    pub fn relative_to<C: CharSet>(target: ReferenceSlices<'a>, base: ReferenceSlices<'a>) -> Self
        requires target { AreComponents C.tests (texts_of target) }
        requires base { AreComponents C.tests (texts_of base) }
        requires room { 3 * length base.path.now + length target.path.now + 16 < 2 ^ 64 }
        ensures texts { measured_components result ≡ spell_components
            (relative_to (value_of target.entry) (value_of base.entry)) }
        ensures ready { IsReady result }
    {
        if !agree::<C>(target, base) {
            return MeasuredReference::whole(target);
        }
        if is_same_place(target, base) {
            return MeasuredReference::with_only_path(MeasuredPath::kept(""), target);
        }
        if split_root(target.path).0 {
            let path = MeasuredPath::between(base.path, target.path);
            return MeasuredReference::with_only_path(path, target);
        }
        MeasuredReference::whole(target)
    }

    // The reference as it stands.
    pub(crate) fn whole(reference: ReferenceSlices<'a>) -> Self
        ensures texts { measured_components result ≡ spell_components (value_of reference.entry) }
        ensures ready { IsReady result }
    {
        MeasuredReference {
            scheme: reference.scheme,
            authority: reference.authority,
            path: MeasuredPath::kept(reference.path),
            query: reference.query,
            fragment: reference.fragment,
        }
    }

    // A path, and the query and the fragment of a reference.
    pub(crate) fn with_only_path(path: MeasuredPath<'a>, reference: ReferenceSlices<'a>) -> Self
        requires { IsMeasured path }
        ensures texts { measured_components result
            ≡ after_path (measured_text path.entry) (texts_of reference.entry) }
        ensures ready { IsReady result }
    {
        MeasuredReference {
            scheme: None,
            authority: None,
            path,
            query: reference.query,
            fragment: reference.fragment,
        }
    }
}
