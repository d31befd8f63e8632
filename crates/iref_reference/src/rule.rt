//! The rules of references and of URIs (RFC 3986 sections 3 and 4.1), and what both are compared by.
ghost use Rattle.std.specs.Prelude.{◌≡◌, true, refl, is_some};
ghost use Rattle.std.proofs.Common.{sym, ◌∙◌};
ghost use Rattle.iref_grammar.proofs.EmptyLemmas.{is_reference_empty};
ghost use Rattle.iref_grammar.proofs.ReferenceRuleLemmas.{Decides-is_uri_reference, Decides-is_uri};
ghost use Rattle.iref_grammar.proofs.ComponentLemmas.{reference_if_uri, scheme_if_uri, uri_if_scheme};
ghost use Rattle.iref_fault.proofs.FaultLemmas.{no_fault_of_reference, reference_invalid, no_fault_of_uri, uri_invalid};
ghost use Rattle.iref_fault.specs.Faults as spec;
ghost use Rattle.iref_canonical.proofs.KnownKeyLemmas.{reference_known};
ghost use Rattle.iref_component.specs.{IsUri, IsUriReference, read_reference, is_reference, is_uri, Text, CharTests};
ghost use Rattle.iref_reference_text.proofs.BaseLemmas.{base_of_in_rule, base_of_in_uri_rule};
ghost use Rattle.iref_reference.specs.Comparisons.{by_components};

use crate::parts::{SchemePart, UriRefParts};
use iref_canonical::text::feed_reference;
use iref_component::faults::HasFault;
use iref_component::key::Key;
use iref_component::named_texts::Scheme;
use iref_component::rule::{AllowsEmpty, Refuses, Rule};
use iref_fault::fault::{self, Fault};
use iref_fault::{InvalidUri, InvalidUriRef};
use iref_grammar::chars::CharSet;
use iref_parse::split::{self, ReferenceSlices, parse_reference, split_reference};
use iref_reference_text::reference_text::HeldRule;
use std::cmp::Ordering;
use std::hash::Hasher;

/// A rule of references, with what stands for the scheme among their components: of URIs a scheme,
/// of references one that may be absent (RFC 3986 section 3.1).
pub trait HasScheme<'a>: HeldRule {
    /// What stands for the scheme.
    type Scheme: SchemePart<'a>;

    /// The scheme of what is in the rule may stand there.
    ghost allowed: { (tests : CharTests) (text : Text) → Self.test tests text ≡ true
        → Self.Scheme.allows (read_reference text).scheme };
}

/// The rule of references: `../b` and `s:a` are in it (RFC 3986 section 4.1).
pub struct ReferenceRule;

impl Rule for ReferenceRule {
    type Key = ReferenceKey;

    ghost rule = { IsUriReference };

    ghost decided = { Decides-is_uri_reference };

    ghost test = { is_reference };

    fn accepts<C: CharSet>(text: &str) -> bool {
        split::is_reference::<C>(text)
    }

    ghost keyed = { λ _ _ in_rule. in_rule };
}

impl<T> Refuses<T> for ReferenceRule {
    type Error = InvalidUriRef<T>;

    ghost refused = { λ error. error.0 };

    fn refuse(input: T) -> InvalidUriRef<T> {
        InvalidUriRef(input)
    }
}

impl AllowsEmpty for ReferenceRule {
    ghost allows_empty = { is_reference_empty };
}

impl HeldRule for ReferenceRule {
    ghost allows_scheme = { λ _. true };

    ghost has_allowed_scheme = { λ _ _ _. refl };

    ghost by_scheme = { λ _ _ in_rule _. in_rule };

    ghost references = { λ _ _ in_rule. in_rule };

    ghost by_presence = { λ _ _ _ _. refl };

    ghost keeps_bases = { base_of_in_rule };

    fn parse<C: CharSet>(text: &str) -> Option<ReferenceSlices<'_>> {
        parse_reference::<C>(text)
    }
}

impl<'a> HasScheme<'a> for ReferenceRule {
    type Scheme = Option<Scheme<'a>>;

    ghost allowed = { λ _ _ _. record {} };
}

impl HasFault for ReferenceRule {
    ghost fault_of = { spec.fault_of_reference };

    ghost complete = { no_fault_of_reference };

    ghost undecoded = { λ tests above. reference_invalid tests above };

    fn fault<C: CharSet>(text: &str) -> Option<Fault> {
        fault::fault_of_reference::<C>(text)
    }
}

/// The rule of references with a scheme: `s:a` is in it, `../b` is not (RFC 3986 section 3).
pub struct UriRule;

impl Rule for UriRule {
    type Key = ReferenceKey;

    ghost rule = { IsUri };

    ghost decided = { Decides-is_uri };

    ghost test = { is_uri };

    fn accepts<C: CharSet>(text: &str) -> bool {
        split::is_uri::<C>(text)
    }

    ghost keyed = { reference_if_uri };
}

impl<T> Refuses<T> for UriRule {
    type Error = InvalidUri<T>;

    ghost refused = { λ error. error.0 };

    fn refuse(input: T) -> InvalidUri<T> {
        InvalidUri(input)
    }
}

impl HeldRule for UriRule {
    ghost allows_scheme = { is_some };

    ghost has_allowed_scheme = { scheme_if_uri };

    ghost by_scheme = { uri_if_scheme };

    ghost references = { reference_if_uri };

    ghost by_presence = { λ _ _ same some. sym same ∙ some };

    ghost keeps_bases = { base_of_in_uri_rule };

    #[tactic(auto, using(iref_grammar::proofs::ComponentLemmas::full))]
    fn parse<C: CharSet>(text: &str) -> Option<ReferenceSlices<'_>> {
        match parse_reference::<C>(text) {
            Some(slices) if slices.scheme.is_some() => Some(slices),
            _ => None,
        }
    }
}

impl<'a> HasScheme<'a> for UriRule {
    type Scheme = Scheme<'a>;

    ghost allowed = { scheme_if_uri };
}

impl HasFault for UriRule {
    ghost fault_of = { spec.fault_of_uri };

    ghost complete = { no_fault_of_uri };

    ghost undecoded = { λ tests above. uri_invalid tests above };

    fn fault<C: CharSet>(text: &str) -> Option<Fault> {
        fault::fault_of_uri::<C>(text)
    }
}

/// The components, each as it is compared by itself: `HTTP://%61` and `http://a` have one key.
pub struct ReferenceKey;

impl Key for ReferenceKey {
    ghost comparison = { by_components };

    ghost has_key = { λ tests text. is_reference tests text ≡ true };

    ghost known = { reference_known };

    #[tactic(auto, unfolding(iref_grammar::specs::Key::key, iref_grammar::specs::Key::key_cmp))]
    fn compare<C: CharSet>(a: &str, b: &str) -> Ordering {
        UriRefParts::<C>::of_text(a).cmp(&UriRefParts::of_text(b))
    }

    fn is_equal<C: CharSet>(a: &str, b: &str) -> bool {
        UriRefParts::<C>::of_text(a) == UriRefParts::of_text(b)
    }

    fn feed<C: CharSet, H: Hasher>(text: &str, state: &mut H) {
        feed_reference::<C, H>(text, split_reference(text), state);
    }
}
