//! Where a text is outside a rule, and why.
ghost use Rattle.std.specs.{Prelude.{◌≡◌, ◌↔◌, Option, Some, None, option_map, false, refl}, Str.{is_utf8}};
ghost use Rattle.iref_grammar.specs.{CharTests, AreAboveAscii, Text, InUtf8};
ghost use Rattle.iref_fault.specs.BytePlaces.{fault_value};
ghost use Rattle.iref_fault.specs.Faults.{FaultValue, not_utf8, fault_of_part, fault_of_authority};
ghost use Rattle.iref_fault.proofs.FaultLemmas.{no_fault_of_part, part_invalid, no_fault_of_authority};
ghost use Rattle.iref_fault.proofs.FaultLemmas.{authority_invalid};
ghost use Rattle.iref_fault.specs.declared.part.PartRule.TheVariants as part;

use crate::borrowed::BorrowedText;
use crate::component_rules::{
    AuthorityRule, FragmentRule, HostRule, PathRule, PortRule, QueryRule, SchemeRule, SegmentRule,
    UserInfoRule,
};
use crate::rule::Rule;
use iref_fault::fault::{self, Fault, text_of_bytes};
use iref_fault::part::PartRule;
use iref_grammar::chars::CharSet;

/// A rule whose refused texts have a fault, in one of the components of references (RFC 3986
/// section 3): each rule but that of percent-encoded texts.
pub trait HasFault: Rule {
    /// The fault of a text, if it is outside the rule.
    ghost fault_of: { CharTests → Text → Option FaultValue };

    /// The fault of a text, if it is outside the rule: of the port `8x`, at 1.
    fn fault<C: CharSet>(text: &str) -> Option<Fault>
        ensures { option_map fault_value result ≡ fault_of C.tests text.now };

    /// A text has none exactly if it is in the rule.
    ghost complete: { (tests : CharTests) → AreAboveAscii tests → (text : Text)
        → (Self.fault_of tests text ≡ None) ↔ InUtf8 (Self.rule tests) text };

    /// Bytes that are not UTF-8 have that fault.
    ghost undecoded: { (tests : CharTests) → AreAboveAscii tests → (bytes : Text)
        → is_utf8 bytes ≡ false → Self.fault_of tests bytes ≡ Some (not_utf8 bytes) };
}

impl<R: HasFault, C: CharSet> BorrowedText<'_, R, C> {
    /// Where the text is outside the rule, and why: `Port::fault` of `8x` says that the port is
    /// invalid at byte 1, and of `80` nothing. There is none exactly where `new` takes the text.
    pub fn fault(text: &str) -> Option<Fault>
        ensures fault { option_map fault_value result ≡ R.fault_of C.tests text.now }
        ensures none { (result ≡ None) ↔ InUtf8 (R.rule C.tests) text.now }
    {
        // Most texts are right, and the test of the rule is one scan.
        if R::accepts::<C>(text) {
            return None;
        }
        R::fault::<C>(text)
    }

    /// Where the bytes are outside the rule, and why: first that they are not UTF-8, as 255 alone is
    /// not, at 0. There is none exactly where `from_bytes` takes the bytes.
    pub fn fault_of_bytes(bytes: &[u8]) -> Option<Fault>
        ensures fault { option_map fault_value result ≡ R.fault_of C.tests bytes.now }
        ensures none { (result ≡ None) ↔ InUtf8 (R.rule C.tests) bytes.now }
    {
        match text_of_bytes(bytes) {
            Ok(text) => Self::fault(text),
            Err(fault) => Some(fault),
        }
    }
}

impl HasFault for SchemeRule {
    ghost fault_of = { λ tests. fault_of_part tests part.Scheme };

    ghost complete = { λ tests above text. no_fault_of_part tests above part.Scheme text refl };

    ghost undecoded = { λ tests above bytes. part_invalid tests above part.Scheme bytes };

    fn fault<C: CharSet>(text: &str) -> Option<Fault> {
        fault::fault_of_part::<C>(PartRule::Scheme, text)
    }
}

impl HasFault for UserInfoRule {
    ghost fault_of = { λ tests. fault_of_part tests part.UserInfo };

    ghost complete = { λ tests above text. no_fault_of_part tests above part.UserInfo text refl };

    ghost undecoded = { λ tests above bytes. part_invalid tests above part.UserInfo bytes };

    fn fault<C: CharSet>(text: &str) -> Option<Fault> {
        fault::fault_of_part::<C>(PartRule::UserInfo, text)
    }
}

impl HasFault for HostRule {
    ghost fault_of = { λ tests. fault_of_part tests part.Host };

    ghost complete = { λ tests above text. no_fault_of_part tests above part.Host text refl };

    ghost undecoded = { λ tests above bytes. part_invalid tests above part.Host bytes };

    fn fault<C: CharSet>(text: &str) -> Option<Fault> {
        fault::fault_of_part::<C>(PartRule::Host, text)
    }
}

impl HasFault for PortRule {
    ghost fault_of = { λ tests. fault_of_part tests part.Port };

    ghost complete = { λ tests above text. no_fault_of_part tests above part.Port text refl };

    ghost undecoded = { λ tests above bytes. part_invalid tests above part.Port bytes };

    fn fault<C: CharSet>(text: &str) -> Option<Fault> {
        fault::fault_of_part::<C>(PartRule::Port, text)
    }
}

impl HasFault for PathRule {
    ghost fault_of = { λ tests. fault_of_part tests part.Path };

    ghost complete = { λ tests above text. no_fault_of_part tests above part.Path text refl };

    ghost undecoded = { λ tests above bytes. part_invalid tests above part.Path bytes };

    fn fault<C: CharSet>(text: &str) -> Option<Fault> {
        fault::fault_of_part::<C>(PartRule::Path, text)
    }
}

impl HasFault for SegmentRule {
    ghost fault_of = { λ tests. fault_of_part tests part.Segment };

    ghost complete = { λ tests above text. no_fault_of_part tests above part.Segment text refl };

    ghost undecoded = { λ tests above bytes. part_invalid tests above part.Segment bytes };

    fn fault<C: CharSet>(text: &str) -> Option<Fault> {
        fault::fault_of_part::<C>(PartRule::Segment, text)
    }
}

impl HasFault for QueryRule {
    ghost fault_of = { λ tests. fault_of_part tests part.Query };

    ghost complete = { λ tests above text. no_fault_of_part tests above part.Query text refl };

    ghost undecoded = { λ tests above bytes. part_invalid tests above part.Query bytes };

    fn fault<C: CharSet>(text: &str) -> Option<Fault> {
        fault::fault_of_part::<C>(PartRule::Query, text)
    }
}

impl HasFault for FragmentRule {
    ghost fault_of = { λ tests. fault_of_part tests part.Fragment };

    ghost complete = { λ tests above text. no_fault_of_part tests above part.Fragment text refl };

    ghost undecoded = { λ tests above bytes. part_invalid tests above part.Fragment bytes };

    fn fault<C: CharSet>(text: &str) -> Option<Fault> {
        fault::fault_of_part::<C>(PartRule::Fragment, text)
    }
}

impl HasFault for AuthorityRule {
    ghost fault_of = { fault_of_authority };

    ghost complete = { no_fault_of_authority };

    ghost undecoded = { authority_invalid };

    fn fault<C: CharSet>(text: &str) -> Option<Fault> {
        fault::fault_of_authority::<C>(text)
    }
}
