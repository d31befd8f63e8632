//! The rules of components, and what each compares by.
ghost use Rattle.std.specs.{Prelude.{◌≡◌}, Str.{str_to_ascii_lowercase}};
ghost use Rattle.percent_encoding.specs.Percent.{percent_decode};
ghost use Rattle.iref_grammar.specs.{IsFragment, IsHost, IsPctStr, IsPort, IsQuery, IsScheme, IsSegment, IsUserInfo};
ghost use Rattle.iref_grammar.specs.{is_fragment, is_host, is_pct_str, is_port, is_query, is_scheme, is_segment};
ghost use Rattle.iref_grammar.specs.{is_user_info, IsAuthority, IsPath, is_path, Authority.{is_authority}};
ghost use Rattle.iref_grammar.proofs.{AuthorityRuleLemmas.{Decides-is_authority}, EmptyLemmas.{is_authority_empty}};
ghost use Rattle.iref_grammar.proofs.EmptyLemmas.{is_fragment_empty, is_host_empty, is_pct_str_empty, is_port_empty};
ghost use Rattle.iref_grammar.proofs.EmptyLemmas.{is_query_empty, is_segment_empty, is_user_info_empty};
ghost use Rattle.iref_grammar.proofs.{HostRuleLemmas.{Decides-is_host}, LeafLemmas.{Decides-is_fragment}};
ghost use Rattle.iref_grammar.proofs.LeafLemmas.{Decides-is_query, Decides-is_segment, Decides-is_user_info};
ghost use Rattle.iref_grammar.proofs.PartRuleLemmas.{Decides-is_port_bytes, Decides-is_scheme_bytes};
ghost use Rattle.iref_grammar.proofs.{PathTextLemmas.{Decides-is_path}, PctLemmas.{Decides-is_pct_str}};
ghost use Rattle.iref_grammar.proofs.PctLemmas.{fragment_is_pct_str, host_is_pct_str, query_is_pct_str};
ghost use Rattle.iref_grammar.proofs.PctLemmas.{segment_is_pct_str, user_info_is_pct_str};
ghost use Rattle.iref_grammar.proofs.PathGrammarLemmas.{is_path_empty};

use crate::key::{DecodedBytes, Key, LowerCase, PartsKey, PathKey, SameText};
use crate::rule::{AllowsEmpty, Escaped, Refuses, Rule};
use iref_fault::{
    InvalidAuthority, InvalidFragment, InvalidHost, InvalidPath, InvalidPctStr, InvalidPort,
    InvalidQuery, InvalidScheme, InvalidSegment, InvalidUserInfo,
};
use iref_grammar::chars::CharSet;
use iref_parse::{authority, host, scan};

/// The rule of schemes (RFC 3986 section 3.1).
pub struct SchemeRule;

impl Rule for SchemeRule {
    type Key = LowerCase;

    ghost rule = { λ _. IsScheme };

    ghost decided = { λ _ _. Decides-is_scheme_bytes };

    ghost test = { λ _. is_scheme };

    fn accepts<C: CharSet>(text: &str) -> bool {
        scan::is_scheme(text)
    }

    ghost keyed = { λ _ _ _. record {} };
}

impl<T> Refuses<T> for SchemeRule {
    type Error = InvalidScheme<T>;

    ghost refused = { λ error. error.0 };

    fn refuse(input: T) -> InvalidScheme<T> {
        InvalidScheme(input)
    }
}

/// The rule of authorities (RFC 3986 section 3.2).
pub struct AuthorityRule;

impl Rule for AuthorityRule {
    type Key = PartsKey;

    ghost rule = { IsAuthority };

    ghost decided = { Decides-is_authority };

    ghost test = { is_authority };

    fn accepts<C: CharSet>(text: &str) -> bool {
        authority::is_authority::<C>(text)
    }

    ghost keyed = { λ _ _ in_rule. in_rule };
}

impl<T> Refuses<T> for AuthorityRule {
    type Error = InvalidAuthority<T>;

    ghost refused = { λ error. error.0 };

    fn refuse(input: T) -> InvalidAuthority<T> {
        InvalidAuthority(input)
    }
}

impl AllowsEmpty for AuthorityRule {
    ghost allows_empty = { is_authority_empty };
}

/// The rule of user infos (RFC 3986 section 3.2.1).
pub struct UserInfoRule;

impl Rule for UserInfoRule {
    type Key = DecodedBytes;

    ghost rule = { IsUserInfo };

    ghost decided = { Decides-is_user_info };

    ghost test = { is_user_info };

    fn accepts<C: CharSet>(text: &str) -> bool {
        scan::is_user_info::<C>(text)
    }

    ghost keyed = { λ _ _ _. record {} };
}

impl<T> Refuses<T> for UserInfoRule {
    type Error = InvalidUserInfo<T>;

    ghost refused = { λ error. error.0 };

    fn refuse(input: T) -> InvalidUserInfo<T> {
        InvalidUserInfo(input)
    }
}

impl AllowsEmpty for UserInfoRule {
    ghost allows_empty = { is_user_info_empty };
}

impl Escaped for UserInfoRule {
    ghost escaped = { user_info_is_pct_str };
}

/// The rule of hosts (RFC 3986 section 3.2.2).
pub struct HostRule;

impl Rule for HostRule {
    type Key = DecodedBytes;

    ghost rule = { IsHost };

    ghost decided = { Decides-is_host };

    ghost test = { is_host };

    fn accepts<C: CharSet>(text: &str) -> bool {
        host::is_host::<C>(text)
    }

    ghost keyed = { λ _ _ _. record {} };
}

impl<T> Refuses<T> for HostRule {
    type Error = InvalidHost<T>;

    ghost refused = { λ error. error.0 };

    fn refuse(input: T) -> InvalidHost<T> {
        InvalidHost(input)
    }
}

impl AllowsEmpty for HostRule {
    ghost allows_empty = { is_host_empty };
}

impl Escaped for HostRule {
    ghost escaped = { host_is_pct_str };
}

/// The rule of ports (RFC 3986 section 3.2.3).
pub struct PortRule;

impl Rule for PortRule {
    type Key = SameText;

    ghost rule = { λ _. IsPort };

    ghost decided = { λ _ _. Decides-is_port_bytes };

    ghost test = { λ _. is_port };

    fn accepts<C: CharSet>(text: &str) -> bool {
        scan::is_port(text)
    }

    ghost keyed = { λ _ _ _. record {} };
}

impl<T> Refuses<T> for PortRule {
    type Error = InvalidPort<T>;

    ghost refused = { λ error. error.0 };

    fn refuse(input: T) -> InvalidPort<T> {
        InvalidPort(input)
    }
}

impl AllowsEmpty for PortRule {
    ghost allows_empty = { λ _. is_port_empty };
}

/// The rule of paths: any text of the characters of segments and `/`.
pub struct PathRule;

impl Rule for PathRule {
    type Key = PathKey;

    ghost rule = { IsPath };

    ghost decided = { Decides-is_path };

    ghost test = { is_path };

    fn accepts<C: CharSet>(text: &str) -> bool {
        scan::is_path::<C>(text)
    }

    ghost keyed = { λ _ _ in_rule. in_rule };
}

impl<T> Refuses<T> for PathRule {
    type Error = InvalidPath<T>;

    ghost refused = { λ error. error.0 };

    fn refuse(input: T) -> InvalidPath<T> {
        InvalidPath(input)
    }
}

impl AllowsEmpty for PathRule {
    ghost allows_empty = { is_path_empty };
}

/// The rule of segments (RFC 3986 section 3.3).
pub struct SegmentRule;

impl Rule for SegmentRule {
    type Key = DecodedBytes;

    ghost rule = { IsSegment };

    ghost decided = { Decides-is_segment };

    ghost test = { is_segment };

    fn accepts<C: CharSet>(text: &str) -> bool {
        scan::is_segment::<C>(text)
    }

    ghost keyed = { λ _ _ _. record {} };
}

impl<T> Refuses<T> for SegmentRule {
    type Error = InvalidSegment<T>;

    ghost refused = { λ error. error.0 };

    fn refuse(input: T) -> InvalidSegment<T> {
        InvalidSegment(input)
    }
}

impl AllowsEmpty for SegmentRule {
    ghost allows_empty = { is_segment_empty };
}

impl Escaped for SegmentRule {
    ghost escaped = { segment_is_pct_str };
}

/// The rule of queries (RFC 3986 section 3.4).
pub struct QueryRule;

impl Rule for QueryRule {
    type Key = DecodedBytes;

    ghost rule = { IsQuery };

    ghost decided = { Decides-is_query };

    ghost test = { is_query };

    fn accepts<C: CharSet>(text: &str) -> bool {
        scan::is_query::<C>(text)
    }

    ghost keyed = { λ _ _ _. record {} };
}

impl<T> Refuses<T> for QueryRule {
    type Error = InvalidQuery<T>;

    ghost refused = { λ error. error.0 };

    fn refuse(input: T) -> InvalidQuery<T> {
        InvalidQuery(input)
    }
}

impl AllowsEmpty for QueryRule {
    ghost allows_empty = { is_query_empty };
}

impl Escaped for QueryRule {
    ghost escaped = { query_is_pct_str };
}

/// The rule of fragments (RFC 3986 section 3.5).
pub struct FragmentRule;

impl Rule for FragmentRule {
    type Key = DecodedBytes;

    ghost rule = { IsFragment };

    ghost decided = { Decides-is_fragment };

    ghost test = { is_fragment };

    fn accepts<C: CharSet>(text: &str) -> bool {
        scan::is_fragment::<C>(text)
    }

    ghost keyed = { λ _ _ _. record {} };
}

impl<T> Refuses<T> for FragmentRule {
    type Error = InvalidFragment<T>;

    ghost refused = { λ error. error.0 };

    fn refuse(input: T) -> InvalidFragment<T> {
        InvalidFragment(input)
    }
}

impl AllowsEmpty for FragmentRule {
    ghost allows_empty = { is_fragment_empty };
}

impl Escaped for FragmentRule {
    ghost escaped = { fragment_is_pct_str };
}

/// The rule of percent-encoded texts (RFC 3986 section 2.1).
pub struct PctStrRule;

impl Rule for PctStrRule {
    type Key = DecodedBytes;

    ghost rule = { λ _. IsPctStr };

    ghost decided = { λ _ _. Decides-is_pct_str };

    ghost test = { λ _. is_pct_str };

    fn accepts<C: CharSet>(text: &str) -> bool {
        scan::is_pct_str(text)
    }

    ghost keyed = { λ _ _ _. record {} };
}

impl<T> Refuses<T> for PctStrRule {
    type Error = InvalidPctStr<T>;

    ghost refused = { λ error. error.0 };

    fn refuse(input: T) -> InvalidPctStr<T> {
        InvalidPctStr(input)
    }
}

impl AllowsEmpty for PctStrRule {
    ghost allows_empty = { λ _. is_pct_str_empty };
}

impl Escaped for PctStrRule {
    ghost escaped = { λ _ _ in_rule. in_rule };
}

/// The texts of a rule compare by the bytes that they decode to: `%41` is `A`, and `%26` is `&`
/// too, though RFC 3986 section 6.2.2.2 decodes unreserved characters alone. Schemes compare by
/// their text in lower case (section 6.2.2.1), and ports by their text: `80` is not `080`.
pub fn rules_have_their_keys()
    ensures scheme { ⟦<<SchemeRule as Rule>::Key as Key>⟧.comparison.key ≡ str_to_ascii_lowercase }
    ensures user_info { ⟦<<UserInfoRule as Rule>::Key as Key>⟧.comparison.key ≡ percent_decode }
    ensures host { ⟦<<HostRule as Rule>::Key as Key>⟧.comparison.key ≡ percent_decode }
    ensures port { ⟦<<PortRule as Rule>::Key as Key>⟧.comparison.key ≡ (λ text. text) }
    ensures segment { ⟦<<SegmentRule as Rule>::Key as Key>⟧.comparison.key ≡ percent_decode }
    ensures query { ⟦<<QueryRule as Rule>::Key as Key>⟧.comparison.key ≡ percent_decode }
    ensures fragment { ⟦<<FragmentRule as Rule>::Key as Key>⟧.comparison.key ≡ percent_decode }
    ensures pct_str { ⟦<<PctStrRule as Rule>::Key as Key>⟧.comparison.key ≡ percent_decode }
{}
