//! The parts of an authority (RFC 3986 section 3.2).
ghost use Rattle.std.specs.Prelude.{◌≡◌, true, ⊤};
ghost use Rattle.iref_grammar.specs.{is_authority, read_authority};
ghost use Rattle.iref_grammar.specs.{authority_key_cmp};
ghost use Rattle.iref_canonical.specs.HashedParts.{IsAny, fed_authority};
ghost use Rattle.iref_component.specs.{AuthorityParts.{parts_key, parts_value}, Comparisons.{ComparesBy}};

use crate::borrowed::borrowed_of;
use crate::named_texts::{Host, Port, UserInfo};
use iref_grammar::chars::CharSet;
use iref_parse::authority::split_parts;
use std::alloc::AllocError;
use std::hash::Hash;

/// The parts of an authority (RFC 3986 section 3.2): `u@h:80` has the user info `u`, the host `h`
/// and the port `80`. They compare as it does: by the decoded user info and host, and by the text
/// of the port.
#[derive_where(Copy, Debug, PartialEq, Eq, PartialOrd, Ord, Hash)]
pub struct AuthorityParts<'a, C: CharSet> {
    /// What stands before the first `@`.
    pub user_info: Option<UserInfo<'a, C>>,
    /// What stands before the port.
    pub host: Host<'a, C>,
    /// What follows the `:` after the host.
    pub port: Option<Port<'a>>,
}

impl<C: CharSet> Clone for AuthorityParts<'_, C> {
    ghost is_clone = { λ parts copy. copy ≡ parts };

    ghost is_infallible = { λ _. ⊤ };

    fn clone(&self) -> Result<Self, AllocError> {
        Ok(*self)
    }
}

/// The parts of a text that is known to be an authority, as slices of it: of `u@h:80` they are `u`,
/// `h` and `80`.
#[tactic(auto, unfolding(iref_grammar::specs::Authority::is_authority, iref_grammar::specs::Authority::has_authority_parts))]
pub fn parts_of<C: CharSet>(text: &str) -> AuthorityParts<'_, C>
    requires { is_authority C.tests text.now ≡ true }
    ensures { parts_value result ≡ read_authority text.now }
{
    let slices = split_parts(text);
    AuthorityParts {
        user_info: borrowed_of(slices.user_info),
        host: Host::new_unchecked(slices.host),
        port: borrowed_of(slices.port),
    }
}

/// The parts of authorities are equal, in order and hashed by their keys.
pub fn authority_parts_compare_by_key<C: CharSet>()
    ensures { ComparesBy parts_key authority_key_cmp IsAny fed_authority
        ⟦<AuthorityParts<'static, C> as Ord>⟧ ⟦<AuthorityParts<'static, C> as Hash>⟧ }
{}
