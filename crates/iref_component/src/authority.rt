//! Authorities, borrowed and owned, and edits of the owned ones (RFC 3986 section 3.2).
ghost use Rattle.std.specs.{Prelude.{◌≡◌, option_map, OnOk, OnErr, IsOk, IsNone, length}, Option.{option_copied}};
ghost use Rattle.iref_grammar.specs.{read_authority, IsAuthority, IsHost, IsPort, IsUserInfo};
ghost use Rattle.iref_grammar.specs.{authority_key, authority_key_cmp, port_text, AuthoritySteps.{with_user_info}};
ghost use Rattle.iref_grammar.specs.AuthoritySteps.{with_host, with_port};
ghost use Rattle.iref_canonical.specs.HashedParts.{IsAny, fed_authority};
ghost use Rattle.iref_component.specs.{AuthorityParts.{parts_value}, Comparisons.{ComparesBy}, Components.{text_of}};
ghost use Rattle.iref_component.specs.{Authorities.{EditsOwner}, AuthorityTexts.{IsWhole, one_whole}, Tries.{Tests}};
ghost use Rattle.iref_component.specs.Tries.{TestsIfSome};
ghost use Rattle.iref_splice.proofs.PartLemmas.{whole_is_within};

use crate::authority_mut::{AuthorityMut, AuthorityPart};
use crate::authority_parts::{AuthorityParts, parts_of};
use crate::borrowed::BorrowedText;
use crate::component_rules::AuthorityRule;
use crate::named_texts::{Host, Port, UserInfo};
use crate::owned::TextBuf;
use crate::rule_text::{RuleText, Storage};
use crate::test_before_edit::Tried;
use iref_fault::{InvalidAuthority, InvalidHost, InvalidPort, InvalidUserInfo};
use iref_grammar::chars::CharSet;
use iref_splice::Memory;
use iref_splice::change::{Change, Span};
use iref_splice::target::Target;
use std::alloc::Global;
use std::hash::Hash;

/// An authority (RFC 3986 section 3.2): that of `//u@h:80/x` is `u@h:80`. `InvalidAuthority` holds
/// a text that is no authority, such as `h:8a`.
pub type Authority<'a, C> = BorrowedText<'a, AuthorityRule, C>;
/// An authority that owns its text (RFC 3986 section 3.2), such as `u@h`, which is edited in place
/// to `u@h:80`.
pub type AuthorityBuf<C> = TextBuf<AuthorityRule, C>;

impl<'a, C: CharSet> Authority<'a, C> {
    /// Its parts, as slices of its text (RFC 3986 section 3.2): of `u@h:80` the user info `u`, the
    /// host `h` and the port `80`.
    pub fn parts(&self) -> AuthorityParts<'a, C>
        ensures { parts_value result ≡ read_authority (text_of self.now) }
    {
        parts_of(self.as_str())
    }

    /// The user info (RFC 3986 section 3.2.1), if there is one: what stands before the first `@`.
    /// Of `u@h:80` it is `u`, of `h` None.
    pub fn user_info(&self) -> Option<UserInfo<'a, C>>
        ensures { option_map text_of result ≡ (read_authority (text_of self.now)).user_info }
    {
        self.parts().user_info
    }

    /// The host (RFC 3986 section 3.2.2): of `u@h:80`, `h`.
    pub fn host(&self) -> Host<'a, C>
        ensures { text_of result ≡ (read_authority (text_of self.now)).host }
    {
        self.parts().host
    }

    /// The port (RFC 3986 section 3.2.3), if there is one: what follows the `:` after the host. Of
    /// `u@h:80` it is `80`, of `h` None.
    pub fn port(&self) -> Option<Port<'a>>
        ensures { option_map text_of result ≡ (read_authority (text_of self.now)).port }
    {
        self.parts().port
    }
}

impl<C: CharSet> AuthorityBuf<C> {
    /// The borrowed authority, such as `u@h`.
    pub fn as_authority(&self) -> Authority<'_, C>
        ensures { text_of result ≡ text_of self.now }
    {
        self.as_borrowed()
    }

    /// Its parts, as slices of its text (RFC 3986 section 3.2): of `u@h:80` the user info `u`, the
    /// host `h` and the port `80`.
    pub fn parts(&self) -> AuthorityParts<'_, C>
        ensures { parts_value result ≡ read_authority (text_of self.now) }
    {
        parts_of(self.as_str())
    }

    /// The user info (RFC 3986 section 3.2.1), if there is one: what stands before the first `@`.
    /// Of `u@h:80` it is `u`, of `h` None.
    pub fn user_info(&self) -> Option<UserInfo<'_, C>>
        ensures { option_map text_of result ≡ (read_authority (text_of self.now)).user_info }
    {
        self.parts().user_info
    }

    /// The host (RFC 3986 section 3.2.2): of `u@h:80`, `h`.
    pub fn host(&self) -> Host<'_, C>
        ensures { text_of result ≡ (read_authority (text_of self.now)).host }
    {
        self.parts().host
    }

    /// The port (RFC 3986 section 3.2.3), if there is one: what follows the `:` after the host. Of
    /// `u@h:80` it is `80`, of `h` None.
    pub fn port(&self) -> Option<Port<'_>>
        ensures { option_map text_of result ≡ (read_authority (text_of self.now)).port }
    {
        self.parts().port
    }
}

impl<C: CharSet> Target<AuthorityPart, C> for AuthorityBuf<C> {
    ghost text = { text_of };

    ghost stands = { λ text _. IsWhole text };

    ghost one_range = { λ text _. one_whole text };

    ghost is_within = { λ _ _ _ _ stands. whole_is_within stands.0 stands.1 };

    fn alloc(&self) -> Global {
        self.alloc()
    }

    fn part(&self, after: (), at: Span) -> &str {
        self.as_str()
    }

    fn replace(&mut self, after: (), at: Span, by: Change<'_>) -> Result<usize, Memory> {
        self.apply(by)?;
        Ok(self.len())
    }
}

#[tactic(auto, using(crate::proofs::AuthorityEditLemmas::whole_steps))]
impl<C: CharSet> AuthorityBuf<C> {
    ghost use Rattle.iref_component.specs.AuthorityEdits.{Borrows, edited_bytes, authority_mut_start};
    ghost use Rattle.iref_component.specs.AuthorityEdits.{authority_mut_end};

    /// The editor of all of it: with it, `set_port` with `80` turns `h` into `h:80`.
    pub fn as_authority_mut(&mut self) -> AuthorityMut<'_, C, AuthorityBuf<C>>
        ensures same_reference { Borrows result self.entry.ghost_name }
        ensures bytes { edited_bytes result ≡ text_of self.old }
        ensures start { authority_mut_start result ≡ 0 }
        ensures end { authority_mut_end result ≡ length (text_of self.old) }
    {
        let end = self.len();
        AuthorityMut::of_target(self, 0..end)
    }

    /// Replaces the authority, in the room of the old one where it fits: `u@h:80` by `g` is `g`.
    /// Out of memory, it returns `Memory` and changes nothing.
    pub fn replace(&mut self, authority: Authority<'_, C>) -> Result<(), Memory>
        ensures ok { OnOk result (text_of self.new ≡ text_of authority.entry) }
        ensures err { OnErr result (text_of self.new ≡ text_of self.old) }
    {
        self.as_authority_mut().replace(authority)
    }

    /// Replaces, adds or removes the user info with its `@`; removing takes no memory: `u@h`
    /// without a user info is `h`. Out of memory, it returns `Memory` and changes nothing.
    pub fn set_user_info(&mut self, user_info: Option<UserInfo<'_, C>>) -> Result<(), Memory>
        ensures edit { EditsOwner (with_user_info (option_map text_of user_info.entry))
            self.old self.new result }
        ensures none { IsNone user_info.entry → IsOk result }
    {
        self.as_authority_mut().set_user_info(user_info)
    }

    /// Replaces the host (RFC 3986 section 3.2.2): `u@h:80` with `g` becomes `u@g:80`. Out of
    /// memory, it returns `Memory` and changes nothing.
    pub fn set_host(&mut self, host: Host<'_, C>) -> Result<(), Memory>
        ensures { EditsOwner (with_host (text_of host.entry)) self.old self.new result }
    {
        self.as_authority_mut().set_host(host)
    }

    /// Replaces, adds or removes the port with its `:`; removing takes no memory: `h:80` without a
    /// port is `h`. Out of memory, it returns `Memory` and changes nothing.
    pub fn set_port(&mut self, port: Option<Port<'_>>) -> Result<(), Memory>
        ensures edit { EditsOwner (with_port (option_map text_of port.entry))
            self.old self.new result }
        ensures none { IsNone port.entry → IsOk result }
    {
        self.as_authority_mut().set_port(port)
    }

    /// Sets the port to a number, in decimal digits without leading zeros, or removes it, which
    /// takes no memory: `h` with 80 becomes `h:80`. Out of memory, it returns `Memory` and changes
    /// nothing.
    pub fn set_port_u32(&mut self, port: Option<u32>) -> Result<(), Memory>
        ensures edit { EditsOwner (with_port (option_map port_text port)) self.old self.new result }
        ensures none { IsNone port → IsOk result }
    {
        self.as_authority_mut().set_port_u32(port)
    }

    /// Does as `replace` does with a text: `Invalid` holds a text that is not an authority, such as
    /// `h:8a`. An `Err` changes nothing.
    pub fn try_replace<'t>(&mut self, authority: &'t str) -> Tried<InvalidAuthority<&'t str>>
        ensures ok { OnOk result (text_of self.new ≡ authority.now) }
        ensures text { Tests (IsAuthority C.tests) authority.entry (λ error. error.0) result }
        ensures err { OnErr result (text_of self.new ≡ text_of self.old) }
    {
        self.as_authority_mut().try_replace(authority)
    }

    /// Does as `set_user_info` does with a text: `Invalid` holds a text that is not a user info,
    /// such as `a@b`. An `Err` changes nothing.
    pub fn try_set_user_info<'t>(
        &mut self,
        user_info: Option<&'t str>,
    ) -> Tried<InvalidUserInfo<&'t str>>
        ensures edit { EditsOwner (with_user_info (option_copied user_info.entry))
            self.old self.new result }
        ensures text { TestsIfSome (IsUserInfo C.tests) user_info.entry (λ error. error.0) result }
    {
        self.as_authority_mut().try_set_user_info(user_info)
    }

    /// Does as `set_host` does with a text: `Invalid` holds a text that is not a host, such as
    /// `a:b`. An `Err` changes nothing.
    pub fn try_set_host<'t>(&mut self, host: &'t str) -> Tried<InvalidHost<&'t str>>
        ensures edit { EditsOwner (with_host host.now) self.old self.new result }
        ensures text { Tests (IsHost C.tests) host.entry (λ error. error.0) result }
    {
        self.as_authority_mut().try_set_host(host)
    }

    /// Does as `set_port` does with a text: `Invalid` holds a text that is not a port, such as
    /// `8a`. An `Err` changes nothing.
    pub fn try_set_port<'t>(&mut self, port: Option<&'t str>) -> Tried<InvalidPort<&'t str>>
        ensures edit { EditsOwner (with_port (option_copied port.entry)) self.old self.new result }
        ensures text { TestsIfSome IsPort port.entry (λ error. error.0) result }
    {
        self.as_authority_mut().try_set_port(port)
    }
}

/// Authorities are equal, in order and hashed by the keys of their parts: user info and host
/// decoded, and the port as text. Hosts keep their case, which RFC 3986 section 6.2.2.1 ignores.
pub fn authorities_compare_by_key<S: Storage, C: CharSet>()
    ensures { ComparesBy (λ a. authority_key (read_authority (text_of a))) authority_key_cmp
        IsAny fed_authority ⟦<RuleText<S, AuthorityRule, C> as Ord>⟧
        ⟦<RuleText<S, AuthorityRule, C> as Hash>⟧ }
{}
