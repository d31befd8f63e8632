//! Edits of an authority in place (RFC 3986 section 3.2).
ghost use Rattle.std.specs.Prelude.{◌≡◌, ◌≤◌, ◌+◌, ◌-◌, ◌++◌, true, length, slice_range, vec_len, Some, IfOk, IsOk};
ghost use Rattle.std.specs.{Prelude.{IsNone, option_map, [], ◌∷◌}, Borrow.{sem, RestsIfErr}};
ghost use Rattle.std.specs.Option.{option_copied};
ghost use Rattle.iref_grammar.specs.{AuthorityValue, IsAuthority, is_authority, read_authority, is_user_info};
ghost use Rattle.iref_grammar.specs.{is_host, is_port, none_or, IsHost, IsPort, IsUserInfo, Grammar.{at_sign, colon}};
ghost use Rattle.iref_grammar.specs.Texts.{part_then, then_part};
ghost use Rattle.iref_grammar.specs.{port_text, AuthoritySteps.{with_user_info, with_host, with_port}};
ghost use Rattle.iref_splice.specs.Changes.{IsWithin, replaced};
ghost use Rattle.iref_component.specs.{AuthorityTexts.{SpellsAuthority, IsRangeOf, authority_is_text}};
ghost use Rattle.iref_component.specs.{Components.{text_of}, Makers.{ParsesUtf8}, Tries.{Tests, TestsIfSome}};

use crate::authority::Authority;
use crate::borrowed::{borrowed_of, text_of};
use crate::component_rules::{AuthorityRule, HostRule, PortRule, UserInfoRule};
use crate::named_texts::{Host, Port, UserInfo};
use crate::test_before_edit::{Tried, read, test};
use iref_fault::{InvalidAuthority, InvalidHost, InvalidPort, InvalidUserInfo, TryError};
use iref_grammar::chars::CharSet;
use iref_parse::authority::split_parts;
use iref_splice::Memory;
use iref_splice::change::{Change, Span};
use iref_splice::target::{Part, Target};
use iref_splice::text::{marked, marked_after, marked_len};
use itoa::Buffer;
use std::fmt;
use std::marker::PhantomData;
use std::ops::Range;

/// The authority as the part of a text that an editor edits.
pub struct AuthorityPart;

impl Part for AuthorityPart {
    type Context = ();

    ghost test = { λ tests _. is_authority tests };

    ghost reads = { λ tests _. is_authority tests };

    ghost is_text = { λ tests above _. authority_is_text tests above };
}

// Where the host stands. The user info and its `@` end where it starts, and the port and its `:`
// start where it ends.
fn host_range<C: CharSet>(text: &str) -> Range<usize>
    requires { is_authority C.tests text.now ≡ true }
    ensures user_info { IsRangeOf C.tests text.now 0 result.start
        (none_or (is_user_info C.tests)) (part_then (at_sign ∷ [])) with_user_info }
    ensures host { IsRangeOf C.tests text.now result.start result.end
        (is_host C.tests) (λ host. host) with_host }
    ensures port { IsRangeOf C.tests text.now result.end (length text.now)
        (none_or is_port) (then_part (colon ∷ [])) with_port }
{
    let slices = split_parts(text);
    let start = marked_len(1, slices.user_info);
    start..start + slices.host.len()
}

/// The editor of an authority that stands in a vector of bytes, or in another text that it borrows
/// (RFC 3986 section 3.2): at the bytes from 2 up to and without 6 of `//h:80/x`, `set_port` with
/// None leaves `//h/x`. It knows where the authority stands, in bytes, and its end moves with each
/// edit; a refused edit changes nothing.
#[derive(Drop)]
pub struct AuthorityMut<'a, C: CharSet, T: Target<AuthorityPart, C> = Vec<u8>> {
    target: &'a mut T,
    range: Span,
    chars: PhantomData<C>,
    ghost placed: { T.stands (T.text target.now) tt
        range.start range.end } by { T.one_range _ _ _ _ },
}

impl<'a, C: CharSet> AuthorityMut<'a, C, Vec<u8>> {
    ghost use Rattle.iref_component.specs.AuthorityEdits.{borrowed_name, Borrows, edited_bytes, authority_mut_start};
    ghost use Rattle.iref_component.specs.{AuthorityEdits.{authority_mut_end, authority_mut_text}, Rows.{bytes_row}};

    /// The editor of the authority in a range of the bytes: of `//h:80/x` that at 2 to 6. The error
    /// holds the bytes of a range that are no authority, such as `/x`.
    pub fn new(
        bytes: &'a mut Vec<u8>,
        range: Range<usize>,
    ) -> Result<Self, InvalidAuthority<&'a [u8]>>
        requires start_le_end { range.start ≤ range.end }
        requires in_bounds { range.end ≤ vec_len bytes.old }
        ensures* unchanged_if_refused { sem 𝓛 (RestsIfErr bytes_row bytes.entry borrowed_name
            result (λ last. last.items ≡ bytes.old.items)) }
        ensures parses { let part = slice_range bytes.old.items range.start range.end in
            ParsesUtf8 (IsAuthority C.tests) authority_mut_text (λ e. e.0.now) part part result }
        ensures same_reference { IfOk result (λ editor. Borrows editor bytes.entry.ghost_name) }
        ensures bytes { IfOk result (λ editor. edited_bytes editor ≡ bytes.old.items) }
        ensures start { IfOk result (λ editor. authority_mut_start editor ≡ range.start) }
        ensures end { IfOk result (λ editor. authority_mut_end editor ≡ range.end) }
    {
        match Authority::<C>::from_bytes(&bytes[range.start..range.end]) {
            Ok(_) => Ok(AuthorityMut::new_unchecked(bytes, range)),
            Err(_) => Err(InvalidAuthority(&bytes[range.start..range.end])),
        }
    }

    /// The editor of the authority in a range of the bytes that is known to hold one, as that of
    /// `//h:80/x` at 2 to 6.
    pub fn new_unchecked(bytes: &'a mut Vec<u8>, range: Range<usize>) -> Self
        requires start_le_end { range.start ≤ range.end }
        requires in_bounds { range.end ≤ vec_len bytes.old }
        requires in_rule { is_authority C.tests
            (slice_range bytes.old.items range.start range.end) ≡ true }
        ensures same_reference { Borrows result bytes.entry.ghost_name }
        ensures bytes { edited_bytes result ≡ bytes.old.items }
        ensures start { authority_mut_start result ≡ range.start }
        ensures end { authority_mut_end result ≡ range.end }
    {
        AuthorityMut::of_target(bytes, range)
    }
}

impl<'a, C: CharSet, T: Target<AuthorityPart, C>> AuthorityMut<'a, C, T> {
    ghost use Rattle.iref_component.specs.AuthorityEdits.{Borrows, edited_bytes, LiesInBytes, authority_mut_start};
    ghost use Rattle.iref_component.specs.AuthorityEdits.{authority_mut_end, authority_mut_text, Edits, EditsTo};

    /// The editor of the authority in a range of what holds it: of `//h:80/x` that at 2 to 6.
    pub fn of_target(target: &'a mut T, range: Range<usize>) -> Self
        requires { T.stands (T.text target.old) tt range.start range.end }
        ensures same_reference { Borrows result target.entry.ghost_name }
        ensures bytes { edited_bytes result ≡ T.text target.old }
        ensures start { authority_mut_start result ≡ range.start }
        ensures end { authority_mut_end result ≡ range.end }
    {
        let Range { start, end } = range;
        AuthorityMut {
            target,
            range: Span { start, end },
            chars: PhantomData,
        }
    }

    // The text of the authority.
    fn text(&self) -> &str
        ensures value { result.now ≡ authority_mut_text self.now }
        ensures in_rule { is_authority C.tests result.now ≡ true }
        ensures lies { LiesInBytes self.now }
    {
        self.target.part((), self.range)
    }

    /// The authority: at 2 to 6 of `//h:80/x`, `h:80`.
    pub fn as_authority(&self) -> Authority<'_, C>
        ensures { text_of result ≡ authority_mut_text self.now }
    {
        Authority::new_unchecked(self.text())
    }

    /// The authority, for as long as its target is borrowed: at 2 to 6 of `//h:80/x`, `h:80`.
    pub fn into_authority(self) -> Authority<'a, C>
        ensures { text_of result ≡ authority_mut_text self.entry }
    {
        let AuthorityMut { target, range, .. } = self;
        Authority::new_unchecked(target.part((), range))
    }

    /// Where the authority stands, in bytes: in `//h:80/x` at 2 to 6, and after `set_port` with
    /// None at 2 to 3.
    pub fn range(&self) -> Range<usize>
        ensures start { result.start ≡ authority_mut_start self.now }
        ensures end { result.end ≡ authority_mut_end self.now }
    {
        self.range.start..self.range.end
    }

    // Replaces a range of the authority by two texts, as one edit.
    fn put(&mut self, within: Range<usize>, pieces: (&str, &str)) -> Result<(), Memory>
        requires lies { LiesInBytes self.old }
        requires within { IsWithin (authority_mut_text self.old) within }
        requires in_rule { is_authority C.tests (replaced (authority_mut_text self.old) within
            (pieces.0.now ++ pieces.1.now)) ≡ true }
        ensures edit { (value : AuthorityValue) → SpellsAuthority C.tests
            (replaced (authority_mut_text self.old) within
            (pieces.entry.0.now ++ pieces.entry.1.now)) value
            → EditsTo value self.old self.new result }
        ensures shorter { length pieces.entry.0.now + length pieces.entry.1.now
            ≤ within.end - within.start → IsOk result }
    {
        let (first, middle) = pieces;
        let change = Change {
            within,
            first,
            middle,
            close: "",
        };
        self.range.end = self.target.replace((), self.range, change)?;
        Ok(())
    }

    /// Replaces the authority, and nothing that stands before or after it: in `//h:80/x`, by `g`,
    /// it leaves `//g/x`. Out of memory, it returns `Memory` and changes nothing.
    pub fn replace(&mut self, authority: Authority<'_, C>) -> Result<(), Memory>
        ensures { Edits (λ _. read_authority (text_of authority.entry))
            self.old self.new result }
    {
        let within = 0..self.text().len();
        self.put(within, (authority.as_str(), ""))
    }

    /// Replaces, adds or removes the user info with its `@`; removing takes no memory: `u@h`
    /// without a user info is `h`, and with an empty one `@h`. Out of memory, it returns `Memory`
    /// and changes nothing.
    pub fn set_user_info(&mut self, user_info: Option<UserInfo<'_, C>>) -> Result<(), Memory>
        ensures edit { Edits (with_user_info (option_map text_of user_info.entry))
            self.old self.new result }
        ensures none { IsNone user_info.entry → IsOk result }
    {
        let host = host_range::<C>(self.text());
        self.put(0..host.start, marked_after(text_of(user_info), "@"))
    }

    /// Replaces the host (RFC 3986 section 3.2.2): `u@h:80` with `g` becomes `u@g:80`. Out of
    /// memory, it returns `Memory` and changes nothing.
    pub fn set_host(&mut self, host: Host<'_, C>) -> Result<(), Memory>
        ensures { Edits (with_host (text_of host.entry)) self.old self.new result }
    {
        let within = host_range::<C>(self.text());
        self.put(within, (host.as_str(), ""))
    }

    /// Replaces, adds or removes the port with its `:`; removing takes no memory: `h:80` without a
    /// port is `h`, and with an empty one `h:`. Out of memory, it returns `Memory` and changes
    /// nothing.
    pub fn set_port(&mut self, port: Option<Port<'_>>) -> Result<(), Memory>
        ensures edit { Edits (with_port (option_map text_of port.entry))
            self.old self.new result }
        ensures none { IsNone port.entry → IsOk result }
    {
        let text = self.text();
        let within = host_range::<C>(text).end..text.len();
        self.put(within, marked(":", text_of(port)))
    }

    /// Sets the port to a number, in decimal digits without leading zeros, or removes it, which
    /// takes no memory: `h` with 80 becomes `h:80`. Out of memory, it returns `Memory` and changes
    /// nothing.
    #[tactic(auto, using(iref_grammar::proofs::PortNumberLemmas::written))]
    pub fn set_port_u32(&mut self, port: Option<u32>) -> Result<(), Memory>
        ensures edit { Edits (with_port (option_map port_text port)) self.old self.new result }
        ensures none { IsNone port → IsOk result }
    {
        match port {
            Some(number) => self.set_port(Some(Port::new_unchecked(Buffer::new().format(number)))),
            None => self.set_port(None),
        }
    }

    /// Does as `replace` does with a text: `Invalid` holds a text that is not an authority, such as
    /// `h:8a`. An `Err` changes nothing.
    pub fn try_replace<'t>(&mut self, authority: &'t str) -> Tried<InvalidAuthority<&'t str>>
        ensures edit { Edits (λ _. read_authority authority.now) self.old self.new result }
        ensures text { Tests (IsAuthority C.tests) authority.entry (λ error. error.0) result }
    {
        let authority = read::<AuthorityRule, C>(authority)?;
        self.replace(authority).or(Err(TryError::Memory))
    }

    /// Does as `set_user_info` does with a text: `Invalid` holds a text that is not a user info,
    /// such as `a@b`. An `Err` changes nothing.
    pub fn try_set_user_info<'t>(
        &mut self,
        user_info: Option<&'t str>,
    ) -> Tried<InvalidUserInfo<&'t str>>
        ensures edit { Edits (with_user_info (option_copied user_info.entry))
            self.old self.new result }
        ensures text { TestsIfSome (IsUserInfo C.tests) user_info.entry (λ error. error.0) result }
    {
        test::<UserInfoRule, C>(user_info)?;
        self.set_user_info(borrowed_of(user_info))
            .or(Err(TryError::Memory))
    }

    /// Does as `set_host` does with a text: `Invalid` holds a text that is not a host, such as
    /// `a:b`. An `Err` changes nothing.
    pub fn try_set_host<'t>(&mut self, host: &'t str) -> Tried<InvalidHost<&'t str>>
        ensures edit { Edits (with_host host.now) self.old self.new result }
        ensures text { Tests (IsHost C.tests) host.entry (λ error. error.0) result }
    {
        let host = read::<HostRule, C>(host)?;
        self.set_host(host).or(Err(TryError::Memory))
    }

    /// Does as `set_port` does with a text: `Invalid` holds a text that is not a port, such as
    /// `8a`. An `Err` changes nothing.
    pub fn try_set_port<'t>(&mut self, port: Option<&'t str>) -> Tried<InvalidPort<&'t str>>
        ensures edit { Edits (with_port (option_copied port.entry)) self.old self.new result }
        ensures text { TestsIfSome IsPort port.entry (λ error. error.0) result }
    {
        test::<PortRule, C>(port)?;
        self.set_port(borrowed_of(port)).or(Err(TryError::Memory))
    }
}

impl<C: CharSet, T: Target<AuthorityPart, C>> fmt::Display for AuthorityMut<'_, C, T> {
    ghost use Rattle.iref_component.specs.AuthorityEdits.{authority_mut_text};

    ghost output = { λ editor. Some (authority_mut_text editor) };

    fn fmt<W: fmt::Write>(&self, f: &mut fmt::Formatter<W>) -> fmt::Result {
        f.write_str(self.text())
    }
}
