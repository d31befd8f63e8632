//! Laws of authorities: each is the contract of a function that does nothing.
#![tactic(auto)]

ghost use Rattle.std.specs.Prelude.{◌≡◌, ◌↔◌, true};
ghost use Rattle.iref_grammar.specs.{Rules.{Text, AcceptsExactly, InUtf8}, Grammar.{IsAuthority}};
ghost use Rattle.iref_grammar.specs.Authority.{AuthorityValue, HasAuthorityParts, has_authority_parts, spell_authority};
ghost use Rattle.iref_grammar.specs.{Authority.{read_authority, is_authority}, Readings.{HasOneReading}};

use crate::chars::CharSet;

/// The tests decide the rule of authorities, and that each part of one is in its rule.
pub fn authority_grammar<S: CharSet>()
    ensures text { AcceptsExactly (is_authority S.tests) (IsAuthority S.tests) }
    ensures parts { (a : AuthorityValue) → (has_authority_parts S.tests a ≡ true)
        ↔ HasAuthorityParts S.tests a }
{}

/// A text has one reading as an authority: the parts that are read from it spell it, a text is an
/// authority exactly if some parts in their rules spell it, and no others do.
pub fn authority_reading<S: CharSet>()
    ensures reading { HasOneReading spell_authority read_authority (HasAuthorityParts S.tests) }
    ensures spelled { (bytes : Text) → InUtf8 (IsAuthority S.tests) bytes
        ↔ ((a : AuthorityValue) × HasAuthorityParts S.tests a × (spell_authority a ≡ bytes)) }
{}
