//! The authority of the canonical text of a reference (RFC 3986 sections 3.2 and 6.2.2.2).
ghost use Rattle.std.specs.{Prelude.{◌≡◌, [], ◌∷◌, option_map}, Option.{option_copied}};
ghost use Rattle.percent_encoding.specs.Percent.{percent_decode};
ghost use Rattle.iref_grammar.specs.{Authority.{read_authority, spell_authority}, Characters.{uri_chars}};
ghost use Rattle.iref_grammar.specs.{Texts.{part_then, then_part}, Grammar.{at_sign, colon, is_user_info_char}};
ghost use Rattle.iref_grammar.specs.AuthorityKey.{authority_key};
ghost use Rattle.iref_canonical.specs.Canonical.{encoded, spelled_authority, spelled_host, stands};

use crate::encoded::{REG_NAME, USER_INFO, put_encoded};
use crate::literal::decodes_to_ip_literal;
use iref_parse::authority::split_parts;
use iref_parse::unescaped::has_name_bytes;
use iref_splice::backward::Backward;
use percent_encoding::AsciiSet;

/// What is escaped in an IP literal: nothing that it holds.
const NOTHING: AsciiSet = AsciiSet::EMPTY;

// Puts a port after its `:`, if there is one.
fn put_port<O: Backward>(out: &mut O, port: Option<&str>)
    requires { O.fits out.old (then_part (colon ∷ []) (option_copied port)) }
    ensures { out.new ≡ O.after out.old (then_part (colon ∷ []) (option_copied port.entry)) }
{
    if let Some(port) = port {
        out.put(port.as_bytes());
        out.put(b":");
    }
}

// Puts the host. An IP literal stands.
#[tactic(auto, using(crate::proofs::PutAuthorityLemmas::hosts, crate::proofs::EncodedLemmas::spared))]
fn put_host<O: Backward>(out: &mut O, raw: bool, host: &str)
    requires { O.fits out.old (spelled_host raw (percent_decode host.now)) }
    ensures { out.new ≡ O.after out.old (spelled_host raw (percent_decode host.now)) }
{
    if decodes_to_ip_literal(host) {
        put_encoded(out, raw, NOTHING, host);
    } else {
        put_encoded(out, raw, REG_NAME, host);
    }
}

// Puts a user info before its `@`, if there is one.
#[tactic(auto, using(crate::proofs::SetLemmas::users, crate::proofs::EncodedLemmas::spared))]
fn put_user_info<O: Backward>(out: &mut O, raw: bool, user_info: Option<&str>)
    requires { O.fits out.old (part_then (at_sign ∷ [])
        (option_map (encoded (stands raw (is_user_info_char uri_chars)))
        (option_map percent_decode (option_copied user_info)))) }
    ensures { out.new ≡ O.after out.old (part_then (at_sign ∷ [])
        (option_map (encoded (stands raw (is_user_info_char uri_chars)))
        (option_map percent_decode (option_copied user_info.entry)))) }
{
    if let Some(user_info) = user_info {
        out.put(b"@");
        put_encoded(out, raw, USER_INFO, user_info);
    }
}

/// Puts the authority. Most are a host of name bytes alone, which stands.
#[tactic(auto, using(crate::proofs::PutAuthorityLemmas::named))]
pub(crate) fn put_authority<O: Backward>(out: &mut O, raw: bool, text: &str)
    requires { O.fits out.old
        (spell_authority (spelled_authority raw (authority_key (read_authority text.now)))) }
    ensures { out.new ≡ O.after out.old
        (spell_authority (spelled_authority raw (authority_key (read_authority text.now)))) }
{
    if has_name_bytes(text.as_bytes()) {
        out.put(text.as_bytes());
        return;
    }
    let parts = split_parts(text);
    put_port(out, parts.port);
    put_host(out, raw, parts.host);
    put_user_info(out, raw, parts.user_info);
}
