//! The parts of a reference in sort keys, but for the path, put from the end. `kept` says that each byte
//! stands as it is.

ghost use Rattle.std.specs.{Prelude.{◌≡◌, option_map, true}, Option.{option_copied}};
ghost use Rattle.percent_encoding.specs.Percent.{percent_decode};
ghost use Rattle.iref_grammar.specs.{Authority.{read_authority}, Tests.{none_or}};
ghost use Rattle.iref_canonical.specs.SortBytes.{is_kept, are_kept_parts};
ghost use Rattle.iref_canonical.specs.SortKey.{sort_authority, sort_option, sort_text};
ghost use Rattle.iref_canonical.specs.SortedReferences.{key_of_authority};

use crate::key_bytes::{KeyBytes, Same};
use crate::sort_text::{put_bytes, put_text};
use iref_parse::authority::split_parts;
use iref_splice::backward::Backward;

/// Puts the bytes of the key of a part, which may not be there.
pub(crate) fn put_part<B: KeyBytes, O: Backward>(out: &mut O, part: Option<&str>)
    requires { O.fits out.old (sort_option sort_text (option_map B.bytes (option_copied part))) }
    ensures { out.new ≡ O.after out.old (sort_option sort_text
        (option_map B.bytes (option_copied part.entry))) }
{
    match part {
        Some(part) => {
            put_bytes::<B, _>(out, part);
            out.put(&[1]);
        }
        None => out.put(&[0]),
    }
}

/// Puts what a text decodes to, which may not be there.
pub(crate) fn put_option<O: Backward>(out: &mut O, text: Option<&str>, kept: bool)
    requires kept { kept ≡ true → none_or is_kept (option_copied text) ≡ true }
    requires fits { O.fits out.old (sort_option sort_text
        (option_map percent_decode (option_copied text))) }
    ensures { out.new ≡ O.after out.old (sort_option sort_text
        (option_map percent_decode (option_copied text.entry))) }
{
    match text {
        Some(text) => {
            put_text(out, text, kept);
            out.put(&[1]);
        }
        None => out.put(&[0]),
    }
}

// Puts the parts of an authority.
#[tactic(auto, unfolding(crate::specs::SortKey::sort_authority), using(crate::proofs::SortByteLemmas::same_part))]
fn put_authority<O: Backward>(out: &mut O, text: &str, kept: bool)
    requires kept { kept ≡ true → are_kept_parts (read_authority text.now) ≡ true }
    requires fits { O.fits out.old (sort_authority (key_of_authority text.now)) }
    ensures { out.new ≡ O.after out.old (sort_authority (key_of_authority text.now)) }
{
    let parts = split_parts(text);
    put_part::<Same, _>(out, parts.port);
    put_text(out, parts.host, kept);
    put_option(out, parts.user_info, kept);
}

/// Puts an authority that may not be there.
pub(crate) fn put_authority_option<O: Backward>(out: &mut O, text: Option<&str>, kept: bool)
    requires kept { kept ≡ true → none_or are_kept_parts
        (option_map read_authority (option_copied text)) ≡ true }
    requires fits { O.fits out.old (sort_option sort_authority
        (option_map key_of_authority (option_copied text))) }
    ensures { out.new ≡ O.after out.old (sort_option sort_authority
        (option_map key_of_authority (option_copied text.entry))) }
{
    match text {
        Some(text) => {
            put_authority(out, text, kept);
            out.put(&[1]);
        }
        None => out.put(&[0]),
    }
}
