//! Texts that one scan finds to be canonical, or to be what is hashed.
ghost use Rattle.std.specs.{Prelude.{◌≡◌, true}, Option.{option_copied}};
ghost use Rattle.iref_grammar.specs.{Reference.{is_reference, read_reference, spell}, Tests.{none_or}};
ghost use Rattle.iref_grammar.specs.Key.{key};
ghost use Rattle.iref_parse.specs.ReferenceSlices.{value_of};
ghost use Rattle.iref_canonical.specs.{Canonical.{spelled}, Decoded.{are_standing}, Lower.{is_lower}};

use iref_grammar::chars::CharSet;
use iref_parse::dots::has_dots;
use iref_parse::split::ReferenceSlices;
use iref_parse::unescaped::{has_no_percent, is_unescaped};

/// Whether the text has no upper-case letter.
#[inline(always)]
pub fn is_lower(text: &str) -> bool
    ensures { result ≡ is_lower text.now }
{
    text.bytes().all(|byte| !byte.is_ascii_uppercase())
}

// Whether the scheme, if there is one, has no upper-case letter. Most schemes are `http` and `https`.
#[inline(always)]
fn is_lower_scheme(scheme: Option<&str>) -> bool
    ensures { result ≡ none_or is_lower (option_copied scheme.entry) }
{
    match scheme {
        None | Some("http" | "https") => true,
        Some(scheme) => is_lower(scheme),
    }
}

// Whether no byte of the text is `%`, or beyond ASCII if such bytes do not stand raw.
#[inline(always)]
fn stands(raw: bool, text: &str) -> bool
    ensures { result ≡ are_standing raw text.now }
{
    if raw {
        has_no_percent(text.as_bytes())
    } else {
        is_unescaped(text.as_bytes())
    }
}

/// Whether the text of a reference has no escape, no segment that begins with a dot, no upper-case
/// letter in the scheme and, if bytes beyond ASCII do not stand raw, no character beyond ASCII. Such a
/// text is canonical, as `http://a/b` is, or is what is hashed, as `http://a/é` is. Some that are
/// canonical are not such: `a/.b` is one.
#[inline(always)]
#[tactic(auto, using(crate::proofs::PlainReferenceLemmas::plain))]
pub fn is_plain<C: CharSet>(raw: bool, text: &str, slices: ReferenceSlices<'_>) -> bool
    requires reference { is_reference C.tests text.now ≡ true }
    requires slices { value_of slices ≡ read_reference text.now }
    ensures { result ≡ true → spell (spelled raw (key (read_reference text.now))) ≡ text.now }
{
    is_lower_scheme(slices.scheme) && stands(raw, text) && !has_dots(slices.path.as_bytes())
}
