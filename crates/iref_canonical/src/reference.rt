//! The canonical text of a reference, or the one that is hashed, from the components of its text (RFC
//! 3986 section 5.3).
ghost use Rattle.std.specs.Prelude.{◌≡◌, ◌∷◌, [], codes, option_map};
ghost use Rattle.std.specs.{Option.{option_copied}, Str.{str_to_ascii_lowercase}};
ghost use Rattle.iref_grammar.specs.{Grammar.{colon}, Reference.{spell}, Texts.{part_then, then_part}};
ghost use Rattle.iref_grammar.specs.Key.{key};
ghost use Rattle.iref_parse.specs.ReferenceSlices.{value_of};
ghost use Rattle.iref_canonical.specs.{Canonical.{spelled}, CanonicalParts.{encoded_authority, encoded_query}};
ghost use Rattle.iref_canonical.specs.SpelledReferences.{IsMeasured, measured_spelling};

use crate::authority::put_authority;
use crate::encoded::{QUERY, put_encoded, put_lower};
use crate::path::CanonicalPath;
use iref_grammar::context::PathContext;
use iref_parse::split::ReferenceSlices;
use iref_splice::backward::Backward;
use iref_splice::unwritten::Unwritten;

/// The canonical text of a reference, or the one that is hashed, not written yet.
#[derive(Clone, Copy)]
pub struct SpelledReference<'a> {
    slices: ReferenceSlices<'a>,
    path: CanonicalPath<'a>,
    // Whether bytes beyond ASCII stand raw, as in the text that is hashed.
    raw: bool,
}

// Puts a query or a fragment after its delimiter, if there is one.
#[tactic(auto, using(crate::proofs::SetLemmas::sets, crate::proofs::EncodedLemmas::spared))]
fn put_marked<O: Backward>(out: &mut O, raw: bool, mark: &[u8], part: Option<&str>)
    requires { O.fits out.old (then_part mark.now (encoded_query raw (option_copied part))) }
    ensures { out.new ≡ O.after out.old
        (then_part mark.entry.now (encoded_query raw (option_copied part.entry))) }
{
    if let Some(part) = part {
        put_encoded(out, raw, QUERY, part);
        out.put(mark);
    }
}

// Puts a scheme in lower case and its `:`, if there is one.
fn put_scheme<O: Backward>(out: &mut O, scheme: Option<&str>)
    requires { O.fits out.old (part_then (colon ∷ [])
        (option_map str_to_ascii_lowercase (option_copied scheme))) }
    ensures { out.new ≡ O.after out.old (part_then (colon ∷ [])
        (option_map str_to_ascii_lowercase (option_copied scheme.entry))) }
{
    if let Some(scheme) = scheme {
        out.put(b":");
        put_lower(out, scheme);
    }
}

// Puts an authority after `//`, if there is one.
fn put_marked_authority<O: Backward>(out: &mut O, raw: bool, authority: Option<&str>)
    requires { O.fits out.old
        (then_part (codes "//") (encoded_authority raw (option_copied authority))) }
    ensures { out.new ≡ O.after out.old
        (then_part (codes "//") (encoded_authority raw (option_copied authority.entry))) }
{
    if let Some(authority) = authority {
        put_authority(out, raw, authority);
        out.put(b"//");
    }
}

impl<'a> SpelledReference<'a> {
    /// The text of the reference of these components: the canonical one, or that which is hashed, in
    /// which bytes beyond ASCII stand raw.
    pub fn new(raw: bool, slices: ReferenceSlices<'a>) -> Self
        ensures text { measured_spelling result
            ≡ spell (spelled raw (key (value_of slices.entry))) }
        ensures measured { IsMeasured result }
    {
        let context = PathContext {
            has_scheme: slices.scheme.is_some(),
            has_authority: slices.authority.is_some(),
        };
        SpelledReference {
            slices,
            path: CanonicalPath::new(raw, context, slices.path),
            raw,
        }
    }
}

impl Unwritten for SpelledReference<'_> {
    ghost text = { measured_spelling };

    ghost is_sound = { IsMeasured };

    #[tactic(auto, unfolding(crate::specs::SpelledReferences::measured_spelling))]
    fn put<O: Backward>(&self, out: &mut O) {
        put_marked(out, self.raw, b"#", self.slices.fragment);
        put_marked(out, self.raw, b"?", self.slices.query);
        self.path.put(out, self.raw);
        put_marked_authority(out, self.raw, self.slices.authority);
        put_scheme(out, self.slices.scheme);
    }
}
