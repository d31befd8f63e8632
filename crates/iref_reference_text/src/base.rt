//! The base of a reference: its text up to the end of the path's directory (RFC 3986 section
//! 5.2.3).
ghost use Rattle.std.specs.Prelude.{◌≡◌, true};
ghost use Rattle.iref_grammar.specs.{read_reference, spell, base_of};
ghost use Rattle.iref_parse.specs.{texts_of, value_of, AreComponents, is_reference};
ghost use Rattle.iref_reference_text.specs.ComponentLengths.{lengths_of_texts};

use crate::lengths::Lengths;
use iref_grammar::chars::CharSet;
use iref_parse::split::{ReferenceSlices, split_reference};
use iref_path::segments::last_segment;

/// The text of these components, which are this long, up to the end of the path's directory.
#[inline(always)]
#[tactic(auto, using(crate::proofs::LengthLemmas::totals))]
pub fn base_slice<'a, C: CharSet>(
    text: &'a str,
    slices: ReferenceSlices<'a>,
    lengths: Lengths,
) -> &'a str
    requires value { value_of slices ≡ read_reference text.now }
    requires components { AreComponents C.tests (texts_of slices) }
    requires lengths { lengths ≡ lengths_of_texts (texts_of slices) }
    ensures { result.now ≡ spell (base_of (read_reference text.now)) }
{
    let file_name = last_segment(slices.path).1;
    let end = lengths.query_mark() - file_name.len();
    &text[..end]
}

/// The text of a reference up to the end of the path's directory.
pub fn base_text<C: CharSet>(text: &str) -> &str
    requires { is_reference C.tests text.now ≡ true }
    ensures text { result.now ≡ spell (base_of (read_reference text.now)) }
    ensures value { read_reference result.now ≡ base_of (read_reference text.now) }
    ensures in_rule { is_reference C.tests result.now ≡ true }
{
    let slices = split_reference(text);
    base_slice::<C>(text, slices, Lengths::of(slices))
}
