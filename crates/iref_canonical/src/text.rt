//! Canonical texts from the texts of references, and what is hashed: those with one key have one text.
ghost use Rattle.std.specs.Prelude.{◌≡◌, true, bytes_eq, fold, not, IfOk, IsOk, OnErr, OnOk};
ghost use Rattle.std.specs.{Prelude.{if◌then◌else◌}, String.{string_bytes}};
ghost use Rattle.iref_grammar.specs.Reference.{IsReadable, is_reference, read_reference};
ghost use Rattle.iref_grammar.specs.Key.{key};
ghost use Rattle.iref_parse.specs.ReferenceSlices.{value_of};
ghost use Rattle.iref_canonical.specs.{Canonical.{canonical_text}, Hashed.{fed_reference}};

use crate::plain::is_plain;
use crate::reference::SpelledReference;
use iref_grammar::chars::CharSet;
use iref_parse::split::ReferenceSlices;
use iref_splice::Memory;
use iref_splice::fed::feed_text;
use iref_splice::unwritten::Unwritten;
use std::alloc::Global;
use std::hash::Hasher;
use std::mem;

/// The canonical text of a reference, written from its components: of `HTTP://a/%7Eb`,
/// `http://a/~b`. Memory is requested once.
pub fn canonical_text<C: CharSet>(
    alloc: Global,
    slices: ReferenceSlices<'_>,
) -> Result<String, Memory>
    requires { IsReadable C.tests (value_of slices) }
    ensures { IfOk result (λ copy.
        string_bytes copy ≡ canonical_text (key (value_of slices.entry))) }
{
    let bytes = SpelledReference::new(false, slices).to_bytes(alloc)?;
    // A canonical text is ASCII, so no byte is read again.
    Ok(unsafe { String::from_utf8_unchecked(bytes) })
}

/// Writes the canonical text of a reference, of which text and components are given, over a text,
/// unless it is the reference's own: whether it is written. Of `HTTP://a/%7Eb` it is `http://a/~b`.
/// The memory is requested first: an error changes nothing.
pub fn write_canonical_text<C: CharSet>(
    text: &str,
    slices: ReferenceSlices<'_>,
    over: &mut String,
) -> Result<bool, Memory>
    requires { IsReadable C.tests (value_of slices) }
    ensures written { IfOk result (λ written.
        written ≡ not (bytes_eq text.now (canonical_text (key (value_of slices.entry))))) }
    ensures ok { OnOk result (string_bytes over.new
        ≡ (if bytes_eq text.now (canonical_text (key (value_of slices.entry)))
        then string_bytes over.old else canonical_text (key (value_of slices.entry)))) }
    ensures err { OnErr result (string_bytes over.new ≡ string_bytes over.old) }
    ensures same { bytes_eq text.now (canonical_text (key (value_of slices.entry))) ≡ true
        → IsOk result }
{
    let empty = String::new(*over.allocator());
    let mut bytes = mem::replace(over, empty).into_bytes();
    let written = SpelledReference::new(false, slices).write_unless(text.as_bytes(), &mut bytes);
    // A canonical text is ASCII, and what stood there was a text, so no byte is read again.
    *over = unsafe { String::from_utf8_unchecked(bytes) };
    written
}

/// Whether the text of a reference, of which the components are given too, is its canonical text, as
/// `http://a/~b` is.
pub fn is_canonical<C: CharSet>(text: &str, slices: ReferenceSlices<'_>) -> bool
    requires reference { is_reference C.tests text.now ≡ true }
    requires slices { value_of slices ≡ read_reference text.now }
    ensures { result ≡ bytes_eq text.now (canonical_text (key (read_reference text.now))) }
{
    is_plain::<C>(false, text, slices) || SpelledReference::new(false, slices).is(text.as_bytes())
}

/// Feeds the canonical text of a reference, of which text and components are given, to a hasher, with
/// the bytes beyond ASCII raw. A text that one scan finds to be this is read as it stands.
#[tactic(auto, unfolding(crate::specs::Hashed::fed_reference))]
pub fn feed_reference<C: CharSet, H: Hasher>(text: &str, slices: ReferenceSlices<'_>, state: &mut H)
    requires reference { is_reference C.tests text.now ≡ true }
    requires slices { value_of slices ≡ read_reference text.now }
    ensures { state.new ≡ fold H.write state.old (fed_reference (key (read_reference text.now))) }
{
    if is_plain::<C>(true, text, slices) {
        feed_text(text.as_bytes(), state);
    } else {
        feed_slices(slices, state);
    }
}

/// Feeds the canonical text of the reference of these components to a hasher, with the bytes beyond
/// ASCII raw.
#[tactic(auto, unfolding(crate::specs::Hashed::fed_reference))]
pub fn feed_slices<H: Hasher>(slices: ReferenceSlices<'_>, state: &mut H)
    ensures { state.new ≡ fold H.write state.old (fed_reference (key (value_of slices.entry))) }
{
    SpelledReference::new(true, slices).feed(state);
}
