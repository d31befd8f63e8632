//! What a hasher reads of the keys of components.
ghost use Rattle.std.specs.Prelude.{◌≡◌, fold};
ghost use Rattle.iref_grammar.specs.PathValue.{read_path};
ghost use Rattle.iref_grammar.specs.PathKey.{path_key};
ghost use Rattle.iref_canonical.specs.{Hashed.{fed_lone_path}, HashedParts.{fed_part, hashed_byte, hashed_bytes}};

use crate::key_bytes::KeyBytes;
use crate::text::feed_slices;
use iref_parse::split::ReferenceSlices;
use iref_splice::backward::Backward;
use iref_splice::fed::{Fed, feed_text};
use percent_encoding::percent_encode_byte;
use std::hash::Hasher;

// Puts a byte of a key, or its escape where it is `%`, or 255, which ends the text.
#[inline(always)]
fn put_byte<O: Backward>(out: &mut O, byte: u8)
    requires { O.fits out.old (hashed_byte byte) }
    ensures { out.new ≡ O.after out.old (hashed_byte byte) }
{
    if byte == b'%' || byte == 0xff {
        out.put(percent_encode_byte(byte).as_bytes());
    } else {
        out.put(&[byte]);
    }
}

// Puts the bytes of the key of a text.
#[tactic(auto, using(crate::proofs::HashedPartLemmas::last))]
fn put_bytes<B: KeyBytes, O: Backward>(out: &mut O, text: &str)
    requires { O.fits out.old (hashed_bytes (B.bytes text.now)) }
    ensures { out.new ≡ O.after out.old (hashed_bytes (B.bytes text.now)) }
{
    let mut rest = text.as_bytes();
    while let Some((front, byte)) = B::split_last(rest) {
        put_byte(out, byte);
        rest = front;
    }
}

/// Feeds the bytes of the key of a text to a hasher.
#[tactic(auto, unfolding(iref_splice::specs::Fed::fed_text, crate::specs::HashedParts::fed_part))]
pub fn feed<B: KeyBytes, H: Hasher>(text: &str, state: &mut H)
    ensures { state.new ≡ fold H.write state.old (fed_part (B.bytes text.now)) }
{
    if B::stands(text) {
        feed_text(text.as_bytes(), state);
    } else {
        let mut fed = Fed::new(state);
        put_bytes::<B, _>(&mut fed, text);
        fed.end();
    }
}

/// Feeds a path to a hasher, as the reference that is this path alone.
#[tactic(auto, unfolding(iref_grammar::specs::Key::key))]
pub fn feed_path<H: Hasher>(path: &str, state: &mut H)
    ensures { state.new ≡ fold H.write state.old
        (fed_lone_path (path_key (read_path path.now))) }
{
    feed_slices(
        ReferenceSlices {
            scheme: None,
            authority: None,
            path,
            query: None,
            fragment: None,
        },
        state,
    );
}
