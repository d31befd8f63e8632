//! Texts in sort keys, put from the end.

ghost use Rattle.std.specs.Prelude.{◌≡◌, true};
ghost use Rattle.percent_encoding.specs.Percent.{percent_decode};
ghost use Rattle.iref_canonical.specs.{SortBytes.{is_kept}, SortKey.{sort_byte, sort_text}};

use crate::key_bytes::{Decoded, KeyBytes};
use iref_splice::backward::Backward;

// What ends a text.
const END: [u8; 1] = [0];

// Puts a byte.
#[inline(always)]
fn put_byte<O: Backward>(out: &mut O, byte: u8)
    requires { O.fits out.old (sort_byte byte) }
    ensures { out.new ≡ O.after out.old (sort_byte byte) }
{
    if byte < 2 {
        out.put(&[1, byte + 1]);
    } else {
        out.put(&[byte]);
    }
}

/// Puts the bytes of the key of a text, and their end.
#[tactic(auto, using(crate::proofs::SortByteLemmas::last))]
pub(crate) fn put_bytes<B: KeyBytes, O: Backward>(out: &mut O, text: &str)
    requires { O.fits out.old (sort_text (B.bytes text.now)) }
    ensures { out.new ≡ O.after out.old (sort_text (B.bytes text.now)) }
{
    out.put(&END);
    let mut rest = text.as_bytes();
    while let Some((front, byte)) = B::split_last(rest) {
        put_byte(out, byte);
        rest = front;
    }
}

/// Puts what a text decodes to, and its end. `kept` says that each byte stands as it is.
#[tactic(auto, using(crate::proofs::SortByteLemmas::kept))]
pub(crate) fn put_text<O: Backward>(out: &mut O, text: &str, kept: bool)
    requires kept { kept ≡ true → is_kept text.now ≡ true }
    requires fits { O.fits out.old (sort_text (percent_decode text.now)) }
    ensures { out.new ≡ O.after out.old (sort_text (percent_decode text.now)) }
{
    if kept {
        out.put(&END);
        out.put(text.as_bytes());
    } else {
        put_bytes::<Decoded, _>(out, text);
    }
}
