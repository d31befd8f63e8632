//! Texts that are not written yet: they are counted, written, hashed or compared.
ghost use Rattle.std.specs.Prelude.{◌≡◌, ◌++◌, IfOk, IfSome, IsOk, OnErr, OnOk, bytes_eq, fold, length};
ghost use Rattle.std.specs.Prelude.{not, true, if◌then◌else◌};
ghost use Rattle.iref_grammar.specs.Rules.{Text};
ghost use Rattle.iref_splice.specs.{Fed.{fed_text}, Held.{taken_after, taken_nothing}};

use crate::backward::{Backward, Compared, Count, Filled};
use crate::fed::Fed;
use crate::held::Held;
use crate::out_of_memory::Memory;
use std::alloc::{AllocError, Global};
use std::hash::Hasher;

/// A text that is not written yet.
pub trait Unwritten {
    /// The text.
    ghost text: { Self → Text };

    /// What has been found of it is right.
    ghost is_sound: { Self → Type 0 };

    /// Puts the text.
    fn put<O: Backward>(&self, out: &mut O)
        requires sound { is_sound self.now }
        requires fits { O.fits out.old (text self.now) }
        ensures { out.new ≡ O.after out.old (text self.now) };

    /// How many bytes the text has, where that is known before it is put.
    fn known_len(&self) -> Option<usize>
        requires { is_sound self.now }
        ensures { IfSome result (λ len. len ≡ length (text self.now)) }
    {
        None
    }

    /// How many bytes the text has, if they can be counted.
    fn count(&self) -> Result<usize, AllocError>
        requires { is_sound self.now }
        ensures { IfOk result (λ len. len ≡ length (text self.now)) }
    {
        let mut count = Count::new();
        self.put(&mut count);
        count.len()
    }

    /// Fills the buffer with the text.
    fn fill(&self, buffer: &mut [u8])
        requires sound { is_sound self.now }
        requires len { length buffer.old ≡ length (text self.now) }
        ensures { buffer.new ≡ text self.now }
    {
        let mut filled = Filled::new(buffer);
        self.put(&mut filled);
    }

    /// The bytes of the text. The room is taken once. A text of a length that is known, or of at most
    /// 256 bytes, is put once.
    fn to_bytes(&self, alloc: Global) -> Result<Vec<u8>, Memory>
        requires { is_sound self.now }
        ensures { IfOk result (λ bytes. bytes.items ≡ text self.now) }
    {
        let mut bytes = Vec::new(alloc);
        self.append_to(&mut bytes)?;
        Ok(bytes)
    }

    /// Appends the text to a vector. The room is taken once. A text of a length that is known, or of
    /// at most 256 bytes, is put once.
    fn append_to(&self, out: &mut Vec<u8>) -> Result<(), Memory>
        requires { is_sound self.now }
        ensures ok { OnOk result (out.new.items ≡ out.old.items ++ text self.now) }
        ensures err { OnErr result (out.new.items ≡ out.old.items) }
    {
        if let Some(len) = self.known_len() {
            return self.append_sized(len, out);
        }
        let mut held = Held::new();
        self.put(&mut held);
        match held.text() {
            Some(text) => Ok(out.extend_from_slice(text)?),
            None => self.append_sized(held.len()?, out),
        }
    }

    /// Appends the text, which has this many bytes.
    fn append_sized(&self, len: usize, out: &mut Vec<u8>) -> Result<(), Memory>
        requires sound { is_sound self.now }
        requires len { len ≡ length (text self.now) }
        ensures ok { OnOk result (out.new.items ≡ out.old.items ++ text self.now) }
        ensures err { OnErr result (out.new.items ≡ out.old.items) }
    {
        let start = out.len();
        let end = start.checked_add(len).ok_or(AllocError)?;
        out.resize(end, 0)?;
        self.fill(&mut out[start..]);
        Ok(())
    }

    /// Writes the text over the bytes of a vector, from what is held of it. The room is taken first:
    /// an `Err` changes nothing.
    fn write_held(&self, held: &Held, bytes: &mut Vec<u8>) -> Result<(), Memory>
        requires sound { is_sound self.now }
        requires held { held.now ≡ taken_after taken_nothing (text self.now) }
        ensures ok { OnOk result (bytes.new.items ≡ text self.now) }
        ensures err { OnErr result (bytes.new.items ≡ bytes.old.items) }
    {
        bytes.resize(held.len()?, 0)?;
        match held.text() {
            Some(text) => bytes.as_mut_slice().copy_from_slice(text),
            None => self.fill(bytes.as_mut_slice()),
        }
        Ok(())
    }

    /// Writes the text over the bytes of a vector, unless it is this other text: whether it is
    /// written. The room is taken first: an `Err` changes nothing. A text of at most 256 bytes is put
    /// once.
    fn write_unless(&self, other: &[u8], bytes: &mut Vec<u8>) -> Result<bool, Memory>
        requires { is_sound self.now }
        ensures written { IfOk result (λ written.
            written ≡ not (bytes_eq other.now (text self.now))) }
        ensures ok { OnOk result (bytes.new.items
            ≡ (if bytes_eq other.now (text self.now) then bytes.old.items else text self.now)) }
        ensures err { OnErr result (bytes.new.items ≡ bytes.old.items) }
        ensures same { bytes_eq other.now (text self.now) ≡ true → IsOk result }
    {
        let mut held = Held::new();
        self.put(&mut held);
        let is_other = match held.text() {
            Some(text) => text == other,
            None => self.is(other),
        };
        if is_other {
            return Ok(false);
        }
        self.write_held(&held, bytes)?;
        Ok(true)
    }

    /// Feeds the text to a hasher.
    #[tactic(auto, unfolding(crate::specs::Fed::fed_text))]
    fn feed<H: Hasher>(&self, state: &mut H)
        requires { is_sound self.now }
        ensures { state.new ≡ fold H.write state.old (fed_text (text self.now)) }
    {
        let mut fed = Fed::new(state);
        self.put(&mut fed);
        fed.end();
    }

    /// Whether these are the bytes of the text.
    fn is(&self, bytes: &[u8]) -> bool
        requires { is_sound self.now }
        ensures { result ≡ bytes_eq bytes.now (text self.now) }
    {
        let mut compared = Compared::new(bytes);
        self.put(&mut compared);
        compared.is_whole()
    }
}
