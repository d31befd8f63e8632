//! A range of a vector of bytes replaced in place.
ghost use Rattle.std.specs.{Prelude.{◌≡◌, ◌+◌, ◌≤◌, length, vec_len, OnOk, OnErr, IsOk}, List.{splice}};
ghost use Rattle.iref_grammar.specs.Rules.{Text};
ghost use Rattle.iref_splice.specs.{Changes.{IsNoLonger, changed}, Edited.{StandsIn, one_range}};

use crate::change::{Change, Span};
use crate::out_of_memory::Memory;
use crate::target::{Part, Target};
use iref_grammar::chars::CharSet;
use std::alloc::{AllocError, Global};
use std::str;

/// Makes the change. All room is taken first: an `Err` changes nothing, and what makes the bytes no
/// more takes no memory.
#[tactic(auto, using(crate::proofs::Splices::gaps))]
pub fn replace(bytes: &mut Vec<u8>, change: Change<'_>) -> Result<(), AllocError>
    requires start_le_end { change.within.start ≤ change.within.end }
    requires in_bounds { change.within.end ≤ vec_len bytes.old }
    ensures ok { OnOk result (bytes.new.items ≡ changed bytes.old.items change.entry) }
    ensures err { OnErr result (bytes.new.items ≡ bytes.old.items) }
    ensures shorter { IsNoLonger change.entry → IsOk result }
{
    let start = change.within.start;
    let (first, middle, close) = (change.first, change.middle, change.close);
    let two = first.len().checked_add(middle.len()).ok_or(AllocError)?;
    let added = two.checked_add(close.len()).ok_or(AllocError)?;
    move_tail(bytes, start, change.within.end, added)?;
    overwrite(bytes, start, first.as_bytes());
    overwrite(bytes, start + first.len(), middle.as_bytes());
    overwrite(bytes, start + two, close.as_bytes());
    Ok(())
}

// Moves what follows a range, so that as many bytes stand in the range as are added. Where it stays,
// no byte is read.
#[tactic(auto, using(crate::proofs::Splices::gaps))]
fn move_tail(bytes: &mut Vec<u8>, start: usize, end: usize, added: usize) -> Result<(), AllocError>
    requires start_le_end { start ≤ end }
    requires in_bounds { end ≤ vec_len bytes.old }
    ensures moved { OnOk result ((new : Text) → splice bytes.new.items start (start + added) new
        ≡ splice bytes.old.items start end new) }
    ensures len { OnOk result (vec_len bytes.new + end ≡ vec_len bytes.old + start + added) }
    ensures err { OnErr result (bytes.new.items ≡ bytes.old.items) }
    ensures shorter { start + added ≤ end → IsOk result }
{
    let len = bytes.len();
    let cut = end - start;
    if cut < added {
        let more = added - cut;
        bytes.reserve(more)?;
        bytes.resize(len + more, 0)?;
        bytes.copy_within(end..len, end + more);
    } else if added < cut {
        bytes.copy_within(end..len, start + added);
        bytes.truncate(len - (cut - added));
    }
    Ok(())
}

// Writes a text over what stands from an index on.
fn overwrite(bytes: &mut Vec<u8>, start: usize, text: &[u8])
    requires { start + length text.now ≤ vec_len bytes.old }
    ensures items { bytes.new.items
        ≡ splice bytes.old.items start (start + length text.now) text.now }
    ensures len { vec_len bytes.new ≡ vec_len bytes.old }
{
    // A delimiter is mostly one byte.
    if text.len() == 1 {
        bytes[start] = text[0];
    } else if !text.is_empty() {
        bytes[start..start + text.len()].copy_from_slice(text);
    }
}

impl<P: Part, C: CharSet> Target<P, C> for Vec<u8> {
    ghost text = { λ bytes. bytes.items };

    ghost stands = { StandsIn (P.test C.tests) };

    ghost one_range = { one_range (P.test C.tests) };

    ghost is_within = { λ _ _ _ _ stands. (stands.0, stands.1) };

    fn alloc(&self) -> Global {
        *self.allocator()
    }

    fn part(&self, after: P::Context, at: Span) -> &str {
        // What passes the test is text, so no byte is read again.
        unsafe { str::from_utf8_unchecked(&self[at.start..at.end]) }
    }

    fn replace(&mut self, after: P::Context, at: Span, by: Change<'_>) -> Result<usize, Memory> {
        let behind = self.len() - at.end;
        let within = at.start + by.within.start..at.start + by.within.end;
        replace(self, Change { within, ..by })?;
        Ok(self.len() - behind)
    }
}
