//! A range of a text replaced in place.
ghost use Rattle.std.specs.Prelude.{◌≡◌, ◌+◌, ◌≤◌, ◌++◌, [], length, OnOk, OnErr, IfOk, IsOk, IsNone};
ghost use Rattle.std.specs.{Option.{option_copied}, String.{string_bytes}};
ghost use Rattle.iref_grammar.specs.Texts.{part_then, then_part};
ghost use Rattle.iref_splice.specs.Changes.{IsNoLonger, IsWithin, changed, changed_at, changed_part, part_at};
ghost use Rattle.iref_splice.specs.Changes.{with_mark};

use crate::bytes;
use crate::change::{Change, Span};
use std::alloc::AllocError;
use std::mem;

/// Makes the change. All room is taken first: an `Err` changes nothing, and what makes the text no
/// longer takes no memory.
pub fn replace(text: &mut String, change: Change<'_>) -> Result<(), AllocError>
    requires { IsWithin (string_bytes text.old) change.within }
    ensures ok { OnOk result (string_bytes text.new
        ≡ changed (string_bytes text.old) change.entry) }
    ensures err { OnErr result (string_bytes text.new ≡ string_bytes text.old) }
    ensures shorter { IsNoLonger change.entry → IsOk result }
{
    let empty = String::new(*text.allocator());
    let mut bytes = mem::replace(text, empty).into_bytes();
    let replaced = bytes::replace(&mut bytes, change);
    // The range begins and ends between characters, so no byte is read again.
    *text = unsafe { String::from_utf8_unchecked(bytes) };
    replaced
}

/// Makes the change of the part that is at `at`, as `replace` does, and returns where the part ends
/// then.
#[inline(always)]
pub fn replace_part(text: &mut String, at: Span, by: Change<'_>) -> Result<usize, AllocError>
    requires part { IsWithin (string_bytes text.old) (record { start = at.start; end = at.end }) }
    requires within { IsWithin (part_at (string_bytes text.old) at) by.within }
    ensures text { OnOk result (string_bytes text.new
        ≡ changed_at (string_bytes text.old) at by.entry) }
    ensures end { IfOk result (λ end.
        end ≡ at.start + length (changed_part (string_bytes text.old) at by.entry)) }
    ensures err { OnErr result (string_bytes text.new ≡ string_bytes text.old) }
    ensures shorter { IsNoLonger by.entry → IsOk result }
{
    let behind = text.as_str().len() - at.end;
    let within = at.start + by.within.start..at.start + by.within.end;
    replace(text, Change { within, ..by })?;
    Ok(text.as_str().len() - behind)
}

/// How long a part is with its delimiter, or 0 without a part: of a scheme of 4 bytes 5.
pub fn marked_len(mark: usize, part: Option<&str>) -> usize
    requires { mark ≤ 2 }
    ensures { result ≡ with_mark mark (option_copied part.entry) }
{
    match part {
        Some(part) => mark + part.len(),
        None => 0,
    }
}

/// The delimiter and the part, or nothing.
pub fn marked<'a>(mark: &'a str, part: Option<&'a str>) -> (&'a str, &'a str)
    ensures pieces { result.0.now ++ result.1.now
        ≡ then_part mark.entry.now (option_copied part.entry) }
    ensures none { IsNone part.entry → (result.0.now ≡ []) × (result.1.now ≡ []) }
{
    match part {
        Some(part) => (mark, part),
        None => ("", ""),
    }
}

/// The part and the delimiter after it, or nothing.
pub fn marked_after<'a>(part: Option<&'a str>, mark: &'a str) -> (&'a str, &'a str)
    ensures pieces { result.0.now ++ result.1.now
        ≡ part_then mark.entry.now (option_copied part.entry) }
    ensures none { IsNone part.entry → (result.0.now ≡ []) × (result.1.now ≡ []) }
{
    match part {
        None => ("", ""),
        Some(part) => (part, mark),
    }
}
