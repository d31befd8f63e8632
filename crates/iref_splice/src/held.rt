//! A text that is counted from its end, and held in a buffer if it is short.
ghost use Rattle.std.specs.Prelude.{◌≡◌, ◌<◌, ◌≤◌, IfOk, OnErr, None, Some, if◌then◌else◌, length, nat_le, ⊤};
ghost use Rattle.std.specs.Option.{option_copied};
ghost use Rattle.iref_splice.specs.{Backward.{most}, Held.{Taken, taken_after, taken_nothing}};
ghost use Rattle.iref_splice.specs.HeldLaws.{held-both, held-nothing};

use crate::backward::Backward;
use crate::fed::{ROOM, Waiting};
use std::alloc::AllocError;
use std::marker::Model;

/// A text that is counted, and held if it has at most 256 bytes.
#[derive(Drop)]
pub struct Held {
    len: usize,
    // All that was taken, if it fits.
    waiting: Waiting,
}

impl Model for Held {
    ghost Value = { Taken };

    ghost view = { λ h. record {
      count = h.len;
      text = if nat_le h.len 256 then Some h.waiting else None;
    } };

    ghost invariant = { λ h. h.len ≤ 256 → length h.waiting ≡ h.len };
}

impl Held {
    /// Of no text.
    #[inline(always)]
    pub fn new() -> Self
        ensures { result ≡ taken_nothing }
    {
        Held {
            len: 0,
            waiting: Waiting::new(),
        }
    }

    /// How many bytes were taken, if they can be counted.
    pub fn len(&self) -> Result<usize, AllocError>
        ensures ok { IfOk result (λ len. len ≡ self.now.count) }
        ensures exact { IfOk result (λ len. len < most) }
        ensures err { OnErr result (self.now.count ≡ most) }
    {
        if self.len == usize::MAX {
            Err(AllocError)
        } else {
            Ok(self.len)
        }
    }

    /// The text, if it has at most 256 bytes.
    #[inline(always)]
    pub fn text(&self) -> Option<&[u8]>
        ensures { option_copied result ≡ self.now.text }
    {
        if self.len <= ROOM {
            Some(self.waiting.as_slice())
        } else {
            None
        }
    }
}

impl Backward for Held {
    ghost after = { taken_after };

    ghost fits = { λ _ _. ⊤ };

    #[inline(always)]
    fn put(&mut self, piece: &[u8]) {
        self.len = self.len.saturating_add(piece.len());
        if self.len <= ROOM {
            self.waiting.put_fitting(piece);
        }
    }

    fn put_len(&mut self, len: usize) -> bool {
        let all = self.len.saturating_add(len);
        if all <= ROOM {
            return false;
        }
        self.len = all;
        true
    }

    ghost after_nothing = { held-nothing };

    ghost after_both = { held-both };

    ghost fits_both = { λ _ _ _ _. (tt, tt) };
}
