//! What takes a text from its end, piece by piece: it is counted, written or compared.
ghost use Rattle.std.specs.Prelude.{◌≡◌, ℕ, ◌<◌, ◌++◌, Option, Some, [], IfOk, OnErr, false, length, true, ⊤};
ghost use Rattle.std.specs.Option.{option_copied};
ghost use Rattle.iref_grammar.specs.Rules.{Text};
ghost use Rattle.iref_splice.specs.Backward.{compared_after, counted_after, is_all, most};
ghost use Rattle.iref_splice.specs.BackwardLaws.{compared-both, compared-nothing, counted-both, counted-nothing};

use std::alloc::AllocError;
use std::marker::Model;

/// What takes a text from its end.
pub trait Backward {
    /// What it is after one more piece, which stands before those that it took.
    ghost after: { Self → Text → Self };

    /// It can take the piece.
    ghost fits: { Self → Text → Type 0 };

    /// Takes a piece, which stands before those that it took.
    fn put(&mut self, piece: &[u8])
        requires { fits self.old piece.now }
        ensures { self.new ≡ after self.old piece.now };

    /// Takes a text of this length, whatever its bytes, and returns `true` if only the length matters.
    /// Else nothing changes.
    fn put_len(&mut self, len: usize) -> bool
        ensures taken { result ≡ true → (text : Text) → length text ≡ len
            → self.new ≡ after self.old text }
        ensures not_taken { result ≡ false → self.new ≡ self.old }
    {
        false
    }

    /// Nothing changes it.
    ghost after_nothing: { (out : Self) → after out [] ≡ out };

    /// One piece, and then another before it.
    ghost after_both: { (out : Self) → (front back : Text)
        → after (after out back) front ≡ after out (front ++ back) };

    /// What can take both can take the last, and then the first.
    ghost fits_both: { (out : Self) → (front back : Text) → fits out (front ++ back)
        → fits out back × fits (after out back) front };
}

/// How many bytes a text has, or the greatest number where they are more.
#[derive(Drop)]
pub struct Count {
    len: usize,
}

impl Model for Count {
    ghost Value = { ℕ };

    ghost view = { λ c. c.len };

    ghost invariant = { λ c. ⊤ };
}

impl Count {
    /// Of no text.
    pub fn new() -> Self
        ensures { result ≡ 0 }
    {
        Count { len: 0 }
    }

    /// How many bytes were taken, if they can be counted.
    pub fn len(&self) -> Result<usize, AllocError>
        ensures ok { IfOk result (λ len. len ≡ self.now) }
        ensures exact { IfOk result (λ len. len < most) }
        ensures err { OnErr result (self.now ≡ most) }
    {
        if self.len == usize::MAX {
            Err(AllocError)
        } else {
            Ok(self.len)
        }
    }
}

impl Backward for Count {
    ghost after = { counted_after };

    ghost fits = { λ _ _. ⊤ };

    fn put(&mut self, piece: &[u8]) {
        self.len = self.len.saturating_add(piece.len());
    }

    fn put_len(&mut self, len: usize) -> bool {
        self.len = self.len.saturating_add(len);
        true
    }

    ghost after_nothing = { counted-nothing };

    ghost after_both = { counted-both };

    ghost fits_both = { λ _ _ _ _. (tt, tt) };
}

/// What is left of a text that is compared from its end, or nothing once it differs.
#[derive(Drop)]
pub struct Compared<'a> {
    rest: Option<&'a [u8]>,
}

impl<'a> Model for Compared<'a> {
    ghost Value = { Option Text };

    ghost view = { λ c. option_copied c.rest };

    ghost invariant = { λ c. ⊤ };
}

impl<'a> Compared<'a> {
    /// All of the text is left.
    pub fn new(text: &'a [u8]) -> Self
        ensures { result ≡ Some text.now }
    {
        Compared { rest: Some(text) }
    }

    /// Whether all of the text was taken, and nothing else.
    pub fn is_whole(&self) -> bool
        ensures { result ≡ is_all self.now }
    {
        match self.rest {
            Some(rest) => rest.is_empty(),
            None => false,
        }
    }
}

impl Backward for Compared<'_> {
    ghost after = { compared_after };

    ghost fits = { λ _ _. ⊤ };

    fn put(&mut self, piece: &[u8]) {
        self.rest = match self.rest {
            Some(rest) => rest.strip_suffix(piece),
            None => None,
        };
    }

    ghost after_nothing = { compared-nothing };

    ghost after_both = { compared-both };

    ghost fits_both = { λ _ _ _ _. (tt, tt) };
}

/// A slice that is filled from its end.
#[derive(Drop)]
pub struct Filled<'a> {
    bytes: &'a mut [u8],
    // What is written begins there.
    start: usize,
}

impl<'a> Filled<'a> {
    ghost use Rattle.iref_splice.specs.Filled.{IsUnwritten, borrowed_name};

    /// All of the slice is to be written.
    pub fn new(bytes: &'a mut [u8]) -> Self
        ensures same_reference { borrowed_name result ≡ bytes.entry.ghost_name }
        ensures unwritten { IsUnwritten result bytes.old }
    {
        let start = bytes.len();
        Filled { bytes, start }
    }
}

impl Backward for Filled<'_> {
    ghost use Rattle.iref_splice.specs.Filled.{HasRoom, filled_after};
    ghost use Rattle.iref_splice.specs.FilledLaws.{filled-both, filled-fits, filled-nothing};

    ghost after = { filled_after };

    ghost fits = { HasRoom };

    #[inline(always)]
    fn put(&mut self, piece: &[u8]) {
        let start = self.start - piece.len();
        self.bytes[start..self.start].copy_from_slice(piece);
        self.start = start;
    }

    ghost after_nothing = { filled-nothing };

    ghost after_both = { filled-both };

    ghost fits_both = { filled-fits };
}
