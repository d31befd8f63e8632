//! Texts behind which 16 more bytes can be read, so that a block can be read from each of their bytes.

ghost use Rattle.std.specs.Prelude.{◌≡◌, ◌-◌, ◌≤◌, Some, drop};
ghost use Rattle.iref_canonical.specs.Padded.{BeginsWith, IsPadded, text_in};

/// A text behind which 16 more bytes can be read.
#[derive(Clone, Copy)]
pub(crate) struct Padded<'a> {
    /// The text and what stands behind it.
    pub(crate) bytes: &'a [u8],
    /// The length of the text.
    pub(crate) len: usize,
}

impl Padded<'_> {
    // The part behind a delimiter of this length, with which the text begins.
    #[inline(always)]
    pub(crate) fn part(self, mark: usize, part: &str) -> Self
        requires padded { IsPadded self }
        requires begins { BeginsWith mark (Some part.now) (text_in self) }
        ensures text { text_in result ≡ part.now }
        ensures padded { IsPadded result }
    {
        let rest = self.skip(mark);
        Padded {
            bytes: rest.bytes,
            len: part.len(),
        }
    }

    // What follows the first bytes.
    #[inline(always)]
    pub(crate) fn skip(self, count: usize) -> Self
        requires padded { IsPadded self }
        requires within { count ≤ self.len }
        ensures text { text_in result ≡ drop count (text_in self.entry) }
        ensures len { result.len ≡ self.entry.len - count }
        ensures padded { IsPadded result }
    {
        Padded {
            bytes: &self.bytes[count..],
            len: self.len - count,
        }
    }
}
