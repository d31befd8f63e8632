//! Columns of a text, counted in characters.
ghost use Rattle.std.specs.Prelude.{◌≡◌, ◌+◌, ◌≤◌, length};
ghost use Rattle.iref_batch.specs.Columns.{begins_char as is_first_byte, chars_in_first};

// Whether a character of UTF-8 begins with this byte.
fn begins_char(byte: u8) -> bool
    ensures { result ≡ is_first_byte byte }
{
    byte < 0x80 || byte >= 0xC0
}

// How many characters stand before a byte of a text: of `é b` two before the byte 3.
fn chars_before(text: &[u8], at: usize) -> usize
    ensures count { result ≡ chars_in_first at text.now }
    ensures bound { result ≤ length text.now }
{
    text.iter()
        .take(at)
        .filter(|byte| begins_char(**byte))
        .count()
}

/// The column of a byte of a text, counted in characters from 1: of `é b` that of the byte 3 is 3.
pub fn column(text: &[u8], at: usize) -> usize
    ensures { result ≡ 1 + chars_in_first at text.now }
{
    1 + chars_before(text, at)
}
