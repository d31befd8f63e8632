//! Names and words as they are shown: nothing in them acts on a terminal, or ends a line.
ghost use Rattle.std.specs.{Fmt.{WritesOnOk}, Prelude.{◌≡◌, Some}};
ghost use Rattle.iref_tool.specs.Shown.{is_replaced, shown, shown_char};

use std::fmt;

/// Whether U+FFFD is shown in place of a character: of control characters, those that set the
/// direction of text, and those that end a line.
pub fn is_replaced(c: char) -> bool
    ensures { result ≡ is_replaced c }
{
    c.is_control()
        || matches!(
            c,
            '\u{061C}' | '\u{200E}' | '\u{200F}' | '\u{2028}'..='\u{202E}' | '\u{2066}'..='\u{2069}'
        )
}

// The character that is shown.
fn shown_char(c: char) -> char
    ensures { result ≡ shown_char c }
{
    if is_replaced(c) { '\u{FFFD}' } else { c }
}

// Writes a text as it is shown.
fn write_shown<W: fmt::Write>(text: &str, f: &mut fmt::Formatter<W>) -> fmt::Result
    ensures { WritesOnOk W.write_str_gives f.old result (shown text.now) f.new }
{
    for c in text.chars() {
        f.write_char(shown_char(c))?;
    }
    Ok(())
}

/// A name or a word as it is shown: of `a`, ESC and `[2J` it is `a\u{FFFD}[2J`.
#[derive(Clone, Copy)]
pub struct Shown<'a>(pub &'a str);

impl fmt::Display for Shown<'_> {
    ghost output = { λ word. Some (shown word.0.now) };

    fn fmt<W: fmt::Write>(&self, f: &mut fmt::Formatter<W>) -> fmt::Result {
        write_shown(self.0, f)
    }
}
