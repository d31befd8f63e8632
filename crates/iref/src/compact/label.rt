//! Which texts may be labels of a prefix table.
ghost use Rattle.std.specs.{Prelude.{◌≡◌, ◌==◌, ◌&&◌, ◌||◌, not, length}, Str.{chars}, List.{list_all}};
ghost use Rattle.iref_grammar.specs.Grammar.{full_stop};
ghost use Rattle.iref.specs.PrefixLabels.{is_label, is_label_char, is_ascii_label};
ghost use Rattle.iref.specs.PrefixLabels.{is_pn_chars_base, is_pn_chars, follow_pn_chars_base, is_turtle_label};

use iref_parse::scan::split_first_char;
use std::fmt;

/// Which texts may be labels of a prefix table. None of them holds a `:`.
#[derive(Clone, Copy, Debug, PartialEq, Eq)]
pub enum Labels {
    /// An ASCII letter, then ASCII letters, digits, `-` and `_`, such as `ex`.
    Ascii,
    /// `PN_PREFIX` of the Turtle grammar (RDF 1.1 Turtle section 6.5), or the empty text. `größe`
    /// and `schema.org` are such labels; `1x`, `_x` and `x.` are not.
    Turtle,
    /// Any text without `:`, the empty one too, such as `1 x`.
    Any,
}

impl fmt::Display for Labels {
    fn fmt<W: fmt::Write>(&self, f: &mut fmt::Formatter<W>) -> fmt::Result {
        f.write_str(match self {
            Labels::Ascii => "a label is an ASCII letter, then ASCII letters, digits, - and _",
            Labels::Turtle => "a label is empty, or in PN_PREFIX of Turtle",
            Labels::Any => "a label is a text without a colon",
        })
    }
}

impl Labels {
    // Whether the text may be a label.
    #[tactic(auto, using(crate::proofs::PrefixLabelLemmas::allows))]
    pub(super) fn allow(self, label: &str) -> bool
        ensures { result ≡ is_label self label.now }
    {
        match self {
            Labels::Ascii => is_ascii_label(label),
            Labels::Turtle => is_turtle_label(label),
            Labels::Any => !label.as_bytes().contains(&b':'),
        }
    }
}

// Whether an ASCII label may hold the byte after its first letter.
fn is_label_byte(byte: u8) -> bool
    ensures { result ≡ is_label_char byte }
{
    byte.is_ascii_alphanumeric() || matches!(byte, b'-' | b'_')
}

// Whether an ASCII label may hold the bytes after its first letter.
fn are_label_bytes(bytes: &[u8]) -> bool
    ensures { result ≡ list_all is_label_char bytes.now }
{
    bytes.iter().all(|byte| is_label_byte(*byte))
}

// Whether the text is a letter, then letters, digits, `-` and `_`.
#[tactic(auto, unfolding(crate::specs::PrefixLabels::is_ascii_label))]
fn is_ascii_label(text: &str) -> bool
    ensures { result ≡ is_ascii_label text.now }
{
    let Some((first, others)) = text.as_bytes().split_first() else {
        return false;
    };
    first.is_ascii_alphabetic() && are_label_bytes(others)
}

// `PN_CHARS_BASE`.
fn is_pn_chars_base(c: char) -> bool
    ensures { result ≡ is_pn_chars_base c }
{
    c.is_ascii_alphabetic()
        || matches!(
            c,
            '\u{00C0}'..='\u{00D6}' | '\u{00D8}'..='\u{00F6}' | '\u{00F8}'..='\u{02FF}'
                | '\u{370}'..='\u{37D}' | '\u{37F}'..='\u{1FFF}' | '\u{200C}'..='\u{200D}'
                | '\u{2070}'..='\u{218F}' | '\u{2C00}'..='\u{2FEF}' | '\u{3001}'..='\u{D7FF}'
                | '\u{F900}'..='\u{FDCF}' | '\u{FDF0}'..='\u{FFFD}' | '\u{10000}'..='\u{EFFFF}'
        )
}

// `PN_CHARS`.
fn is_pn_chars(c: char) -> bool
    ensures { result ≡ is_pn_chars c }
{
    is_pn_chars_base(c)
        || c.is_ascii_digit()
        || matches!(
            c,
            '_' | '-' | '\u{B7}' | '\u{300}'..='\u{36F}' | '\u{203F}'..='\u{2040}'
        )
}

// Whether the character may stand behind the first one, and before this text.
fn may_stand(c: char, behind: &str) -> bool
    ensures { result ≡ (is_pn_chars c || (c == full_stop && not (length behind.now == 0))) }
{
    is_pn_chars(c) || (c == '.' && !behind.is_empty())
}

// Whether the text may follow the first character of `PN_PREFIX`: a dot is not its end.
fn may_follow(text: &str) -> bool
    ensures { result ≡ follow_pn_chars_base (chars text.now) }
{
    let mut rest = text;
    while let Some((c, behind)) = split_first_char(rest) {
        if !may_stand(c, behind) {
            return false;
        }
        rest = behind;
    }
    true
}

// Whether the text is `PN_PREFIX` or empty.
#[tactic(auto, using(crate::proofs::PrefixLabelLemmas::label_of_none))]
fn is_turtle_label(text: &str) -> bool
    ensures { result ≡ is_turtle_label (chars text.now) }
{
    let Some((first, behind)) = split_first_char(text) else {
        return true;
    };
    is_pn_chars_base(first) && may_follow(behind)
}
