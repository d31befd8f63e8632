//! The characters that a grammar adds to those of ASCII.
#![tactic(auto)]

ghost use Rattle.std.specs.Prelude.{◌≡◌, true};
ghost use Rattle.iref_grammar.specs.Characters.{CharTests, AreAboveAscii, HasCommon, uri_chars, iri_chars};
ghost use Rattle.iref_grammar.specs.Characters.{uri_above_ascii, iri_above_ascii};

/// The characters that a grammar adds to those of ASCII.
pub trait CharSet {
    /// What proofs see of the set.
    ghost tests: { CharTests };

    /// Whether `unreserved` also has the character.
    fn is_extra(c: char) -> bool
        ensures { result ≡ tests.extra c };

    /// Whether the query also has it.
    fn is_private(c: char) -> bool
        ensures { result ≡ tests.private c };

    /// Whether `unreserved` is known to have each character from U+00C0 to U+D7FF, which are then
    /// read faster: of IRIs it is. An impl that does not say answers that it is not.
    fn has_common() -> bool
        ensures { result ≡ true → HasCommon tests }
    {
        false
    }

    /// Both are false of ASCII.
    ghost above_ascii: { AreAboveAscii tests };
}

/// The characters of URIs: none beyond ASCII (RFC 3986 section 2).
pub struct UriChars;

impl CharSet for UriChars {
    ghost tests = { uri_chars };

    ghost above_ascii = { uri_above_ascii };

    fn is_extra(_c: char) -> bool {
        false
    }

    fn is_private(_c: char) -> bool {
        false
    }
}

/// The characters of IRIs, such as `é`, and in a query private ones, as U+E000 (RFC 3987 section
/// 2.2).
pub struct IriChars;

impl CharSet for IriChars {
    ghost tests = { iri_chars };

    ghost above_ascii = { iri_above_ascii };

    fn is_extra(c: char) -> bool {
        matches!(
            c,
            '\u{A0}'..='\u{D7FF}' | '\u{F900}'..='\u{FDCF}' | '\u{FDF0}'..='\u{FFEF}'
                | '\u{E1000}'..='\u{EFFFD}'
        ) || (matches!(c, '\u{10000}'..='\u{DFFFD}') && (c as u32) % 0x1_0000 <= 0xFFFD)
    }

    fn is_private(c: char) -> bool {
        matches!(
            c,
            '\u{E000}'..='\u{F8FF}' | '\u{F0000}'..='\u{FFFFD}' | '\u{100000}'..='\u{10FFFD}'
        )
    }

    fn has_common() -> bool {
        true
    }
}
