//! What stands before a path (RFC 3986 sections 3.3 and 4.2).
#![tactic(auto)]

ghost use Rattle.std.specs.Prelude.{◌≡◌, codes};
ghost use Rattle.iref_grammar.specs.{Contexts.{context_from}, Texts.{begins_with, from_first}};

/// What stands before a path (RFC 3986 sections 3.3 and 4.2).
#[derive(Clone, Copy, Debug, Default)]
pub struct PathContext {
    /// A scheme does.
    pub has_scheme: bool,
    /// An authority does.
    pub has_authority: bool,
}

impl PathContext {
    /// What bytes before a path say of it: there is a scheme if a `:` stands before the first `/`,
    /// `?` or `#`, and an authority if `//` follows that `:`, or stands first without one.
    #[tactic(auto, using(crate::proofs::MarkLemmas::context_at_colon, crate::proofs::MarkLemmas::context_without_colon))]
    pub fn from_bytes(bytes: &[u8]) -> PathContext
        ensures { result ≡ context_from bytes.now }
    {
        let rest = from_mark(bytes);
        if begins_with(rest, b":") {
            PathContext {
                has_scheme: true,
                has_authority: begins_with(rest, b"://"),
            }
        } else {
            PathContext {
                has_scheme: false,
                has_authority: begins_with(bytes, b"//"),
            }
        }
    }
}

// The first `:`, `/`, `?` or `#` and what follows it.
fn from_mark(bytes: &[u8]) -> &[u8]
    ensures { result.now ≡ from_first (codes ":/?#") bytes.now }
{
    let end = bytes.iter().position(|byte| *byte == b':'
        || *byte == b'/'
        || *byte == b'?'
        || *byte == b'#');
    &bytes[end.unwrap_or(bytes.len())..]
}

// Whether the bytes begin so.
fn begins_with(bytes: &[u8], front: &[u8]) -> bool
    ensures { result ≡ begins_with front.now bytes.now }
{
    bytes.starts_with(front)
}
