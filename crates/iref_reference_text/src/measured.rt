//! References that are measured before they are written: what one resolves to against a base,
//! strict (RFC 3986 sections 5.2.2 and 5.3).
ghost use Rattle.std.specs.{Fmt.{WritesOnOk}, Option.{option_copied}};
ghost use Rattle.std.specs.Prelude.{◌≡◌, ◌+◌, ◌*◌, ◌<◌, ◌^◌, ◌++◌, [], ◌∷◌, IfOk, is_some, length, true};
ghost use Rattle.iref_grammar.specs.{ComponentTexts.{spell_components}, Reference.{context_of}, Grammar.{colon}};
ghost use Rattle.iref_grammar.specs.Texts.{part_then, then_part};
ghost use Rattle.iref_grammar.specs.{fits, resolved};
ghost use Rattle.iref_parse.specs.ReferenceSlices.{value_of};
ghost use Rattle.iref_reference_text.specs.ComponentLengths.{lengths_of_texts};
ghost use Rattle.iref_reference_text.specs.MeasuredReferences.{IsReady, spell_texts, measured_components};

use crate::lengths::Lengths;
use crate::row::Row;
use iref_grammar::context::PathContext;
use iref_parse::split::ReferenceSlices;
use iref_path::measured::MeasuredPath;
use iref_splice::Memory;
use iref_splice::backward::Backward;
use iref_splice::text::{marked, marked_after, marked_len};
use iref_splice::unwritten::Unwritten;
use std::alloc::{AllocError, Global};
use std::fmt;

/// The components of a reference that is not written yet, as of what `../g` resolves to against
/// `http://a/b/c`, which takes 10 bytes (RFC 3986 section 5.3).
#[derive(Clone, Copy)]
pub struct MeasuredReference<'a> {
    pub(crate) scheme: Option<&'a str>,
    pub(crate) authority: Option<&'a str>,
    pub(crate) path: MeasuredPath<'a>,
    pub(crate) query: Option<&'a str>,
    pub(crate) fragment: Option<&'a str>,
}

/// Refuses a base's path and another one of which the bytes and the steps between cannot be
/// counted, since no text can hold them.
pub fn count_paths(base: &str, other: &str) -> Result<(), AllocError>
    ensures { IfOk result (λ _. 3 * length base.now + length other.now + 16 < 2 ^ 64) }
{
    let climbs = base.len().checked_mul(3).ok_or(AllocError)?;
    let steps = climbs.checked_add(other.len()).ok_or(AllocError)?;
    steps.checked_add(16).ok_or(AllocError)?;
    Ok(())
}

// What stands before a path after these components.
pub(crate) fn context_after(scheme: Option<&str>, authority: Option<&str>) -> PathContext
    ensures { result ≡ record {
      has_scheme = is_some (option_copied scheme.entry);
      has_authority = is_some (option_copied authority.entry);
    } }
{
    PathContext {
        has_scheme: scheme.is_some(),
        has_authority: authority.is_some(),
    }
}

// Puts a delimiter and a part, or nothing.
#[inline(always)]
fn put_marked<O: Backward>(out: &mut O, mark: &[u8], part: Option<&str>)
    requires { O.fits out.old (then_part mark.now (option_copied part)) }
    ensures { out.new ≡ O.after out.old (then_part mark.entry.now (option_copied part.entry)) }
{
    if let Some(part) = part {
        out.put(part.as_bytes());
        out.put(mark);
    }
}

// Puts a scheme and its delimiter, or nothing.
#[inline(always)]
fn put_scheme<O: Backward>(out: &mut O, scheme: Option<&str>)
    requires { O.fits out.old (part_then (colon ∷ []) (option_copied scheme)) }
    ensures { out.new ≡ O.after out.old (part_then (colon ∷ []) (option_copied scheme.entry)) }
{
    if let Some(scheme) = scheme {
        out.put(b":");
        out.put(scheme.as_bytes());
    }
}

// Writes two texts to a formatter.
fn show_both<W: fmt::Write>(texts: (&str, &str), f: &mut fmt::Formatter<W>) -> fmt::Result
    ensures { WritesOnOk W.write_str_gives f.old result
        (texts.entry.0.now ++ texts.entry.1.now) f.new }
{
    f.write_str(texts.0)?;
    f.write_str(texts.1)
}

impl<'a> MeasuredReference<'a> {
    /// The components of what the reference resolves to, by its row of the table. A reference without a
    /// path keeps the base's as it stands, and its query where it has none.
    pub fn resolved(base: ReferenceSlices<'a>, reference: ReferenceSlices<'a>) -> Self
        requires fits { fits (context_of (value_of base)) (value_of base).path ≡ true }
        requires room { length base.path.now + length reference.path.now + 6 < 2 ^ 64 }
        ensures texts { measured_components result ≡ spell_components
            (resolved (value_of base.entry) (value_of reference.entry)) }
        ensures ready { IsReady result }
    {
        let (scheme, fragment) = (reference.scheme.or(base.scheme), reference.fragment);
        let path = reference.path;
        let context = context_after(scheme, base.authority);
        let kept = MeasuredReference {
            scheme,
            authority: base.authority,
            path: MeasuredPath::kept(base.path),
            query: reference.query,
            fragment,
        };
        let row = Row::of(reference);
        match row {
            Row::Own => MeasuredReference {
                authority: reference.authority,
                path: MeasuredPath::normalized(context_after(scheme, reference.authority), path),
                ..kept
            },
            Row::Base => MeasuredReference {
                query: reference.query.or(base.query),
                ..kept
            },
            Row::Rooted => MeasuredReference {
                path: MeasuredPath::normalized(context, path),
                ..kept
            },
            Row::Merged => MeasuredReference {
                path: MeasuredPath::normalized_after(context, base.path, path),
                ..kept
            },
        }
    }

    /// How long the components are, with their delimiters.
    pub fn lengths(&self) -> Lengths
        requires { IsReady self.now }
        ensures { result ≡ lengths_of_texts (measured_components self.now) }
    {
        Lengths {
            scheme: marked_len(1, self.scheme),
            authority: marked_len(2, self.authority),
            path: self.path.len(),
            query: marked_len(1, self.query),
            fragment: marked_len(1, self.fragment),
        }
    }

    /// The bytes of the text, which is this long.
    pub fn bytes(&self, alloc: Global, len: usize) -> Result<Vec<u8>, Memory>
        requires ready { IsReady self.now }
        requires len { len ≡ length (spell_texts (measured_components self.now)) }
        ensures { IfOk result (λ bytes. bytes.items ≡ spell_texts (measured_components self.now)) }
    {
        let mut bytes = vec![in alloc; 0u8; len]?;
        self.fill(&mut bytes);
        Ok(bytes)
    }

    /// Writes the text to a formatter, from the front.
    #[tactic(auto, unfolding(crate::specs::MeasuredReferences::spell_texts))]
    pub fn show<W: fmt::Write>(&self, f: &mut fmt::Formatter<W>) -> fmt::Result
        requires { IsReady self.now }
        ensures { WritesOnOk W.write_str_gives f.old result
            (spell_texts (measured_components self.now)) f.new }
    {
        show_both(marked_after(self.scheme, ":"), f)?;
        show_both(marked("//", self.authority), f)?;
        self.path.show(f)?;
        show_both(marked("?", self.query), f)?;
        show_both(marked("#", self.fragment), f)
    }
}

impl Unwritten for MeasuredReference<'_> {
    ghost text = { λ m. spell_texts (measured_components m) };

    ghost is_sound = { IsReady };

    #[tactic(auto, unfolding(crate::specs::MeasuredReferences::spell_texts))]
    fn put<O: Backward>(&self, out: &mut O) {
        put_marked(out, b"#", self.fragment);
        put_marked(out, b"?", self.query);
        self.path.put(out);
        put_marked(out, b"//", self.authority);
        put_scheme(out, self.scheme);
    }
}
