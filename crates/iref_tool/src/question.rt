//! One answer to the words of a command.
ghost use Rattle.std.specs.Prelude.{◌≡◌, IfOk, OnOk, codes, option_map, string_bytes};
ghost use Rattle.clap.specs.Words.{first_value, found_of};
ghost use Rattle.iref.specs.{Components.{text_of}, Characters.{iri_chars}, Faults.{fault_of_reference}};
ghost use Rattle.iref_reference.specs.References.{reference_text, reference_value};
ghost use Rattle.iref_tool.specs.Commands.{compact_reply, edit_reply, equal_reply, normal_reply, part_lines};
ghost use Rattle.iref_tool.specs.Commands.{relative_reply, relativized_reply, reply_of, reply_of_two, resolved_reply};
ghost use Rattle.iref_tool.specs.Commands.{to_uri_reply, with_part};
ghost use Rattle.iref_tool.specs.{EntryWords.{expanded_by_words}, Replies.{EndsAs, MayEndAs}};
ghost use Rattle.iref_tool.specs.Words.{ReadsAtEnd, word, words};

use crate::edits::edited;
use crate::prefixes::{compacted, expanded};
use crate::read::{component, iri, reference};
use crate::refusal::{Reason, Refusal};
use crate::words::{word_of, words_of};
use clap::ArgMatches;
use iref::Memory;
use iref::chars::CharSet;
use iref::iri::{IriRef, Path};
use iref::rules::{BorrowedText, Rule};
use std::alloc::Global;

// Adds a line for a component, if it is there.
fn push_part<R: Rule, C: CharSet>(
    lines: &mut String,
    name: &str,
    part: Option<BorrowedText<'_, R, C>>,
) -> Result<(), Memory>
    ensures { OnOk result (string_bytes lines.new
        ≡ with_part (string_bytes lines.old) name.now (option_map text_of part.entry)) }
{
    let Some(part) = part else {
        return Ok(());
    };
    if !lines.is_empty() {
        lines.push_str("\n")?;
    }
    lines.push_str(name)?;
    lines.push_str(": ")?;
    lines.push_str(part.as_str())?;
    Ok(())
}

// A line for each component that is there, and for each part of the authority.
fn parts(alloc: Global, reference: IriRef<'_>) -> Result<String, Memory>
    ensures { IfOk result (λ lines.
        string_bytes lines ≡ part_lines (reference_value reference.entry)) }
{
    let mut lines = String::new(alloc);
    push_part(&mut lines, "scheme", reference.scheme())?;
    push_part(&mut lines, "authority", reference.authority())?;
    push_part(&mut lines, "user info", reference.user_info())?;
    push_part(&mut lines, "host", reference.host())?;
    push_part(&mut lines, "port", reference.port())?;
    push_part(&mut lines, "path", Some(reference.path()))?;
    push_part(&mut lines, "query", reference.query())?;
    push_part(&mut lines, "fragment", reference.fragment())?;
    Ok(lines)
}

// The word of an argument as a reference of IRIs.
fn reference_of<'m, 'w: 'm>(
    matches: &'m ArgMatches<'w>,
    id: &'static str,
) -> Result<IriRef<'m>, Refusal<'m>>
    ensures { ReadsAtEnd reference_text
        (fault_of_reference iri_chars (word (found_of matches.now) id.now)) id.now
        (codes "IRI reference") (word (found_of matches.now) id.now)
        (word (found_of matches.now) id.now) result }
{
    reference(id, word_of(matches, id))
}

// The normal form of a path.
fn normal<'a>(alloc: Global, word: &'a str) -> Result<String, Refusal<'a>>
    ensures { EndsAs (normal_reply word.now) result }
{
    let path: Path<'_> = component("PATH", "path", word, word)?;
    Ok(path.normalized(alloc)?.into_string())
}

// Whether two references are equal by `==`: `yes` or `no`.
fn equal<'m, 'w: 'm>(alloc: Global, matches: &'m ArgMatches<'w>) -> Result<String, Refusal<'m>>
    ensures { EndsAs (equal_reply (word (found_of matches.now) (codes "FIRST"))
        (word (found_of matches.now) (codes "SECOND"))) result }
{
    let equal = reference_of(matches, "FIRST")? == reference_of(matches, "SECOND")?;
    Ok(String::from_str(alloc, if equal { "yes" } else { "no" }).or(Err(Memory))?)
}

// A reference that leads from a base to a target.
fn relative<'m, 'w: 'm>(alloc: Global, matches: &'m ArgMatches<'w>) -> Result<String, Refusal<'m>>
    ensures { EndsAs (relative_reply (word (found_of matches.now) (codes "TARGET"))
        (word (found_of matches.now) (codes "BASE"))) result }
{
    let target = reference_of(matches, "TARGET")?;
    let base = reference_of(matches, "BASE")?;
    Ok(target.relative_to(alloc, base)?.into_string())
}

// A reference after edits.
fn edit<'m, 'w: 'm>(alloc: Global, matches: &'m ArgMatches<'w>) -> Result<String, Refusal<'m>>
    ensures { EndsAs (edit_reply (word (found_of matches.now) (codes "URI"))
        (words (found_of matches.now) (codes "EDIT"))) result }
{
    let reference = reference_of(matches, "URI")?;
    edited(alloc, reference, words_of(matches, "EDIT"))
}

// An IRI, escaped as a URI.
fn to_uri<'m, 'w: 'm>(alloc: Global, matches: &'m ArgMatches<'w>) -> Result<String, Refusal<'m>>
    ensures { EndsAs (to_uri_reply (word (found_of matches.now) (codes "IRI"))) result }
{
    let reference = reference_of(matches, "IRI")?;
    Ok(reference.to_uri_ref(alloc)?.into_string())
}

// An IRI, shortened by labels.
fn compact<'m, 'w: 'm>(alloc: Global, matches: &'m ArgMatches<'w>) -> Result<String, Refusal<'m>>
    ensures { EndsAs (compact_reply (word (found_of matches.now) (codes "IRI"))
        (words (found_of matches.now) (codes "LABEL=IRI"))) result }
{
    let iri = iri("IRI", word_of(matches, "IRI"))?;
    compacted(alloc, iri, words_of(matches, "LABEL=IRI"))
}

// The IRI that a text with a label stands for.
fn expand<'m, 'w: 'm>(alloc: Global, matches: &'m ArgMatches<'w>) -> Result<String, Refusal<'m>>
    ensures { EndsAs (expanded_by_words (word (found_of matches.now) (codes "TEXT"))
        (words (found_of matches.now) (codes "LABEL=IRI"))) result }
{
    let text = word_of(matches, "TEXT");
    expanded(alloc, text, words_of(matches, "LABEL=IRI"))
}

// What a reference resolves to against a base.
fn resolved<'a>(alloc: Global, word: &'a str, base: &'a str) -> Result<String, Refusal<'a>>
    ensures { EndsAs (resolved_reply word.now base.now) result }
{
    let reference = reference("REFERENCE", word)?;
    Ok(reference.resolved(alloc, iri("BASE", base)?)?.into_string())
}

// The shortest reference from a base to the text of a target.
fn relativized<'a>(alloc: Global, target: &'a str, base: &'a str) -> Result<String, Refusal<'a>>
    ensures { EndsAs (relativized_reply target.now base.now) result }
{
    let from = iri("BASE", base)?;
    match iri("TARGET", target)?.relativized(alloc, from)? {
        Some(reference) => Ok(reference.into_string()),
        None => Err(Refusal::Word("TARGET", target, Reason::NoReference)),
    }
}

// The answer of `resolve` and `relativize` to two words, and None to others and for other commands.
fn answer_of_two<'m, 'w: 'm>(
    alloc: Global,
    name: &str,
    matches: &'m ArgMatches<'w>,
) -> Result<Option<String>, Refusal<'m>>
    ensures { MayEndAs (reply_of_two name.now (first_value (found_of matches.now) (codes "base"))
        (words (found_of matches.now) (codes "WORD"))) result }
{
    match (name, matches.get_str("base"), words_of(matches, "WORD")) {
        ("resolve", None, [word, base]) => Ok(Some(resolved(alloc, *word, *base)?)),
        ("relativize", None, [word, base]) => Ok(Some(relativized(alloc, *word, *base)?)),
        _ => Ok(None),
    }
}

/// The answer of a command to its words, one line but for `parts`; an error says which word is wrong,
/// and why. None for a command that works on lines, and where `resolve` or `relativize` has other
/// words than two.
pub fn answer<'m, 'w: 'm>(
    alloc: Global,
    name: &str,
    matches: &'m ArgMatches<'w>,
) -> Result<Option<String>, Refusal<'m>>
    ensures { MayEndAs (reply_of name.now (found_of matches.now)) result }
{
    let answer = match name {
        "parts" => parts(alloc, reference_of(matches, "URI")?)?,
        "normal" => normal(alloc, word_of(matches, "PATH"))?,
        "equal" => equal(alloc, matches)?,
        "relative" => relative(alloc, matches)?,
        "edit" => edit(alloc, matches)?,
        "to-uri" => to_uri(alloc, matches)?,
        "compact" => compact(alloc, matches)?,
        "expand" => expand(alloc, matches)?,
        _ => return answer_of_two(alloc, name, matches),
    };
    Ok(Some(answer))
}
