//! Texts that are written into the caller's buffer: normal paths, resolution, relative references,
//! the mapping to URIs, canonical texts, sort keys and their ranges (RFC 3986 section 5.2, RFC 3987
//! section 3.1).
ghost use Rattle.std.specs.Prelude.{⊤, option_map};
ghost use Rattle.iref.specs.{Canonical.{canonical_text}, Key.{key}, SortKey.{sort_key}, Mapping.{mapped}};
ghost use Rattle.iref.specs.{Relativized.{relativized}, SortPrefix.{sort_prefix_end}, Relative.{relative_to}};
ghost use Rattle.iref.specs.{Resolution.{resolved}, Characters.{iri_chars}, Contexts.{alone}, Grammar.{IsPath, IsUri}};
ghost use Rattle.iref.specs.{PathValue.{read_path, spell_path}, Reference.{read_reference, spell}, Rules.{InUtf8}};
ghost use Rattle.iref_c.specs.Answers.{IsReference, Writes, WritesIfSome};
ghost use Rattle.iref.specs.PathSteps as step;

use crate::status::{INVALID, MEMORY, NONE, SECOND_INVALID};
use crate::store::{write_composed, write_text};
use iref::iri::{IriParts, IriRef, IriRefParts, Path};
use std::alloc::Global;

/// Writes the normal form of a path.
#[unsafe(no_mangle)]
pub extern "C" fn iref_normalize_path(
    alloc: Global,
    path: &[u8],
    out: &mut [u8],
    needed: &mut usize,
) -> u32
    ensures { Writes (InUtf8 (IsPath iri_chars) path.now) ⊤
        (spell_path (step.normalized alone (read_path path.now)))
        out.old out.new needed.old needed.new result }
{
    let Ok(path) = Path::from_bytes(path) else {
        return INVALID;
    };
    match path.normalized(alloc) {
        Ok(path) => write_text(path.as_bytes(), out, needed),
        Err(_) => MEMORY,
    }
}

/// Writes what a reference resolves to against a base.
#[unsafe(no_mangle)]
pub extern "C" fn iref_resolve(
    reference: &[u8],
    base: &[u8],
    out: &mut [u8],
    needed: &mut usize,
) -> u32
    ensures { Writes (IsReference reference.now) (InUtf8 (IsUri iri_chars) base.now)
        (spell (resolved (read_reference base.now) (read_reference reference.now)))
        out.old out.new needed.old needed.new result }
{
    let Ok(reference) = IriRefParts::from_bytes(reference) else {
        return INVALID;
    };
    let Ok(base) = IriParts::from_bytes(base) else {
        return SECOND_INVALID;
    };
    match reference.resolved(&base) {
        Ok(iri) => write_composed(&iri, out, needed),
        Err(_) => MEMORY,
    }
}

/// Writes a reference that leads from a base to a target.
#[unsafe(no_mangle)]
pub extern "C" fn iref_relative(
    target: &[u8],
    base: &[u8],
    out: &mut [u8],
    needed: &mut usize,
) -> u32
    ensures { Writes (IsReference target.now) (IsReference base.now)
        (spell (relative_to (read_reference target.now) (read_reference base.now)))
        out.old out.new needed.old needed.new result }
{
    let Ok(target) = IriRefParts::from_bytes(target) else {
        return INVALID;
    };
    let Ok(base) = IriRefParts::from_bytes(base) else {
        return SECOND_INVALID;
    };
    match target.relative_to(&base) {
        Ok(reference) => write_composed(&reference, out, needed),
        Err(_) => MEMORY,
    }
}

/// Writes the shortest reference that resolves against a base to a target's very text.
#[unsafe(no_mangle)]
pub extern "C" fn iref_relativized(
    target: &[u8],
    base: &[u8],
    out: &mut [u8],
    needed: &mut usize,
) -> u32
    ensures { WritesIfSome (InUtf8 (IsUri iri_chars) target.now) (InUtf8 (IsUri iri_chars) base.now)
        (option_map spell (relativized (read_reference target.now) (read_reference base.now)))
        out.old out.new needed.old needed.new result }
{
    let Ok(target) = IriParts::from_bytes(target) else {
        return INVALID;
    };
    let Ok(base) = IriParts::from_bytes(base) else {
        return SECOND_INVALID;
    };
    match target.relativized(&base) {
        Ok(Some(reference)) => write_composed(&reference, out, needed),
        Ok(None) => NONE,
        Err(_) => MEMORY,
    }
}

/// Writes the reference of URIs that a reference of IRIs maps to.
#[unsafe(no_mangle)]
pub extern "C" fn iref_to_uri(
    alloc: Global,
    reference: &[u8],
    out: &mut [u8],
    needed: &mut usize,
) -> u32
    ensures { Writes (IsReference reference.now) ⊤ (mapped reference.now)
        out.old out.new needed.old needed.new result }
{
    let Ok(reference) = IriRef::from_bytes(reference) else {
        return INVALID;
    };
    match reference.to_uri_ref(alloc) {
        Ok(uri) => write_text(uri.as_bytes(), out, needed),
        Err(_) => MEMORY,
    }
}

/// Writes the canonical text of a reference.
#[unsafe(no_mangle)]
pub extern "C" fn iref_canonical(
    alloc: Global,
    reference: &[u8],
    out: &mut [u8],
    needed: &mut usize,
) -> u32
    ensures { Writes (IsReference reference.now) ⊤
        (canonical_text (key (read_reference reference.now)))
        out.old out.new needed.old needed.new result }
{
    let Ok(reference) = IriRef::from_bytes(reference) else {
        return INVALID;
    };
    match reference.canonical(alloc) {
        Ok(canonical) => write_text(canonical.as_bytes(), out, needed),
        Err(_) => MEMORY,
    }
}

/// Writes the sort key of a reference.
#[unsafe(no_mangle)]
pub extern "C" fn iref_sort_key(
    alloc: Global,
    reference: &[u8],
    out: &mut [u8],
    needed: &mut usize,
) -> u32
    ensures { Writes (IsReference reference.now) ⊤ (sort_key (key (read_reference reference.now)))
        out.old out.new needed.old needed.new result }
{
    let Ok(reference) = IriRef::from_bytes(reference) else {
        return INVALID;
    };
    match reference.sort_key(alloc) {
        Ok(key) => write_text(key.as_bytes(), out, needed),
        Err(_) => MEMORY,
    }
}

/// Writes where the sort keys of all below a reference end: they begin with these bytes but the last.
#[unsafe(no_mangle)]
pub extern "C" fn iref_sort_range(
    alloc: Global,
    reference: &[u8],
    out: &mut [u8],
    needed: &mut usize,
) -> u32
    ensures { Writes (IsReference reference.now) ⊤
        (sort_prefix_end (key (read_reference reference.now)))
        out.old out.new needed.old needed.new result }
{
    let Ok(reference) = IriRef::from_bytes(reference) else {
        return INVALID;
    };
    match reference.sort_range(alloc) {
        Ok(range) => write_text(range.end.as_bytes(), out, needed),
        Err(_) => MEMORY,
    }
}
