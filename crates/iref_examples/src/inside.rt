//! References that stay in a folder, for who passes them on to a file system or another server.
//!
//! What is passed on is the suffix of what was resolved, never the text that was tested: of
//! `http://h/docs//../admin/s`, which as a text is below `http://h/docs`, a server that merges
//! slashes makes `/admin/s`.
ghost use Rattle.std.specs.Prelude.{◌≡◌, IfOk, option_map};
ghost use Rattle.iref.specs.{Components.{text_of}, NormalList.{normal_segments}, Paths.{path_value}};
ghost use Rattle.iref.specs.References.{reference_value};
ghost use Rattle.iref_examples.specs.Inside.{are_safe, inside, is_dots, is_safe_decoded, is_safe_segment};

use iref::Memory;
use iref::uri::{Path, PathBuf, Segment, Uri, UriRef};
use iref_parse::cut::cut_bytes;
use std::alloc::Global;

// Whether a name is empty or a dot segment.
fn is_dots(name: &[u8]) -> bool
    ensures { result ≡ is_dots name.now }
{
    matches!(name, [] | [b'.'] | [b'.', b'.'])
}

// Whether what a segment decodes to is the name of a file or a folder, and no way to another.
fn is_safe_decoded(decoded: &[u8]) -> bool
    ensures { result ≡ is_safe_decoded decoded.now }
{
    let dots = is_dots(cut_bytes(decoded, b';').0);
    let slash = decoded.contains(&b'/');
    let backslash = decoded.contains(&b'\\');
    let zero = decoded.contains(&0);
    !(dots || slash || backslash || zero)
}

/// Whether a segment may be passed on: `a..b` and `a%20b` may. An empty one may not, nor one that
/// decodes, up to its first `;`, to nothing, `.` or `..`, as `..;x`, and none with an escaped `/`,
/// `\` or 0 (RFC 3986 sections 2.1 and 3.3). It is decoded once: `%252E` may be passed on to who
/// decodes once. Out of memory, it returns `Memory`.
pub fn is_safe_segment(alloc: Global, segment: Segment<'_>) -> Result<bool, Memory>
    ensures { IfOk result (λ safe. safe ≡ is_safe_segment (text_of segment.entry)) }
{
    let decoded = segment.as_pct_str().bytes().into_cow(alloc)?;
    Ok(is_safe_decoded(decoded.as_slice()))
}

// Whether each of the path's normal segments is safe, but for an empty one at the end.
fn are_safe(alloc: Global, path: Path<'_>) -> Result<bool, Memory>
    ensures { IfOk result (λ safe. safe ≡ are_safe (normal_segments (path_value path.entry))) }
{
    let mut closed = false;
    for segment in path.normalized_segments() {
        if closed {
            return Ok(false);
        }
        if segment.is_empty() {
            closed = true;
        } else if !is_safe_segment(alloc, segment)? {
            return Ok(false);
        }
    }
    Ok(true)
}

/// The path from a folder to what the reference resolves to against the base, if that is the folder
/// or below it and each segment is safe: of `b/../a?q` in `http://h/docs/` as the base it is `a`
/// for the folder `http://h/docs`. An empty segment may end it: of `/docs/a/` it is `a/`. Before a
/// first segment with a colon it has the guard of RFC 3986 section 4.2, `./`. None where it is not
/// below the folder, as `../x`, or a segment is not safe. Out of memory, it returns `Memory`.
pub fn inside(
    alloc: Global,
    folder: Uri<'_>,
    base: Uri<'_>,
    reference: UriRef<'_>,
) -> Result<Option<PathBuf>, Memory>
    ensures { IfOk result (λ path. option_map text_of path ≡ inside
        (reference_value folder.entry) (reference_value base.entry)
        (reference_value reference.entry)) }
{
    let target = reference.resolved(alloc, base)?;
    let Some((path, _, _)) = target.suffix(alloc, folder.as_uri_ref())? else {
        return Ok(None);
    };
    if are_safe(alloc, path.as_path())? {
        Ok(Some(path))
    } else {
        Ok(None)
    }
}
