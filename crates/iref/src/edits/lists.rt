//! Edits of a list, one after the other, up to the first that cannot be done.
ghost use Rattle.std.specs.Prelude.{◌≡◌, ◌≤◌, ◌<◌, true, length, map, take, IfNone, IfOk, IfSome, OnOk};
ghost use Rattle.iref_grammar.specs.Edits.{edited, edited_uri};
ghost use Rattle.iref_component.specs.{with_fragment, with_query};
ghost use Rattle.iref_reference.specs.References.{reference_buf_text, reference_buf_value};
ghost use Rattle.iref.specs.EditAnswers.{AppliesEdit, AppliesTo, AreDone, HasNormalPath, StopsAt, edited_in};
ghost use Rattle.iref.specs.EditAnswers.{is_normal_after, keeps_query_and_fragment};
ghost use Rattle.iref.specs.EditSteps.{AppliesList, all_keep_query_and_fragment, edit_step};

use crate::edits::parts::{edit_authority, edit_path};
use crate::edits::schemes::SetsScheme;
use crate::edits::{Edit, EditFault};
use iref_grammar::chars::CharSet;
use iref_reference::owned::{ReferenceBuf, UriBuf, UriRefBuf};
use iref_reference::setters::{copied_hierarchy, reserve};
use iref_splice::Memory;

// A copy is taken where this many edits have changed the length, and as many follow that leave the
// query and the fragment as they are.
const MOVES: usize = 32;

// So many bytes the query and the fragment have at least then, with their delimiters.
const MIN_REST: usize = 1024;

// Fewer edits than these are done with no look at what they have in common.
const FEW: usize = 8;

/// What a list of edits returns: the number of the first that cannot be done, from 0, and why. On
/// `x`, `SetPath` with `1:2` and then `SetHost` with `h` return 1 and `NoAuthority`.
pub type Applied = Result<(), (usize, EditFault)>;

// Does one edit, or changes nothing.
#[tactic(auto, using(crate::proofs::EditListLemmas::done_in, crate::proofs::EditListLemmas::part_done_in), unfolding(iref_grammar::specs::Edits::edited))]
#[inline(always)]
fn apply<R: SetsScheme, C: CharSet>(
    reference: &mut ReferenceBuf<R, C>,
    edit: Edit<'_, C>,
) -> Result<(), EditFault>
    ensures { AppliesEdit (edited_in R.allows_scheme) (edit_step edit.entry)
        (reference_buf_text reference.old) (reference_buf_text reference.new) result }
{
    match edit {
        Edit::SetScheme(scheme) => R::set_scheme(reference, scheme),
        Edit::SetAuthority(authority) => Ok(reference.set_authority(authority)?),
        Edit::SetPath(path) => Ok(reference.set_path(path)?),
        Edit::SetAndNormalizePath(path) => Ok(reference.set_and_normalize_path(path)?),
        Edit::SetQuery(query) => Ok(reference.set_query(query)?),
        Edit::SetFragment(fragment) => Ok(reference.set_fragment(fragment)?),
        Edit::ReplaceAuthority(_)
        | Edit::SetUserInfo(_)
        | Edit::SetHost(_)
        | Edit::SetPort(_)
        | Edit::SetPortU32(_) => {
            if reference.authority().is_none() {
                return Err(EditFault::NoAuthority);
            }
            Ok(edit_authority(reference, edit)?)
        }
        Edit::LazyPush(_)
        | Edit::Push(_)
        | Edit::JoinPath(_)
        | Edit::Pop
        | Edit::Clear
        | Edit::Normalize => Ok(edit_path(reference, edit)?),
    }
}

// Whether the path is known to be normal after an edit that was done, and was or was not before it.
fn is_normal_after<C: CharSet>(edit: Edit<'_, C>, was: bool) -> bool
    ensures { result ≡ is_normal_after (edit_step edit.entry) was }
{
    match edit {
        Edit::SetAndNormalizePath(_) | Edit::Normalize => true,
        Edit::ReplaceAuthority(_)
        | Edit::SetUserInfo(_)
        | Edit::SetHost(_)
        | Edit::SetPort(_)
        | Edit::SetPortU32(_)
        | Edit::SetQuery(_)
        | Edit::SetFragment(_) => was,
        _ => false,
    }
}

// Does one edit, or changes nothing. A path that is known to be normal is not normalized again.
fn apply_next<R: SetsScheme, C: CharSet>(
    reference: &mut ReferenceBuf<R, C>,
    edit: Edit<'_, C>,
    is_normal: &mut bool,
) -> Result<(), EditFault>
    requires { is_normal.old ≡ true → HasNormalPath (reference_buf_value reference.old) }
    ensures edit { AppliesEdit (edited_in R.allows_scheme) (edit_step edit.entry)
        (reference_buf_text reference.old) (reference_buf_text reference.new) result }
    ensures normal { OnOk result (is_normal.new ≡ true
        → HasNormalPath (reference_buf_value reference.new)) }
{
    if *is_normal && matches!(edit, Edit::Normalize) {
        return Ok(());
    }
    apply(reference, edit)?;
    *is_normal = is_normal_after(edit, *is_normal);
    Ok(())
}

// What was done of some edits: how many, and why the next one cannot be done, if it cannot.
#[derive(Drop)]
struct Run {
    done: usize,
    fault: Option<EditFault>,
}

// Where edits are done.
#[derive(Clone, Copy)]
enum Mode {
    // in the reference itself, up to the edit with which `MOVES` have changed the length
    InPlace,
    // in a copy without so many bytes of query and fragment, for which it keeps room
    OnCopy(usize),
}

// Does edits, up to the first that cannot be done, or as many as the mode says.
fn apply_each<R: SetsScheme, C: CharSet>(
    reference: &mut ReferenceBuf<R, C>,
    edits: &[Edit<'_, C>],
    mode: Mode,
) -> Run
    ensures within { result.done ≤ length edits.now }
    ensures done { AreDone (edited_in R.allows_scheme)
        (take result.done (map edit_step edits.now))
        (reference_buf_value reference.old) (reference_buf_value reference.new) }
    ensures fault { IfSome result.fault (StopsAt (edited_in R.allows_scheme)
        (map edit_step edits.now) (reference_buf_value reference.old)
        (reference_buf_value reference.new) result.done) }
    ensures goes_on { IfNone result.fault (0 < length edits.now → 0 < result.done) }
{
    let mut moves = 0;
    let mut len = reference.as_str().len();
    let mut is_normal = false;
    for (i, edit) in edits.iter().enumerate() {
        if let Err(fault) = apply_next(reference, *edit, &mut is_normal) {
            let fault = Some(fault);
            return Run { done: i, fault };
        }
        if reference.as_str().len() == len {
            continue;
        }
        len = reference.as_str().len();
        moves += 1;
        match mode {
            Mode::InPlace if moves == MOVES => {
                let fault = None;
                return Run { done: i + 1, fault };
            }
            Mode::InPlace => {}
            Mode::OnCopy(rest) => {
                let _full = reserve(reference, rest);
            }
        }
    }
    Run {
        done: edits.len(),
        fault: None,
    }
}

// Whether the edit leaves the query and the fragment as they are.
fn keeps_query_and_fragment<C: CharSet>(edit: Edit<'_, C>) -> bool
    ensures { result ≡ keeps_query_and_fragment (edit_step edit.entry) }
{
    !matches!(edit, Edit::SetQuery(_) | Edit::SetFragment(_))
}

// How many edits stand before the first one of the query or of the fragment.
fn kept_len<C: CharSet>(edits: &[Edit<'_, C>]) -> usize
    ensures within { result ≤ length edits.now }
    ensures kept { all_keep_query_and_fragment (take result edits.now) ≡ true }
{
    for (i, edit) in edits.iter().enumerate() {
        if !keeps_query_and_fragment(*edit) {
            return i;
        }
    }
    edits.len()
}

// How many bytes the query and the fragment have, with their delimiters.
fn rest_len<R: SetsScheme, C: CharSet>(reference: &ReferenceBuf<R, C>) -> usize {
    let front = reference.offsets().path.end;
    reference.as_str().len().saturating_sub(front)
}

// How many of the edits are to be done on a copy of what stands before the query and the fragment:
// none, unless `MOVES` or more leave these as they are, and these are as long as what stands before.
fn copied_len<R: SetsScheme, C: CharSet>(
    reference: &ReferenceBuf<R, C>,
    edits: &[Edit<'_, C>],
) -> usize
    ensures within { result ≤ length edits.now }
    ensures kept { all_keep_query_and_fragment (take result edits.now) ≡ true }
{
    if edits.len() < MOVES {
        return 0;
    }
    let front = reference.offsets().path.end;
    if rest_len(reference) < front.max(MIN_REST) {
        return 0;
    }
    let kept = kept_len(edits);
    if kept < MOVES { 0 } else { kept }
}

// Gives a reference the query and the fragment of another.
fn set_rest<R: SetsScheme, C: CharSet>(
    front: &mut ReferenceBuf<R, C>,
    other: &ReferenceBuf<R, C>,
) -> Result<(), Memory>
    ensures { IfOk result (λ _. reference_buf_value front.new
        ≡ with_query (reference_buf_value other.now).query
        (with_fragment (reference_buf_value other.now).fragment (reference_buf_value front.old))) }
{
    front.set_query(other.query())?;
    front.set_fragment(other.fragment())
}

// Does edits on a copy of what stands before the query and the fragment, so that these move at most
// once, up to the first that cannot be done: how many are done. None is, where memory for the copy
// lacks.
fn apply_on_copy<R: SetsScheme, C: CharSet>(
    reference: &mut ReferenceBuf<R, C>,
    edits: &[Edit<'_, C>],
) -> usize
    requires { all_keep_query_and_fragment edits.now ≡ true }
    ensures within { result ≤ length edits.now }
    ensures done { AreDone (edited_in R.allows_scheme) (take result (map edit_step edits.now))
        (reference_buf_value reference.old) (reference_buf_value reference.new) }
{
    if edits.is_empty() {
        return 0;
    }
    let Ok(mut front) = copied_hierarchy(reference) else {
        return 0;
    };
    let rest = rest_len(reference);
    let run = apply_each(&mut front, edits, Mode::OnCopy(rest));
    if set_rest(&mut front, reference).is_err() {
        return 0;
    }
    *reference = front;
    run.done
}

// Does a few edits in place.
fn apply_few<R: SetsScheme, C: CharSet>(
    reference: &mut ReferenceBuf<R, C>,
    edits: &[Edit<'_, C>],
) -> Applied
    ensures { AppliesList R.allows_scheme edits.now reference.old reference.new result }
{
    for (i, edit) in edits.iter().enumerate() {
        if let Err(fault) = apply(reference, *edit) {
            return Err((i, fault));
        }
    }
    Ok(())
}

// Does the edits, in place and on copies by turns. No copy is taken any more once edits of one were
// not done.
fn apply_list<R: SetsScheme, C: CharSet>(
    reference: &mut ReferenceBuf<R, C>,
    edits: &[Edit<'_, C>],
) -> Applied
    ensures { AppliesList R.allows_scheme edits.now reference.old reference.new result }
{
    if edits.len() < FEW {
        return apply_few(reference, edits);
    }
    let mut done = 0;
    let mut may_copy = true;
    while done < edits.len() {
        let run = apply_each(reference, &edits[done..], Mode::InPlace);
        done += run.done;
        if let Some(fault) = run.fault {
            return Err((done, fault));
        }
        if may_copy && done < edits.len() {
            let len = copied_len(reference, &edits[done..]);
            let copied = apply_on_copy(reference, &edits[done..done + len]);
            may_copy = copied == len;
            done += copied;
        }
    }
    Ok(())
}

/// Does the edits one after the other: `Push` with `b` and then `SetQuery` with `x=1` turn
/// `http://h/a` into `http://h/a/b?x=1` (RFC 3986 section 3). Where 32 of them have changed the
/// length, 32 or more that leave a long query and fragment as they are may be done on a copy of the
/// text before these, if there is memory for it, and else in place.
///
/// # Errors
///
/// The number of the first edit that cannot be done, from 0, and why: those before it are done.
/// `NoAuthority` if it edits a subcomponent of an absent authority, even to remove it. `Memory` if
/// memory runs out.
#[tactic(auto, using(iref_reference_text::proofs::ReferenceTextLemmas::spelled))]
pub fn apply_all<C: CharSet>(reference: &mut UriRefBuf<C>, edits: &[Edit<'_, C>]) -> Applied
    ensures { AppliesTo edited (map edit_step edits.now) reference.old reference.new result }
{
    apply_list(reference, edits)
}

/// Does the edits of a URI (RFC 3986 section 3) as `apply_all` does: `SetQuery` with `q` turns
/// `s:x` into `s:x?q`.
///
/// # Errors
///
/// Those of `apply_all`, and `SchemeNeeded` if an edit removes the scheme.
#[tactic(auto, using(iref_reference_text::proofs::ReferenceTextLemmas::spelled))]
pub fn apply_all_uri<C: CharSet>(uri: &mut UriBuf<C>, edits: &[Edit<'_, C>]) -> Applied
    ensures { AppliesTo edited_uri (map edit_step edits.now) uri.old uri.new result }
{
    apply_list(uri, edits)
}
