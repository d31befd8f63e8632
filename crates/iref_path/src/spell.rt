//! The text of a normalized path, which is measured and written from its end (RFC 3986 section
//! 5.2.4).

ghost use Rattle.std.specs.Prelude.{◌≡◌, ◌+◌, ◌-◌, ◌<◌, ◌≤◌, ◌^◌, ◌||◌, ◌&&◌, ◌==◌, ◌++◌, ◌∷◌, true, [], codes, length};
ghost use Rattle.std.specs.{Prelude.{replicate, IfOk, OnErr, OnOk}, List.{join_with_byte, list_any}};
ghost use Rattle.std.specs.String.{string_bytes};
ghost use Rattle.iref_grammar.specs.{is_path_in, colon, slash, read_path, spell_path, is_path};
ghost use Rattle.iref_grammar.specs.PathSteps.{normalized};
ghost use Rattle.iref_path.specs.{PathParts.{is_path_after}, NormalItems.{first_or, IsSound, normal_left}};
ghost use Rattle.iref_path.specs.{Spelling.{each_closed, normal_in}, Stacks.{IsStacked, in_order, stacked_text}};
ghost use Rattle.iref_path.specs.Spelling as spelling;

use crate::measured::MeasuredPath;
use crate::normal_items::NormalItems;
use crate::normal_items::stack::Stack;
use crate::segments::split_root;
use iref_grammar::chars::CharSet;
use iref_grammar::context::PathContext;
use iref_parse::dots::has_dots;
use iref_splice::Memory;
use iref_splice::backward::Backward;
use iref_splice::unwritten::Unwritten;
use std::alloc::Global;

/// How many bytes the items have with a `/` after each, and the first of them, or nothing.
pub(crate) fn measure(mut left: NormalItems<'_>) -> (usize, &str)
    requires sound { IsSound left }
    requires fits { length (each_closed (normal_left left)) < 2 ^ 64 }
    ensures size { result.0 ≡ length (each_closed (normal_left left.entry)) }
    ensures first { result.1.now ≡ first_or [] (normal_left left.entry) }
{
    let mut size: usize = 0;
    let mut first = "";
    while let Some(item) = left.next_back() {
        size += item.len() + 1;
        first = item;
    }
    (size, first)
}

/// Puts a segment and a `/` after it.
#[inline(always)]
pub(crate) fn put_segment<O: Backward>(out: &mut O, segment: &str)
    requires { O.fits out.old (segment.now ++ slash ∷ []) }
    ensures { out.new ≡ O.after out.old (segment.now ++ slash ∷ []) }
{
    out.put(b"/");
    out.put(segment.as_bytes());
}

/// Puts `..` this many times, with a `/` after each.
#[tactic(auto, using(crate::proofs::SpellLemmas::parents_left))]
pub(crate) fn put_parents<O: Backward>(out: &mut O, count: usize)
    requires { O.fits out.old (each_closed (replicate count (codes ".."))) }
    ensures { out.new ≡ O.after out.old (each_closed (replicate count (codes ".."))) }
{
    for _ in 0..count {
        out.put(b"../");
    }
}

// Puts the items, each with a `/` after it.
#[tactic(auto, using(crate::proofs::SpellLemmas::lasts))]
fn put_closed<O: Backward>(out: &mut O, mut left: NormalItems<'_>)
    requires sound { IsSound left }
    requires fits { O.fits out.old (each_closed (normal_left left)) }
    ensures { out.new ≡ O.after out.old (each_closed (normal_left left.entry)) }
{
    while let Some(item) = left.next_back() {
        put_segment(out, item);
    }
}

/// Puts the items with `/` between.
#[tactic(auto, using(crate::proofs::SpellLemmas::lasts))]
pub(crate) fn put_items<O: Backward>(out: &mut O, mut left: NormalItems<'_>)
    requires sound { IsSound left }
    requires fits { O.fits out.old (join_with_byte slash (normal_left left)) }
    ensures { out.new ≡ O.after out.old (join_with_byte slash (normal_left left.entry)) }
{
    if let Some(last) = left.next_back() {
        out.put(last.as_bytes());
        put_closed(out, left);
    }
}

// Whether the text holds a `:`.
#[inline]
fn has_colon(text: &str) -> bool
    ensures { result ≡ list_any (λ c. c == colon) text.now }
{
    text.bytes().any(|byte| byte == b':')
}

/// Whether a first segment needs `./` before it. An empty one would not show. One with a `:` would be
/// read as a scheme, unless a root or a scheme stands before it.
pub(crate) fn first_needs_guard(context: PathContext, rooted: bool, segment: &str) -> bool
    ensures { result ≡ spelling.first_needs_guard context rooted segment.now }
{
    let after_mark = rooted | context.has_scheme;
    segment.is_empty() || !after_mark && has_colon(segment)
}

/// A root, and the segment `.` with its `/`, each where its flag says so.
pub(crate) fn guard(rooted: bool, dotted: bool) -> &'static str
    ensures { result.now ≡ spelling.guard rooted dotted }
{
    match (rooted, dotted) {
        (true, true) => "/./",
        (true, false) => "/",
        (false, true) => "./",
        (false, false) => "",
    }
}

/// What guards a list in its context. The list takes `size` bytes with a `/` after each item, and
/// begins with the segment `first`. After an authority, a list that has items is absolute.
pub fn guard_in(context: PathContext, absolute: bool, size: usize, first: &str) -> &'static str
    ensures text { result.now ≡ spelling.guard_in context absolute size first.now }
    ensures short { length result.now ≤ 3 }
{
    if size == 0 {
        return guard(absolute, false);
    }
    let rooted = absolute || context.has_authority;
    let dotted = !context.has_authority && first_needs_guard(context, absolute, first);
    guard(rooted, dotted)
}

// Puts items that are given the last first, each with a `/` after it.
#[tactic(auto, using(crate::proofs::StackLemmas::stacked_lasts))]
fn put_stacked_closed<O: Backward>(out: &mut O, items: &[&str])
    requires { O.fits out.old (each_closed (in_order items.now)) }
    ensures { out.new ≡ O.after out.old (each_closed (in_order items.entry.now)) }
{
    for item in items {
        put_segment(out, item);
    }
}

// Puts items that are given the last first, with `/` between.
#[tactic(auto, using(crate::proofs::StackLemmas::stacked_lasts))]
fn put_stacked<O: Backward>(out: &mut O, items: &[&str])
    requires { O.fits out.old (join_with_byte slash (in_order items.now)) }
    ensures { out.new ≡ O.after out.old (join_with_byte slash (in_order items.now)) }
{
    if let Some((last, others)) = items.split_first() {
        out.put(last.as_bytes());
        put_stacked_closed(out, others);
    }
}

impl Unwritten for Stack<'_> {
    ghost text = { stacked_text };

    ghost is_sound = { IsStacked };

    #[tactic(auto, using(crate::proofs::SpellLemmas::stacked_sizes), unfolding(crate::specs::Stacks::stacked_text))]
    fn put<O: Backward>(&self, out: &mut O) {
        if !out.put_len(self.guard.len() + self.size.saturating_sub(1)) {
            put_stacked(out, self.items.as_slice());
            out.put(self.guard.as_bytes());
        }
    }
}

// The longest path, in bytes, whose items may take memory while it is read.
const LONGEST_STACKED: usize = 16_384;

// The bytes of the normalized path in its context, taken as absolute or relative by a flag. A path
// with dots of at most `LONGEST_STACKED` bytes is read once, onto a stack. A longer one is read twice,
// and so is one that gets no memory for the stack.
fn normal_bytes(
    alloc: Global,
    context: PathContext,
    absolute: bool,
    path: &str,
) -> Result<Vec<u8>, Memory>
    ensures { IfOk result (λ bytes.
        bytes.items ≡ spell_path (normal_in context absolute path.now)) }
{
    let segments = split_root(path).1;
    if path.len() <= LONGEST_STACKED && has_dots(path.as_bytes()) {
        let mut stack = Stack::new(alloc);
        stack.read(absolute, segments);
        if stack.is_whole {
            stack.guard = guard_in(context, absolute, stack.size, stack.first);
            return stack.to_bytes(alloc);
        }
    }
    MeasuredPath::of_segments(context, absolute, None, segments).to_bytes(alloc)
}

/// The text of the normalized path in its context (RFC 3986 section 5.2.4). A flag says whether it is
/// absolute, whatever it begins with.
///
/// After an authority `//b/.` becomes `//b/`, and `../b` that is to be absolute `/b`; standing
/// alone, `a/../b:c` becomes `./b:c`. The room is taken once; out of memory, it returns an `Err`.
pub fn normalized_text<C: CharSet>(
    alloc: Global,
    context: PathContext,
    absolute: bool,
    path: &str,
) -> Result<String, Memory>
    requires { is_path C.tests path.now ≡ true }
    ensures text { IfOk result (λ text.
        string_bytes text ≡ spell_path (normal_in context absolute path.now)) }
    ensures value { IfOk result (λ text.
        read_path (string_bytes text) ≡ normal_in context absolute path.now) }
    ensures reads { IfOk result (λ text. is_path_in C.tests context (string_bytes text) ≡ true) }
    ensures after { IfOk result (λ text. is_path_after C.tests context (string_bytes text) ≡ true) }
{
    let bytes = normal_bytes(alloc, context, absolute, path)?;
    // What spells a path is text, so no byte is read again.
    let text = unsafe { String::from_utf8_unchecked(bytes) };
    Ok(text)
}

/// Appends the text of the normalized path in its context to a vector (RFC 3986 section 5.2.4).
/// The room is taken once.
pub fn append_normalized(context: PathContext, path: &str, out: &mut Vec<u8>) -> Result<(), Memory>
    ensures ok { OnOk result (out.new.items
        ≡ out.old.items ++ spell_path (normalized context (read_path path.now))) }
    ensures err { OnErr result (out.new.items ≡ out.old.items) }
{
    MeasuredPath::normalized(context, path).append_to(out)
}
