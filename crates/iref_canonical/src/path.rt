//! The path of the canonical text of a reference (RFC 3986 sections 6.2.2.2 and
//! 6.2.2.3), or of the text that is hashed.
ghost use Rattle.std.specs.Prelude.{Bool, ◌≡◌, ◌-◌, ◌<◌, ◌≤◌, ◌^◌, ◌++◌, ◌∷◌, [], length, map, true, if◌then◌else◌};
ghost use Rattle.std.specs.{Char.{char_set_contains}, List.{join_with_byte}};
ghost use Rattle.percent_encoding.specs.Percent.{percent_decode};
ghost use Rattle.iref_grammar.specs.{Grammar.{colon, slash}, PathValue.{read_path, spell_path}, Texts.{is_empty}};
ghost use Rattle.iref_grammar.specs.{Guard.{guarded}, NormalList.{is_dot, is_dot_dot}, PathKey.{path_key}};
ghost use Rattle.iref_path.specs.{NormalItems.{IsSound, decoded_left, normal_left}, Spelling.{each_closed}};
ghost use Rattle.iref_canonical.specs.{Canonical.{spelled_name, spelled_path}, SpelledItems.{IsCounted}};
ghost use Rattle.iref_canonical.specs.KeptPaths.{IsReady, canonical_path_text, is_kept_path, is_rooted, rooted_text};
ghost use Rattle.iref_canonical.specs.SpelledItems.{begins_as_dots, spelled_item, spelled_items};
ghost use Rattle.iref_canonical.specs.SpelledItems.{spelled_path_text, standing_of};

use crate::encoded::{SEGMENT, put_encoded, split_last_decoded};
use iref_grammar::context::PathContext;
use iref_parse::decoded::decoded_eq;
use iref_parse::dots::has_dots;
use iref_parse::unescaped::has_path_bytes;
use iref_path::normal_items::rooted::RootedItems;
use iref_path::normal_items::{NormalItems, survey_items};
use iref_path::segments::split_root;
use iref_path::spell::guard_in;
use iref_splice::backward::Backward;

/// A canonical path that is spelled anew, item by item.
#[derive(Clone, Copy)]
pub struct SpelledPath<'a> {
    // What stands before the items.
    guard: &'static str,
    items: NormalItems<'a>,
    count: usize,
    // How many `..` stand first.
    standing: usize,
}

// Whether the text decodes to `.`.
#[tactic(auto, unfolding(percent_encoding::specs::Percent::percent_decode))]
fn decodes_to_dot(text: &str) -> bool
    ensures { result ≡ is_dot (percent_decode text.now) }
{
    decoded_eq(text, ".")
}

// Whether the text decodes to `..`.
#[tactic(auto, unfolding(percent_encoding::specs::Percent::percent_decode))]
fn decodes_to_dots(text: &str) -> bool
    ensures { result ≡ is_dot_dot (percent_decode text.now) }
{
    decoded_eq(text, "..")
}

// Whether the text decodes to bytes among which is a `:`.
fn decodes_to_colon(text: &str) -> bool
    ensures { result ≡ char_set_contains (percent_decode text.now) colon }
{
    let mut rest = text.as_bytes();
    while let Some((front, byte)) = split_last_decoded(rest) {
        if byte == b':' {
            return true;
        }
        rest = front;
    }
    false
}

// How many items of a relative list are `..` that stand first, not the last item among them.
#[tactic(auto, using(crate::proofs::SpelledItemLemmas::stands, std::proofs::lemmas::Grind::common_steps))]
fn count_standing(mut left: NormalItems<'_>) -> usize
    requires sound { IsSound left }
    requires countable { length (normal_left left) < 2 ^ 64 }
    ensures { result ≡ standing_of (decoded_left left.entry) }
{
    if left.next_back().is_none() {
        return 0;
    }
    let mut standing = 0;
    while let Some(item) = left.next_back() {
        standing = if decodes_to_dots(item) {
            standing + 1
        } else {
            0
        };
    }
    standing
}

// How many items of a list stand.
fn count_standing_in(absolute: bool, left: NormalItems<'_>) -> usize
    requires sound { IsSound left }
    requires countable { length (normal_left left) < 2 ^ 64 }
    ensures { result ≡ (if absolute then 0 else standing_of (decoded_left left.entry)) }
{
    if absolute { 0 } else { count_standing(left) }
}

// A text that is empty, or has a `:`, exactly if what the item decodes to is or has.
#[tactic(auto, using(crate::proofs::ColonLemmas::samples))]
fn sample(item: &str) -> &'static str
    ensures empty { is_empty result.now ≡ is_empty (percent_decode item.now) }
    ensures colon { char_set_contains result.now colon
        ≡ char_set_contains (percent_decode item.now) colon }
{
    if item.is_empty() {
        ""
    } else if decodes_to_colon(item) {
        ":"
    } else {
        "."
    }
}

// Whether the first byte is `.`, or may be that of its escape.
#[inline(always)]
fn begins_as_dots(item: &str) -> bool
    ensures { result ≡ begins_as_dots item.now }
{
    match item.as_bytes() {
        [first, ..] => *first == b'.' || *first == b'%',
        [] => false,
    }
}

// Puts an item that does not stand. One of more than six bytes does not decode to dots.
#[tactic(auto, using(crate::proofs::SetLemmas::sets, crate::proofs::EncodedLemmas::spared, crate::proofs::LongNameLemmas::no_dots))]
fn put_name<O: Backward>(out: &mut O, raw: bool, item: &str)
    requires { O.fits out.old (spelled_name raw (percent_decode item.now)) }
    ensures { out.new ≡ O.after out.old (spelled_name raw (percent_decode item.now)) }
{
    if item.len() > 6 || !begins_as_dots(item) {
        put_encoded(out, raw, SEGMENT, item);
    } else if decodes_to_dot(item) {
        out.put(b"%2E");
    } else if decodes_to_dots(item) {
        out.put(b"%2E%2E");
    } else {
        put_encoded(out, raw, SEGMENT, item);
    }
}

// Puts an item, which may be a `..` that stands.
fn put_item<O: Backward>(out: &mut O, raw: bool, item: &str, stands: bool)
    requires { O.fits out.old (spelled_item raw stands (percent_decode item.now)) }
    ensures { out.new ≡ O.after out.old (spelled_item raw stands (percent_decode item.now)) }
{
    if stands {
        out.put(b"..");
    } else {
        put_name(out, raw, item);
    }
}

// Puts an item and a `/` after it.
fn put_closed_item<O: Backward>(out: &mut O, raw: bool, item: &str, stands: bool)
    requires { O.fits out.old (spelled_item raw stands (percent_decode item.now) ++ slash ∷ []) }
    ensures { out.new ≡ O.after out.old
        (spelled_item raw stands (percent_decode item.now) ++ slash ∷ []) }
{
    out.put(b"/");
    put_item(out, raw, item, stands);
}

// Puts the items, each with a `/` after it.
#[tactic(auto, using(crate::proofs::SpelledItemLemmas::steps))]
fn put_closed<O: Backward>(
    out: &mut O,
    raw: bool,
    mut left: NormalItems<'_>,
    count: usize,
    standing: usize,
)
    requires sound { IsSound left }
    requires count { count ≡ length (normal_left left) }
    requires fits { O.fits out.old (each_closed (spelled_items raw standing (decoded_left left))) }
    ensures { out.new ≡ O.after out.old
        (each_closed (spelled_items raw standing (decoded_left left.entry))) }
{
    let mut at = count;
    while let Some(item) = left.next_back() {
        at -= 1;
        put_closed_item(out, raw, item, at < standing);
    }
}

// Puts the items with `/` between. The last one does not stand.
#[tactic(auto, using(crate::proofs::SpelledItemLemmas::steps))]
fn put_items<O: Backward>(
    out: &mut O,
    raw: bool,
    mut left: NormalItems<'_>,
    count: usize,
    standing: usize,
)
    requires sound { IsSound left }
    requires count { count ≡ length (normal_left left) }
    requires standing { standing ≤ count - 1 }
    requires fits { O.fits out.old
        (join_with_byte slash (spelled_items raw standing (decoded_left left))) }
    ensures { out.new ≡ O.after out.old
        (join_with_byte slash (spelled_items raw standing (decoded_left left.entry))) }
{
    if let Some(last) = left.next_back() {
        put_name(out, raw, last);
        put_closed(out, raw, left, count - 1, standing);
    }
}

// Puts the items of an absolute path, each with a `/` after it.
#[tactic(auto, using(crate::proofs::SpelledItemLemmas::names))]
fn put_closed_names<O: Backward>(out: &mut O, raw: bool, mut left: RootedItems<'_>)
    requires { O.fits out.old (each_closed (spelled_items raw 0 (map percent_decode left))) }
    ensures { out.new ≡ O.after out.old
        (each_closed (spelled_items raw 0 (map percent_decode left.entry))) }
{
    while let Some(item) = left.next_back() {
        put_closed_item(out, raw, item, false);
    }
}

// Puts the items of an absolute path with `/` between.
#[tactic(auto, using(crate::proofs::SpelledItemLemmas::names))]
fn put_names<O: Backward>(out: &mut O, raw: bool, mut left: RootedItems<'_>)
    requires { O.fits out.old
        (join_with_byte slash (spelled_items raw 0 (map percent_decode left))) }
    ensures { out.new ≡ O.after out.old
        (join_with_byte slash (spelled_items raw 0 (map percent_decode left.entry))) }
{
    if let Some(last) = left.next_back() {
        put_name(out, raw, last);
        put_closed_names(out, raw, left);
    }
}

// Puts an absolute path, which stands behind an authority and so needs no guard.
fn put_rooted<O: Backward>(out: &mut O, raw: bool, path: &str)
    requires absolute { (read_path path.now).absolute ≡ true }
    requires fits { O.fits out.old (rooted_text raw path.now) }
    ensures { out.new ≡ O.after out.old (rooted_text raw path.now) }
{
    put_names(out, raw, RootedItems::new(split_root(path).1));
    out.put(b"/");
}

impl<'a> SpelledPath<'a> {
    // The path of a key's text in its context, whether bytes beyond ASCII stand raw in it or not.
    fn new(context: PathContext, path: &'a str) -> Self
        ensures text { (raw : Bool) → spelled_path_text raw result
            ≡ spell_path (guarded context (spelled_path raw (path_key (read_path path.now)))) }
        ensures counted { IsCounted result }
    {
        let (absolute, segments) = split_root(path);
        let all = survey_items(absolute, None, segments);
        let count = all.items.len();
        let guard = guard_in(context, absolute, count, sample(all.first));
        let standing = count_standing_in(absolute, all.items);
        SpelledPath {
            guard,
            items: all.items,
            count,
            standing,
        }
    }

    // Puts the path.
    #[tactic(auto, unfolding(crate::specs::SpelledItems::spelled_path_text))]
    fn put<O: Backward>(&self, out: &mut O, raw: bool)
        requires counted { IsCounted self.now }
        requires fits { O.fits out.old (spelled_path_text raw self.now) }
        ensures { out.new ≡ O.after out.old (spelled_path_text raw self.now) }
    {
        put_items(out, raw, self.items, self.count, self.standing);
        out.put(self.guard.as_bytes());
    }
}

/// The path of a key's text, not written yet.
#[derive(Clone, Copy)]
pub enum CanonicalPath<'a> {
    /// It stands as it is.
    Kept(&'a str),
    /// It is absolute and behind an authority: no guard is needed, so nothing is counted.
    Rooted(&'a str),
    /// It is counted, and spelled anew.
    Spelled(SpelledPath<'a>),
}

// Whether the path begins with a `/`, and no other follows that.
#[inline(always)]
fn is_rooted(path: &[u8]) -> bool
    ensures { result ≡ is_rooted path.now }
{
    match path {
        [first, second, ..] => *first == b'/' && *second != b'/',
        [first] => *first == b'/',
        [] => false,
    }
}

// Whether one scan finds that the path stands, as that of `http://a/b` does.
#[inline(always)]
fn is_kept_path(path: &str) -> bool
    ensures { result ≡ is_kept_path path.now }
{
    is_rooted(path.as_bytes()) && has_path_bytes(path.as_bytes()) && !has_dots(path.as_bytes())
}

impl<'a> CanonicalPath<'a> {
    /// The path of a key's text in its context.
    #[tactic(auto, using(crate::proofs::KeptPathLemmas::kept, crate::proofs::RootedPathLemmas::rooted))]
    pub fn new(raw: bool, context: PathContext, path: &'a str) -> Self
        ensures text { canonical_path_text raw result
            ≡ spell_path (guarded context (spelled_path raw (path_key (read_path path.now)))) }
        ensures ready { IsReady result }
    {
        if is_kept_path(path) {
            CanonicalPath::Kept(path)
        } else if context.has_authority && split_root(path).0 {
            CanonicalPath::Rooted(path)
        } else {
            CanonicalPath::Spelled(SpelledPath::new(context, path))
        }
    }

    /// Puts the path.
    pub(crate) fn put<O: Backward>(&self, out: &mut O, raw: bool)
        requires ready { IsReady self.now }
        requires fits { O.fits out.old (canonical_path_text raw self.now) }
        ensures { out.new ≡ O.after out.old (canonical_path_text raw self.now) }
    {
        match self {
            CanonicalPath::Kept(path) => out.put(path.as_bytes()),
            CanonicalPath::Rooted(path) => put_rooted(out, raw, path),
            CanonicalPath::Spelled(path) => path.put(out, raw),
        }
    }
}
