//! Laws of paths: each is the contract of a function that does nothing.
#![tactic(auto, using(crate::proofs::PathLawLemmas::laws))]

ghost use Rattle.std.specs.{Prelude.{◌≡◌, Bool, true, ◌==◌, List, [], ◌↔◌}, List.{list_all}};
ghost use Rattle.iref_grammar.specs.declared.context.PathContext.{PathContext};
ghost use Rattle.iref_grammar.specs.{CharTests, alone, follows_authority, fits, is_readable_path, slash, spell_path};
ghost use Rattle.iref_grammar.specs.{read_path, shows_its_list, Text, is_segment, lacks, PathValue.{PathValue}};
ghost use Rattle.iref_grammar.specs.Guard.{guarded, guarded_list};
ghost use Rattle.iref_grammar.specs.NormalList.{stays_before, excess, open_parents, normal, normal_segments};
ghost use Rattle.iref_grammar.specs.NormalReading.{NormalRest, items_left, whole_rest, first_left};
ghost use Rattle.iref_grammar.specs.NormalReading.{last_left, GivesFirst, GivesLast};
ghost use Rattle.iref_grammar.specs.PathFunctions.{directory, directory_text};
ghost use Rattle.iref_grammar.specs.PathSteps.{lazy_pushed, pushed, popped, appended, lazy_appended};
ghost use Rattle.iref_grammar.specs.{PathSteps.{joined, replaced, normalized, cleared}, PathKey.{path_key}};
ghost use Rattle.iref_grammar.specs.Readability.{KeepsPathsReadable};
ghost use Rattle.iref_grammar.specs.DotSegments.{RemovesDotSegments, dot_segments_removed};
ghost use Rattle.iref_grammar.specs.CountedEquality.{IsCountedAnswer, paths_compared, segments_read};

/// The directory of a path is its text up to and with the last `/`.
pub fn directory_is_all_up_to_the_last_slash()
    ensures text { (text : Text) → spell_path (directory (read_path text)) ≡ directory_text text }
    ensures value { (text : Text) → read_path (directory_text text) ≡ directory (read_path text) }
{}

/// A guarded path is read back as it stands; and a guarded list shows in its spelling.
pub fn guarded_paths_are_readable()
    ensures context { (context : PathContext) (p : PathValue)
        → fits context (guarded context p) ≡ true }
    ensures list { (p : PathValue) → shows_its_list (guarded_list p) ≡ true }
{}

/// Each step of a path keeps it readable in its context.
pub fn path_steps_keep_paths_readable()
    ensures lazy_push { (set : CharTests) (s : Text) → is_segment set s ≡ true
        → KeepsPathsReadable set (λ context. lazy_pushed context s) }
    ensures push { (set : CharTests) (s : Text) → is_segment set s ≡ true
        → KeepsPathsReadable set (λ context. pushed context s) }
    ensures pop { (set : CharTests) → KeepsPathsReadable set popped }
    ensures append { (set : CharTests) (items : List Text) → list_all (is_segment set) items ≡ true
        → KeepsPathsReadable set (λ context. appended context items) }
    ensures lazy_append { (set : CharTests) (items : List Text)
        → list_all (is_segment set) items ≡ true
        → KeepsPathsReadable set (λ context. lazy_appended context items) }
    ensures join { (set : CharTests) (new : PathValue)
        → list_all (is_segment set) new.segments ≡ true
        → KeepsPathsReadable set (λ context. joined context new) }
    ensures replace { (set : CharTests) (context : PathContext) (new p : PathValue)
        → list_all (is_segment set) new.segments ≡ true
        → is_readable_path set context (replaced context new p) ≡ true }
    ensures normalize { (set : CharTests) (context : PathContext) (p : PathValue)
        → list_all (is_segment set) p.segments ≡ true
        → is_readable_path set context (normalized context p) ≡ true }
    ensures clear { (set : CharTests) → KeepsPathsReadable set (λ context. cleared) }
{}

/// Whether a name stays, and the excess, are one count of open `..` from the back.
pub fn names_that_stay_are_counted_from_the_back()
    ensures names { (rest : List Text) → stays_before rest ≡ (open_parents rest == 0) }
    ensures excess { (segments : List Text) → excess segments ≡ open_parents segments }
{}

/// To normalize twice is to normalize once.
pub fn normalizing_again_changes_nothing()
    ensures normal { (p : PathValue) → normal (normal p) ≡ normal p }
    ensures guarded { (context : PathContext) (p : PathValue) → follows_authority context p ≡ true
        → normal (guarded context (normal p)) ≡ normal p }
    ensures path { (context : PathContext) (p : PathValue) → follows_authority context p ≡ true
        → normalized context (normalized context p) ≡ normalized context p }
{}

/// What is normalized is equal to what it was.
pub fn normalizing_keeps_the_key()
    ensures { (p : PathValue) → path_key (normalized alone p) ≡ path_key p }
{}

/// Normalizing an absolute path under an authority leaves what `remove_dot_segments` leaves of its
/// text (RFC 3986 section 5.2.4).
pub fn normalizing_removes_dot_segments()
    ensures path { (context : PathContext) (p : PathValue) → context.has_authority ≡ true
        → p.absolute ≡ true → list_all (lacks slash) p.segments ≡ true
        → RemovesDotSegments (spell_path p) [] (spell_path (normalized context p)) }
    ensures computed { (has_scheme : Bool) (segments : List Text)
        → list_all (lacks slash) segments ≡ true
        → let p : PathValue = record { absolute = true; segments = segments } in
        let context : PathContext = record { has_scheme = has_scheme; has_authority = true } in
        dot_segments_removed (spell_path p) ≡ spell_path (normalized context p) }
    ensures one { (input output left other : Text) → RemovesDotSegments input output left
        → RemovesDotSegments input output other → left ≡ other }
{}

/// Items taken from the front and the back of what is left of a normal list, in any order, are the
/// normal list.
pub fn reading_from_both_ends_gives_the_normal_list()
    ensures whole { (p : PathValue) → items_left (whole_rest p) ≡ normal_segments p }
    ensures first { (rest : NormalRest) → GivesFirst (items_left rest) (first_left rest) }
    ensures last { (rest : NormalRest) → GivesLast (items_left rest) (last_left rest) }
{}

/// The comparison from the back returns whether two paths are equal, and what it has read of both
/// decides it.
pub fn comparison_from_the_back_decides()
    ensures counted { (p q : PathValue)
        → IsCountedAnswer p q (paths_compared p q).equal (segments_read p q) }
    ensures equal { (p q : PathValue)
        → ((paths_compared p q).equal ≡ true) ↔ (path_key p ≡ path_key q) }
{}
