//! Laws of the edits of references: each is the contract of a function that does nothing.
#![tactic(auto, using(crate::proofs::ReferenceStepLemmas::laws))]

ghost use Rattle.std.specs.{Prelude.{◌≡◌, true, List, [], Option, is_some}, List.{list_all}};
ghost use Rattle.iref_grammar.specs.{CharTests, Text, slash, is_scheme, is_segment, is_query, is_fragment, is_host};
ghost use Rattle.iref_grammar.specs.{is_user_info, is_port, none_or, lacks, AuthorityValue, has_authority_parts};
ghost use Rattle.iref_grammar.specs.{spell_path, ReferenceValue, is_readable, PathValue.{PathValue}};
ghost use Rattle.iref_grammar.specs.AuthoritySteps.{with_user_info, with_host, with_port};
ghost use Rattle.iref_grammar.specs.PathSteps.{lazy_pushed, popped, pushed, appended, lazy_appended};
ghost use Rattle.iref_grammar.specs.PathSteps.{replaced, joined, normalized, cleared};
ghost use Rattle.iref_grammar.specs.ComponentSteps.{with_scheme, with_authority, with_path, with_query};
ghost use Rattle.iref_grammar.specs.ComponentSteps.{with_fragment, with_authority_step, with_path_step};
ghost use Rattle.iref_grammar.specs.ComponentSteps.{with_normal_path, with_new_normal_path};
ghost use Rattle.iref_grammar.specs.{DotSegments.{RemovesDotSegments}, Key.{key}, Readability.{KeepsReadable}};

/// Each step of a path keeps a reference readable.
pub fn path_steps_keep_references_readable()
    ensures lazy_push { (set : CharTests) (s : Text) → is_segment set s ≡ true
        → KeepsReadable set (with_path_step (λ context. lazy_pushed context s)) }
    ensures push { (set : CharTests) (s : Text) → is_segment set s ≡ true
        → KeepsReadable set (with_path_step (λ context. pushed context s)) }
    ensures pop { (set : CharTests) → KeepsReadable set (with_path_step popped) }
    ensures append { (set : CharTests) (items : List Text) → list_all (is_segment set) items ≡ true
        → KeepsReadable set (with_path_step (λ context. appended context items)) }
    ensures lazy_append { (set : CharTests) (items : List Text)
        → list_all (is_segment set) items ≡ true
        → KeepsReadable set (with_path_step (λ context. lazy_appended context items)) }
    ensures join { (set : CharTests) (p : PathValue) → list_all (is_segment set) p.segments ≡ true
        → KeepsReadable set (with_path_step (λ context. joined context p)) }
    ensures replace { (set : CharTests) (p : PathValue)
        → list_all (is_segment set) p.segments ≡ true
        → KeepsReadable set (with_path_step (λ context. replaced context p)) }
    ensures normalize { (set : CharTests) → KeepsReadable set (with_path_step normalized) }
    ensures clear { (set : CharTests) → KeepsReadable set (with_path_step (λ context. cleared)) }
{}

/// Each setter of a component keeps a reference readable.
pub fn component_steps_keep_references_readable()
    ensures scheme { (set : CharTests) (s : Option Text) → none_or is_scheme s ≡ true
        → KeepsReadable set (with_scheme s) }
    ensures authority { (set : CharTests) (a : Option AuthorityValue)
        → none_or (has_authority_parts set) a ≡ true → KeepsReadable set (with_authority a) }
    ensures path { (set : CharTests) (p : PathValue) → list_all (is_segment set) p.segments ≡ true
        → KeepsReadable set (with_path p) }
    ensures query { (set : CharTests) (q : Option Text) → none_or (is_query set) q ≡ true
        → KeepsReadable set (with_query q) }
    ensures fragment { (set : CharTests) (f : Option Text) → none_or (is_fragment set) f ≡ true
        → KeepsReadable set (with_fragment f) }
    ensures normal_path { (set : CharTests) → KeepsReadable set with_normal_path }
    ensures new_normal_path { (set : CharTests) (p : PathValue)
        → list_all (is_segment set) p.segments ≡ true
        → KeepsReadable set (with_new_normal_path p) }
{}

/// Each edit of the authority in place, or of a part of it, keeps a reference readable.
pub fn authority_steps_keep_references_readable()
    ensures user_info { (set : CharTests) (u : Option Text) → none_or (is_user_info set) u ≡ true
        → KeepsReadable set (with_authority_step (with_user_info u)) }
    ensures host { (set : CharTests) (h : Text) → is_host set h ≡ true
        → KeepsReadable set (with_authority_step (with_host h)) }
    ensures port { (set : CharTests) (p : Option Text) → none_or is_port p ≡ true
        → KeepsReadable set (with_authority_step (with_port p)) }
    ensures whole { (set : CharTests) (a : AuthorityValue) → has_authority_parts set a ≡ true
        → KeepsReadable set (with_authority_step (λ old. a)) }
{}

/// To normalize the path of a reference twice is to normalize it once; the reference is equal to
/// what it was; and of an absolute path under an authority it leaves what `remove_dot_segments`
/// leaves of its text (RFC 3986 section 5.2.4).
pub fn normalizing_a_reference()
    ensures again { (set : CharTests) (r : ReferenceValue) → is_readable set r ≡ true
        → with_normal_path (with_normal_path r) ≡ with_normal_path r }
    ensures keeps_the_key { (set : CharTests) (r : ReferenceValue) → is_readable set r ≡ true
        → key (with_normal_path r) ≡ key r }
    ensures removes_dot_segments { (r : ReferenceValue) → is_some r.authority ≡ true
        → r.path.absolute ≡ true → list_all (lacks slash) r.path.segments ≡ true
        → RemovesDotSegments (spell_path r.path) [] (spell_path (with_normal_path r).path) }
{}
