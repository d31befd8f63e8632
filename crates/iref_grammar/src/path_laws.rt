//! Laws of paths: each is the contract of a function that does nothing.
#![tactic(auto)]

ghost use Rattle.std.specs.{Prelude.{◌≡◌, ◌↔◌, Bool, true, false}, List.{list_all}};
ghost use Rattle.iref_grammar.specs.declared.context.PathContext.{PathContext};
ghost use Rattle.iref_grammar.specs.Rules.{Text, ◌or◌, Empty, AcceptsExactly};
ghost use Rattle.iref_grammar.specs.Grammar.{IsAbEmptyPath, IsAbsolutePath, IsRootlessPath};
ghost use Rattle.iref_grammar.specs.{Grammar.{IsNoSchemePath}, Tests.{is_segment, is_path}};
ghost use Rattle.iref_grammar.specs.PathValue.{PathValue, IsReadAs, spell_path, read_path};
ghost use Rattle.iref_grammar.specs.Contexts.{is_readable_path, is_path_in, alone};

use crate::chars::CharSet;

/// A text is in the rule `path` exactly if each segment that is read from it is in the rule
/// `segment`.
pub fn path_segments_tested<S: CharSet>()
    ensures { (bytes : Text)
        → is_path S.tests bytes ≡ list_all (is_segment S.tests) (read_path bytes).segments }
{}

/// Every text is read as one path, which is the one that is computed.
pub fn path_reading()
    ensures { (text : Text) (p : PathValue) → IsReadAs text p ↔ (read_path text ≡ p) }
{}

/// A readable path is the one that is read from its text, which is one of a path in the context.
pub fn readable_paths_are_read_back<S: CharSet>()
    ensures value { (context : PathContext) (p : PathValue)
        → is_readable_path S.tests context p ≡ true → read_path (spell_path p) ≡ p }
    ensures text { (context : PathContext) (p : PathValue)
        → is_readable_path S.tests context p ≡ true
        → is_path_in S.tests context (spell_path p) ≡ true }
{}

/// A path that may follow an authority is one of the rule `path-abempty`. One that may follow a
/// scheme is one of `path-absolute`, `path-rootless` and `path-empty`, and one that may stand alone
/// is one of `path-absolute`, `path-noscheme` and `path-empty`.
pub fn path_context_grammar<S: CharSet>()
    ensures after_authority { (has_scheme : Bool) → AcceptsExactly
        (is_path_in S.tests (record { has_scheme = has_scheme; has_authority = true }))
        (IsAbEmptyPath S.tests) }
    ensures after_scheme { AcceptsExactly
        (is_path_in S.tests (record { has_scheme = true; has_authority = false }))
        (IsAbsolutePath S.tests or IsRootlessPath S.tests or Empty) }
    ensures alone { AcceptsExactly (is_path_in S.tests alone)
        (IsAbsolutePath S.tests or IsNoSchemePath S.tests or Empty) }
{}
