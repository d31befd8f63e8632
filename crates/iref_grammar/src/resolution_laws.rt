//! The laws of resolution and of relative references.
#![tactic(auto, using(crate::proofs::ReadableRelativeLemmas::laws))]

ghost use Rattle.std.specs.Prelude.{◌≡◌, is_some, true, false};
ghost use Rattle.iref_grammar.specs.{CharTests, AreAboveAscii, ReferenceValue, IsReadable, is_readable, read_reference};
ghost use Rattle.iref_grammar.specs.{spell};
ghost use Rattle.iref_grammar.specs.{Resolution.{resolved}, Key.{AreAlike}, Relative.{relative_to}};
ghost use Rattle.iref_grammar.specs.RelativeLaws.{AreTargetAndBase, DoAgree, IsOnlyPath, Leads, ClimbsLeast};

/// What a readable reference resolves to under a readable base is readable.
pub fn resolved_reference_is_readable()
    ensures { (set : CharTests) (base r : ReferenceValue) → is_readable set base ≡ true
        → is_readable set r ≡ true → is_readable set (resolved base r) ≡ true }
{}

/// From the base, the answer leads where the target leads.
pub fn relative_reference_leads_to_target()
    ensures { (set : CharTests) (target base : ReferenceValue) → AreTargetAndBase set target base
        → Leads base (relative_to target base) target }
{}

/// It leads to the target itself where that has a scheme.
pub fn relative_reference_leads_to_full_target()
    ensures answer { (set : CharTests) (target base : ReferenceValue)
        → AreTargetAndBase set target base → is_some target.scheme ≡ true
        → AreAlike (resolved base (relative_to target base)) target }
    ensures target { (set : CharTests) (target base : ReferenceValue)
        → is_readable set target ≡ true → is_some target.scheme ≡ true
        → AreAlike (resolved base target) target }
{}

/// Where scheme and authority agree and the target's path begins at the root, the answer writes
/// neither, and where the base's path begins there too, the answer's does not.
pub fn relative_reference_writes_path_alone()
    ensures alone { (target base : ReferenceValue) → DoAgree target base
        → IsOnlyPath (relative_to target base) }
    ensures no_root { (target base : ReferenceValue) → DoAgree target base
        → base.path.absolute ≡ true → (relative_to target base).path.absolute ≡ false }
{}

/// In that case no other relative path that leads to the target has fewer segments `..`.
pub fn relative_reference_climbs_least()
    ensures { (set : CharTests) (target base : ReferenceValue) → AreTargetAndBase set target base
        → DoAgree target base → base.path.absolute ≡ true
        → ClimbsLeast target base (relative_to target base) }
{}

/// The answer to a readable target is readable, and so it is read back from its text.
pub fn relative_reference_is_readable()
    ensures test { (set : CharTests) (target base : ReferenceValue) → is_readable set target ≡ true
        → is_readable set (relative_to target base) ≡ true }
    ensures rule { (set : CharTests) (target base : ReferenceValue) → AreAboveAscii set
        → IsReadable set target → IsReadable set (relative_to target base) }
    ensures read_back { (set : CharTests) (target base : ReferenceValue) → AreAboveAscii set
        → is_readable set target ≡ true
        → read_reference (spell (relative_to target base)) ≡ relative_to target base }
{}
