//! Laws of prefix tables: each is the contract of a function that does nothing.
#![tactic(auto, using(crate::proofs::PrefixLemmas::laws))]

ghost use Rattle.std.specs.Prelude.{◌≡◌, ◌≢◌, ◌↔◌, List, [], ◌∷◌, ◌++◌, map, Some, None, Ok, Err, true, false};
ghost use Rattle.std.specs.{Prelude.{IsFalse, IsSome, MatchOption, if◌then◌else◌}, List.{list_all, list_any}};
ghost use Rattle.iref_grammar.specs.{iri_chars, Text, is_uri, Grammar.{colon}, Texts.{lacks}};
ghost use Rattle.iref_grammar.specs.Rules.{AcceptsExactly, Optional};
ghost use Rattle.iref.specs.PrefixTable.{PrefixEntry, PrefixTable, PrefixesValue, fits, longest_fit};
ghost use Rattle.iref.specs.PrefixTable.{IsPrefixTable, labels_differ, get, BadLabel, Taken};
ghost use Rattle.iref.specs.{PrefixLabels.{is_label, IsPnPrefix}, declared.compact.label.Labels.{Labels}};
ghost use Rattle.iref.specs.declared.compact.label.Labels.TheVariants.{Turtle};
ghost use Rattle.iref.specs.PrefixTable.{inserted, inserted_all, is_taken, removed, replaced};
ghost use Rattle.iref.specs.PrefixTable.{Change, Insert, brings_iri, changed_all, compacted, compact_text, expanded};
ghost use Rattle.iref.specs.PrefixTable.{IsLongestFit, or_new, CompactValue, IsCompact};

/// A table that was made by inserts of IRIs holds labels in its rule, none of them twice, and IRIs.
pub fn inserting_keeps_labels_unique()
    ensures empty { (labels : Labels)
        → IsPrefixTable (record { labels = labels; entries = [] }) }
    ensures new { (label iri : Text) (table new : PrefixesValue) → IsPrefixTable table
        → is_uri iri_chars iri ≡ true
        → inserted label iri table ≡ Ok new → IsPrefixTable new }
    ensures all { (labels : Labels) (entries : List PrefixEntry) (new : PrefixesValue)
        → list_all (λ (e : PrefixEntry). is_uri iri_chars e.iri) entries ≡ true
        → inserted_all entries (record { labels = labels; entries = [] }) ≡ Some new
        → IsPrefixTable new }
    ensures found { (front : PrefixTable) (e : PrefixEntry) (back : PrefixTable)
        → labels_differ (front ++ e ∷ back) ≡ true
        → get e.label (front ++ e ∷ back) ≡ Some e.iri }
{}

/// An insert adds a last entry: those before it keep their positions and their IRIs.
pub fn inserting_keeps_the_earlier_entries()
    ensures order { (label iri : Text) (table new : PrefixesValue)
        → inserted label iri table ≡ Ok new
        → table.entries ++ record { label = label; iri = iri } ∷ [] ≡ new.entries }
    ensures labels { (label iri : Text) (table new : PrefixesValue)
        → inserted label iri table ≡ Ok new → table.labels ≡ new.labels }
    ensures new { (label iri : Text) (table new : PrefixesValue)
        → inserted label iri table ≡ Ok new → get label new.entries ≡ Some iri }
    ensures others { (label iri other : Text) (table new : PrefixesValue)
        → inserted label iri table ≡ Ok new → other ≢ label
        → get other new.entries ≡ get other table.entries }
{}

/// An insert is refused where its text is outside the rule of the table's labels, and then where
/// the label has an entry.
pub fn inserting_refuses_bad_and_taken_labels()
    ensures bad_label { (label iri : Text) (table : PrefixesValue)
        → (inserted label iri table ≡ Err BadLabel)
        ↔ IsFalse (is_label table.labels label) }
    ensures taken { (label iri : Text) (table : PrefixesValue)
        → (inserted label iri table ≡ Err Taken)
        ↔ ((is_label table.labels label ≡ true) × IsSome (get label table.entries)) }
{}

/// A table that was made by any mixture of inserts, replacements and removals of entries with IRIs
/// holds labels in its rule, none of them twice, and IRIs.
pub fn changing_keeps_labels_unique()
    ensures removed { (label : Text) (table : PrefixesValue) → IsPrefixTable table
        → IsPrefixTable (record table { entries = removed label table.entries }) }
    ensures replaced { (label iri : Text) (table new : PrefixesValue) → IsPrefixTable table
        → is_uri iri_chars iri ≡ true
        → replaced label iri table ≡ Ok new → IsPrefixTable new }
    ensures all { (labels : Labels) (changes : List Change) (new : PrefixesValue)
        → list_all brings_iri changes ≡ true
        → changed_all changes (record { labels = labels; entries = [] }) ≡ Some new
        → IsPrefixTable new }
    ensures inserts { (entries : List PrefixEntry) (table : PrefixesValue)
        → inserted_all entries table ≡ changed_all (map Insert entries) table }
{}

/// What is removed is not found, and the others keep their order and their IRIs. To remove it again
/// changes nothing, and to remove what was inserted gives the table from before.
pub fn removing_leaves_the_other_entries()
    ensures gone { (label : Text) (table : PrefixTable) → get label (removed label table) ≡ None }
    ensures others { (label other : Text) (table : PrefixTable)
        → other ≢ label → get other (removed label table) ≡ get other table }
    ensures order { (front : PrefixTable) (e : PrefixEntry) (back : PrefixTable)
        → labels_differ (front ++ e ∷ back) ≡ true
        → removed e.label (front ++ e ∷ back) ≡ front ++ back }
    ensures again { (label : Text) (table : PrefixTable)
        → removed label (removed label table) ≡ removed label table }
    ensures undoes { (label iri : Text) (table new : PrefixesValue)
        → inserted label iri table ≡ Ok new → removed label new.entries ≡ table.entries }
{}

/// A label that has an entry gets another IRI and keeps its place, and the other labels keep their
/// IRIs. A label that has none is inserted.
pub fn replacing_keeps_the_order_of_labels()
    ensures new { (label iri : Text) (table new : PrefixesValue)
        → replaced label iri table ≡ Ok new → get label new.entries ≡ Some iri }
    ensures others { (label iri other : Text) (table new : PrefixesValue)
        → replaced label iri table ≡ Ok new → other ≢ label
        → get other new.entries ≡ get other table.entries }
    ensures order { (label iri : Text) (table new : PrefixesValue)
        → replaced label iri table ≡ Ok new → is_taken label table.entries ≡ true
        → map (λ (e : PrefixEntry). e.label) new.entries
        ≡ map (λ (e : PrefixEntry). e.label) table.entries }
    ensures absent { (label iri : Text) (table : PrefixesValue)
        → is_taken label table.entries ≡ false
        → replaced label iri table ≡ inserted label iri table }
    ensures bad_label { (label iri : Text) (table : PrefixesValue)
        → (replaced label iri table ≡ Err BadLabel)
        ↔ IsFalse (is_label table.labels label) }
{}

/// An IRI is shortened by the longest entry whose text is a beginning of its text, the first of
/// them on a tie.
pub fn compacting_takes_the_longest_fit()
    ensures fit { (iri : Text) (table : PrefixTable)
        → MatchOption (longest_fit iri table)
        (IsFalse (list_any (fits iri) table)) (IsLongestFit iri table) }
    ensures only { (iri : Text) (table : PrefixTable) (e : PrefixEntry)
        → IsLongestFit iri table e → longest_fit iri table ≡ Some e }
    ensures compact { (iri : Text) (table : PrefixTable)
        → MatchOption (compacted iri table)
        (IsFalse (list_any (fits iri) table)) (IsCompact iri table) }
    ensures scan { (iri : Text) (table : PrefixTable) (e : PrefixEntry)
        → longest_fit iri (table ++ e ∷ [])
        ≡ (if fits iri e then Some (or_new (longest_fit iri table) e) else longest_fit iri table) }
{}

/// The text of an IRI that was shortened expands to the IRI, and only IRIs are expanded.
pub fn expanding_undoes_compacting()
    ensures text { (iri : Text) (table : PrefixesValue) (c : CompactValue) → IsPrefixTable table
        → is_uri iri_chars iri ≡ true → compacted iri table.entries ≡ Some c
        → expanded (compact_text c) table.entries ≡ Ok iri }
    ensures iri { (text iri : Text) (table : PrefixTable) → expanded text table ≡ Ok iri
        → is_uri iri_chars iri ≡ true }
{}

/// `Labels::Turtle` allows the texts that are empty or in `PN_PREFIX` of the Turtle grammar, and no
/// others. No label holds a `:`.
pub fn labels_are_those_of_the_rule()
    ensures turtle { AcceptsExactly (is_label Turtle) (Optional IsPnPrefix) }
    ensures colon { (labels : Labels) (label : Text) → is_label labels label ≡ true
        → lacks colon label ≡ true }
{}
