//! Laws of sort keys: each is the contract of a function that does nothing.

ghost use Rattle.std.specs.{declared.ops.Bound.TheVariants.{Excluded, Included}, BTreeMap.Range.{range_contains}};
ghost use Rattle.std.specs.{List.{starts_with}, Prelude.{◌≡◌, ◌↔◌, ◌==◌, is_some}};
ghost use Rattle.iref_grammar.specs.{Keys.{text_order}, Reference.{ReferenceValue}};
ghost use Rattle.iref_grammar.specs.{Key.{key, key_cmp}, ReferenceSuffix.{reference_suffix}};
ghost use Rattle.iref_canonical.specs.{SortKey.{sort_key}, SortPrefix.{is_between, sort_prefix, sort_prefix_end}};

/// Sort keys, compared byte by byte and the shorter first, stand in the order of the keys.
#[tactic(auto, using(crate::proofs::SortKeyLemmas::laws))]
pub fn sort_keys_are_in_the_order_of_keys()
    ensures { (k l : ReferenceValue) → text_order (sort_key k) (sort_key l) ≡ key_cmp k l }
{}

/// Two sort keys are the same exactly if the keys are.
#[tactic(auto, using(crate::proofs::SortKeyLemmas::laws))]
pub fn sort_keys_are_the_same_where_keys_are()
    ensures { (k l : ReferenceValue) → (sort_key k ≡ sort_key l) ↔ (k ≡ l) }
{}

/// The sort keys of all below a reference, which has a `suffix` after it, begin with its sort prefix.
/// They stand from this prefix up to, and without, the prefix and the byte 2, as a `Range` and a
/// `BTreeMap` test it. No other sort keys do. Below `http://h/docs` are it itself,
/// `http://h/docs/a` and `HTTP://h/x/../docs/?q`, not `http://h/docsx`.
#[tactic(auto, using(crate::proofs::SortPrefixLemmas::laws))]
pub fn sort_keys_of_all_below_are_one_range()
    ensures beginning { (q r : ReferenceValue)
        → starts_with ◌==◌ (sort_key (key r)) (sort_prefix (key q))
        ≡ is_some (reference_suffix q r) }
    ensures range { (q r : ReferenceValue)
        → is_between (sort_prefix (key q)) (sort_prefix_end (key q)) (sort_key (key r))
        ≡ is_some (reference_suffix q r) }
    ensures of_map { (q r : ReferenceValue)
        → range_contains text_order (Included (sort_prefix (key q)))
        (Excluded (sort_prefix_end (key q))) (sort_key (key r))
        ≡ is_some (reference_suffix q r) }
{}
