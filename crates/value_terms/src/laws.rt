//! Laws over the definitions alone. A function here has nothing to do: its contract is the law.

ghost use Rattle.std.specs.Prelude.{◌≡◌, ◌↔◌, ℕ, ◌+◌, ◌≤◌, true, []};
ghost use Rattle.value_terms.specs.declared.terms.Base.{Base};
ghost use Rattle.value_terms.specs.declared.terms.Base.TheVariants as bases;
ghost use Rattle.value_terms.specs.declared.terms.Contribution.{Contribution};
ghost use Rattle.value_terms.specs.Values.{Bag, Value, count_in, joined, plain, add, fold_in, total, weight_of, with_bag, with_groups, CountsEach, IsWellFormedBag, IsWellFormed, same_value};

/// A bag is its counts: joining adds them, no two bags have the same, and a bag counted anew is itself.
#[tactic(auto, using(crate::proofs::lemmas::Counting::count_joined, crate::proofs::lemmas::Counting::equal_by_counts, crate::proofs::lemmas::WellFormed::joined_anew))]
pub fn bags_are_counts()
    ensures joined { (c : Contribution) (a b : Bag) → count_in c (joined a b) ≡ count_in c a + count_in c b }
    ensures equal { (a b : Bag) → IsWellFormedBag a → IsWellFormedBag b
        → ((c : Contribution) → count_in c a ≡ count_in c b) → a ≡ b }
    ensures anew { (bag : Bag) → IsWellFormedBag bag → joined [] bag ≡ bag }
{}

/// Two changes by one operator may change places, on every value, and a raw value stays raw.
#[tactic(auto, using(crate::proofs::lemmas::Changes::add_raw, crate::proofs::lemmas::Changes::fold_raw, crate::proofs::lemmas::Changes::add_add, crate::proofs::lemmas::Changes::add_fold, crate::proofs::lemmas::Changes::fold_fold))]
pub fn changes_commute()
    ensures add_add { (op : ℕ) (a b : Bag) (v : Value) → add op a (add op b v) ≡ add op b (add op a v) }
    ensures add_fold { (op : ℕ) (a : Bag) (w v : Value)
        → add op a (fold_in w op v) ≡ fold_in (add op a w) op v }
    ensures fold_fold { (op : ℕ) (w u v : Value)
        → fold_in (fold_in w op u) op v ≡ fold_in (fold_in w op v) op u }
    ensures add_raw { (op : ℕ) (a : Bag) → add op a (plain bases.Raw) ≡ plain bases.Raw }
    ensures fold_raw { (op : ℕ) (v : Value) → fold_in (plain bases.Raw) op v ≡ plain bases.Raw }
{}

/// What is made of well-formed values is well formed. A bag that is added may stand in any order, but its counts are 1 at least.
#[tactic(auto, using(crate::proofs::lemmas::WellFormed::plain_well_formed, crate::proofs::lemmas::WellFormed::add_well_formed, crate::proofs::lemmas::WellFormed::fold_well_formed))]
pub fn values_stay_well_formed()
    ensures plain { (base : Base) → IsWellFormed (plain base) }
    ensures add { (op : ℕ) (bag : Bag) (v : Value) → CountsEach bag → IsWellFormed v
        → IsWellFormed (add op bag v) }
    ensures fold { (w : Value) (op : ℕ) (v : Value) → IsWellFormed w → IsWellFormed v
        → IsWellFormed (fold_in w op v) }
{}

/// Adding a bag is adding its entries one after another, and a value is what adding those of its groups makes of its base.
#[tactic(auto, using(crate::proofs::lemmas::Sums::bag_sums, crate::proofs::lemmas::Sums::value_sums))]
pub fn values_are_sums()
    ensures bag { (op : ℕ) (bag : Bag) (v : Value) → with_bag op bag v ≡ add op bag v }
    ensures value { (v : Value) → IsWellFormed v → with_groups v.groups (plain v.base) ≡ v }
{}

/// No change makes a value heavier than by what was added.
#[tactic(auto, using(crate::proofs::lemmas::Sums::weight_added, crate::proofs::lemmas::Sums::weight_folded))]
pub fn weights_add_up()
    ensures add { (op : ℕ) (bag : Bag) (v : Value) → weight_of (add op bag v) ≤ weight_of v + total bag }
    ensures fold { (w : Value) (op : ℕ) (v : Value) → weight_of (fold_in w op v) ≤ weight_of w + weight_of v }
{}

/// The test of two values tells whether they are equal.
#[tactic(auto, using(crate::proofs::lemmas::Equality::value_decides))]
pub fn same_values_are_equal()
    ensures { (v w : Value) → (same_value v w ≡ true) ↔ (v ≡ w) }
{}
