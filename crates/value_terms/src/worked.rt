//! The definitions, tried on worked values.

ghost use Rattle.std.specs.Prelude.{◌≡◌, [], ◌∷◌};
ghost use Rattle.value_terms.specs.declared.terms.Base.TheVariants as bases;
ghost use Rattle.value_terms.specs.Values.{plain, add_one, fold_in};
ghost use Rattle.value_terms.specs.WorkedValues.{from_first, from_second, group_with};

/// What the definitions say of a few values.
#[tactic(auto, unfolding(crate::specs::Computed::values_computed))]
pub fn worked_values()
    ensures three_groups { add_one 1 from_first (add_one 2 from_second (add_one 1 from_first (plain bases.Init)))
        ≡ record { base = bases.Init; groups = group_with 1 from_first 1 ∷ group_with 2 from_second 1 ∷ group_with 1 from_first 1 ∷ [] } }
    ensures from_identity { fold_in (plain bases.Init) 1 (plain bases.Ident) ≡ plain bases.Init }
    ensures from_raw { fold_in (plain bases.Init) 1 (plain bases.Raw) ≡ plain bases.Raw }
    ensures from_group { fold_in (plain bases.Init) 1 (record { base = bases.Ident; groups = group_with 1 from_first 2 ∷ [] })
        ≡ record { base = bases.Init; groups = group_with 1 from_first 2 ∷ [] } }
{}
