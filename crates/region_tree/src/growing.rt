//! Declarations that make a forest, one by one.

ghost use Rattle.std.specs.Prelude.{◌≢◌, All, IsSome, []};
ghost use Rattle.vocabulary.specs.Prelude.{Part, Sub, Space};
ghost use Rattle.log_tables.specs.Regions.{Regions, space_of};
ghost use Rattle.region_tree.specs.Growing.{IsGrown, MaySub, with_space, with_part, with_sub};

/// What keeps declarations a forest: a space with a new id, a partition with a new id of a declared space, and a subspace that may be declared.
///
/// So declarations that are tested one by one, from none on, need not be tested by `is_forest` again.
pub fn declarations_grow()
    ensures none { IsGrown (record { spaces = []; parts = []; subs = [] }) }
    ensures space { (d : Regions) (s : Space) → IsGrown d → All (λ t. t.id ≢ s.id) d.spaces
        → IsGrown (with_space d s) }
    ensures part { (d : Regions) (p : Part) → IsGrown d → All (λ q. q.id ≢ p.id) d.parts
        → IsSome (space_of d p.space) → IsGrown (with_part d p) }
    ensures sub { (d : Regions) (s : Sub) → IsGrown d → MaySub d s → IsGrown (with_sub d s) }
{}
