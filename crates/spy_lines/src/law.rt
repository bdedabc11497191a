ghost use Rattle.std.specs.Prelude.{◌≡◌, ℕ, List, All};
ghost use Rattle.spy_lines.specs.LinesOf.{with_ends, IsLine};

/// Bytes are those of one list of lines at most, so what `finish` says of its list fixes the list.
pub fn one_list_of_lines()
    ensures { (xs ys : List (List ℕ)) → All IsLine xs → All IsLine ys → with_ends xs ≡ with_ends ys → xs ≡ ys }
{}
