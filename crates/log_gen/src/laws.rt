//! What is said of every stencil log.

ghost use Rattle.std.specs.Prelude.{◌≡◌, ℕ, ◌≤◌, ◌*◌, ◌-◌, length};
ghost use Rattle.std.specs.List.{AllByRecursion};
ghost use Rattle.spy_grammar.specs.Spelling.{Good};
ghost use Rattle.log_gen.specs.Stencil as stencils;

/// Each record of a stencil log has a spelling, and there are so many.
pub fn stencil_logs_are_good()
    ensures good { (n : ℕ) → 1 ≤ n → n ≤ 500 → AllByRecursion Good (stencils.stencil n) }
    ensures count { (n : ℕ) → 1 ≤ n → length (stencils.stencil n) ≡ 148 * n - 14 }
{}
