//! Sums that stay within a `u128`, and whether they are above a limit.

ghost use Rattle.std.specs.Prelude.{◌≡◌, ◌+◌, ◌-◌, ◌<◌, ◌^◌, ℕ, nat_lt};
ghost use Rattle.log_limits.specs.Sums.{cut};

/// A sum with something more, as far as it fits.
pub fn raised(sum: u128, more: u128) -> u128
    ensures sum { result ≡ cut (sum + more) }
    ensures fits { sum < 2 ^ 128 }
{
    sum.saturating_add(more)
}

/// Whether a sum is above a limit.
pub fn exceeds(before: u128, more: u128, limit: u128) -> bool
    ensures { (n : ℕ) → more ≡ cut n → limit < 2 ^ 128 - 1 → result ≡ nat_lt limit (before + n) }
{
    raised(before, more) > limit
}
