//! Keys, by which rows are looked up.

ghost use Rattle.std.specs.Prelude.{ℕ, ◌≡◌, true};

use std::hash::Hash;

/// What rows are looked up by.
pub trait Key: Copy + Eq + Hash {
    ghost number_of: { Self → ℕ };

    /// The number of the key, one for keys that are alike. Rows whose keys have ascending numbers are found by these.
    fn number(&self) -> usize
        ensures { result ≡ number_of self.now };

    ghost alike: { (a b : Self) → Self.eq a b ≡ true → number_of a ≡ number_of b };
}

/// A way to tell the key of a row.
pub trait KeyBy<T> {
    type K: Key;

    ghost key_of: { T → Self.K };

    fn key(row: &T) -> Self::K
        ensures { result ≡ key_of row.now };
}
