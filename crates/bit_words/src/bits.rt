//! 1,024 bits.

ghost use Rattle.std.specs.Prelude.{◌≡◌, ◌||◌, ◌&&◌, ◌==◌, not, ℕ, ◌<◌, true, false, ◌↔◌, All};
ghost use Rattle.std.specs.Int.{bit_at};
ghost use Rattle.bit_words.specs.Bits.{has_bit};

/// Whether a bit is set.
#[inline]
pub fn has(bits: &[u64; 16], j: usize) -> bool
    requires { j < 1024 }
    ensures { result ≡ has_bit bits.now j }
{
    (bits[j / 64] >> (j % 64)) & 1 == 1
}

/// Sets one bit.
#[inline]
pub fn set(bits: &mut [u64; 16], j: usize)
    requires { j < 1024 }
    ensures { (i : ℕ) → i < 1024 → has_bit bits.new i ≡ (has_bit bits.old i || (j == i)) }
{
    bits[j / 64] |= 1u64 << (j % 64);
}

/// Sets each bit that is set in the others.
#[inline]
pub fn join(bits: &mut [u64; 16], other: &[u64; 16])
    ensures { (i : ℕ) → i < 1024 → has_bit bits.new i ≡ (has_bit bits.old i || has_bit other.now i) }
{
    for k in 0..16 {
        bits[k] |= other[k];
    }
}

/// Whether all words are this one.
#[inline]
fn all_are(bits: &[u64; 16], word: u64) -> bool
    ensures { (result ≡ true) ↔ All (λ w. w ≡ word) bits.now }
{
    bits.iter().all(|w| *w == word)
}

/// Whether no bit is set.
#[inline]
pub fn is_empty(bits: &[u64; 16]) -> bool
    ensures { (result ≡ true) ↔ ((i : ℕ) → i < 1024 → has_bit bits.now i ≡ false) }
{
    all_are(bits, 0)
}

/// Whether every bit is set.
#[inline]
pub fn is_full(bits: &[u64; 16]) -> bool
    ensures { (result ≡ true) ↔ ((i : ℕ) → i < 1024 → has_bit bits.now i ≡ true) }
{
    all_are(bits, u64::MAX)
}

/// No bits.
#[inline]
pub fn no_bits() -> [u64; 16]
    ensures { (i : ℕ) → i < 1024 → has_bit result i ≡ false }
{
    [0; 16]
}

/// All bits.
#[inline]
pub fn all_bits() -> [u64; 16]
    ensures { (i : ℕ) → i < 1024 → has_bit result i ≡ true }
{
    [u64::MAX; 16]
}

/// A word without the bits of another.
#[inline]
fn less(word: u64, other: u64) -> u64
    ensures { (i : ℕ) → i < 64
        → (bit_at result i == 1) ≡ ((bit_at word i == 1) && not (bit_at other i == 1)) }
{
    word & !other
}

/// Clears each bit that is set in the others.
#[inline]
pub fn minus(bits: &mut [u64; 16], other: &[u64; 16])
    ensures { (i : ℕ) → i < 1024 → has_bit bits.new i ≡ (has_bit bits.old i && not (has_bit other.now i)) }
{
    for k in 0..16 {
        bits[k] = less(bits[k], other[k]);
    }
}
