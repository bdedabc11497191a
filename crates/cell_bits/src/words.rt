//! Bits in words of 64.

ghost use Rattle.std.specs.Prelude.{◌≡◌, ◌<◌, ◌≤◌, ◌*◌, ◌==◌, ◌&&◌, ◌||◌, ◌↔◌, nat_le, nat_lt, ℕ, false, true, length};
ghost use Rattle.std.specs.Int.{bit_at};
ghost use Rattle.std.specs.List.{slice_index_or};
ghost use Rattle.bit_words.specs.Bits.{has_bit};

/// The word at a place, or one without a bit behind the last.
#[inline]
fn word_at(words: &[u64], k: usize) -> u64
    ensures { result ≡ slice_index_or words.now k 0 }
{
    match words.get(k) {
        Some(word) => *word,
        None => 0,
    }
}

/// Sets one bit.
#[inline]
fn set(words: &mut [u64], j: usize)
    requires { j < 64 * length words.old }
    ensures words { length words.new ≡ length words.old }
    ensures bits { (n : ℕ) → has_bit words.new n ≡ (has_bit words.old n || (j == n)) }
{
    words[j / 64] |= 1u64 << (j % 64);
}

/// Sets the bits from one up to another.
pub(crate) fn set_between(words: &mut [u64], from: usize, to: usize)
    requires order { from ≤ to }
    requires within { to ≤ 64 * length words.old }
    ensures words { length words.new ≡ length words.old }
    ensures bits { (n : ℕ) → has_bit words.new n ≡ (has_bit words.old n || (nat_le from n && nat_lt n to)) }
{
    for j in from..to {
        set(words, j);
    }
}

/// Whether another word has each bit of a word.
#[inline]
fn is_part(word: u64, other: u64) -> bool
    ensures { (result ≡ true)
        ↔ ((i : ℕ) → i < 64 → (bit_at word i == 1) ≡ true → (bit_at other i == 1) ≡ true) }
{
    word & !other == 0
}

/// Whether two words have no bit in common.
#[inline]
fn are_apart(word: u64, other: u64) -> bool
    ensures { (result ≡ true)
        ↔ ((i : ℕ) → i < 64 → (bit_at word i == 1) ≡ true → (bit_at other i == 1) ≡ false) }
{
    word & other == 0
}

/// Whether others have each bit of some words.
pub(crate) fn are_within(ours: &[u64], theirs: &[u64]) -> bool
    ensures { (result ≡ true) ↔ ((n : ℕ) → has_bit ours.now n ≡ true → has_bit theirs.now n ≡ true) }
{
    for k in 0..ours.len() {
        if !is_part(ours[k], word_at(theirs, k)) {
            return false;
        }
    }
    true
}

/// Whether some words have a bit in common with others.
pub(crate) fn have_common(ours: &[u64], theirs: &[u64]) -> bool
    ensures { (result ≡ false) ↔ ((n : ℕ) → has_bit ours.now n ≡ true → has_bit theirs.now n ≡ false) }
{
    for k in 0..ours.len() {
        if !are_apart(ours[k], word_at(theirs, k)) {
            return true;
        }
    }
    false
}
