//! How many of 1,024 bits are set.

ghost use Rattle.std.specs.Prelude.{◌≡◌, ◌&&◌, ◌==◌, nat_le, ◌≤◌};
ghost use Rattle.std.specs.Int.{bit_at};
ghost use Rattle.bit_words.specs.Bits.{has_bit};
ghost use Rattle.pair_rows.specs.Counting.{count_below};

use bit_words::has;

/// How many bits of a word are set.
#[inline]
fn ones(word: u64) -> u64
    ensures { result ≡ count_below (λ i. bit_at word i == 1) 64 }
{
    word.count_ones() as u64
}

/// How many bits are set.
#[inline]
pub(crate) fn count_all(bits: &[u64; 16]) -> u64
    ensures { result ≡ count_below (has_bit bits.now) 1024 }
{
    let mut count: u64 = 0;
    for k in 0..16 {
        count += ones(bits[k]);
    }
    count
}

/// How many bits are set from one on.
#[inline]
pub(crate) fn count_from(bits: &[u64; 16], from: usize) -> u64
    requires { from ≤ 1024 }
    ensures { result ≡ count_below (λ i. nat_le from i && has_bit bits.now i) 1024 }
{
    let mut count: u64 = 0;
    for j in from..1024 {
        if has(bits, j) {
            count += 1;
        }
    }
    count
}
