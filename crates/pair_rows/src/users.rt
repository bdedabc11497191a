//! The items that use one place.

ghost use Rattle.std.specs.Prelude.{◌≡◌, ◌+◌, ◌<◌, ◌||◌, ◌==◌, ℕ, false};
ghost use Rattle.bit_words.specs.Bits.{has_bit};
ghost use Rattle.pair_rows.specs.Meetings.{uses_it};

use bit_words::{no_bits, set};

/// An item that uses a place, and how: 0 to write, and else by a class of users that do not meet each other.
#[derive(Clone, Copy)]
pub struct User {
    pub item: usize,
    pub class: u64,
}

/// Sets the bit of an item, if it is one of 1,024 in a row.
fn note(bits: &mut [u64; 16], item: usize, base: usize)
    ensures { (i : ℕ) → i < 1024 → has_bit bits.new i ≡ (has_bit bits.old i || (item == base + i)) }
{
    if item < base {
        return;
    }
    let j = item - base;
    if j < 1024 {
        set(bits, j);
    }
}

/// Which of 1,024 items in a row are among the users of a place.
pub(crate) fn members(users: &[User], base: usize) -> [u64; 16]
    ensures { (i : ℕ) → i < 1024 → has_bit result i ≡ uses_it users.now (base + i) }
{
    let mut bits = no_bits();
    for user in users {
        note(&mut bits, user.item, base);
    }
    bits
}

/// Whether some user of a place may be one of 1,024 items in a row.
pub(crate) fn has_member(users: &[User], base: usize) -> bool
    ensures { result ≡ false → (i : ℕ) → i < 1024 → uses_it users.now (base + i) ≡ false }
{
    for user in users {
        if base <= user.item && user.item - base < 1024 {
            return true;
        }
    }
    false
}
