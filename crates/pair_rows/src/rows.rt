//! Rows of bits, one for each item.

ghost use Rattle.std.specs.Prelude.{◌≡◌, ◌+◌, ◌<◌, ◌||◌, ◌&&◌, ◌==◌, not, ℕ, length};
ghost use Rattle.bit_words.specs.Bits.{has_bit};
ghost use Rattle.pair_rows.specs.Meetings.{AreByClass, HasOneClass, IsClassEnd, met, row_bit, uses_it};

use crate::users::{User, has_member, members};
use bit_words::{join, minus};

/// Adds a mask to the row of an item, if it has one.
fn mark_one(rows: &mut Vec<[u64; 16]>, item: usize, mask: &[u64; 16])
    ensures rows { length rows.new.items ≡ length rows.old.items }
    ensures bits { (a i : ℕ) → a < length rows.old.items → i < 1024 → row_bit rows.new.items a i
        ≡ (row_bit rows.old.items a i || ((item == a) && has_bit mask.now i)) }
{
    if item < rows.len() {
        join(&mut rows[item], mask);
    }
}

/// Adds a mask to the row of each of some users that has one.
pub(crate) fn mark(rows: &mut Vec<[u64; 16]>, users: &[User], mask: &[u64; 16])
    ensures rows { length rows.new.items ≡ length rows.old.items }
    ensures bits { (a i : ℕ) → a < length rows.old.items → i < 1024 → row_bit rows.new.items a i
        ≡ (row_bit rows.old.items a i || (uses_it users.now a && has_bit mask.now i)) }
{
    for user in users {
        mark_one(rows, user.item, mask);
    }
}

/// Adds to the rows of some users of one class all bits but, if it is not class 0, their own.
fn mark_run(rows: &mut Vec<[u64; 16]>, all: &[u64; 16], run: &[User], class: u64, base: usize)
    ensures rows { length rows.new.items ≡ length rows.old.items }
    ensures bits { (a i : ℕ) → a < length rows.old.items → i < 1024 → row_bit rows.new.items a i
        ≡ (row_bit rows.old.items a i || (uses_it run.now a
        && (has_bit all.now i && ((class == 0) || not (uses_it run.now (base + i)))))) }
{
    if class == 0 {
        mark(rows, run, all);
    } else {
        let mut mask = *all;
        let own = members(run, base);
        minus(&mut mask, &own);
        mark(rows, run, &mask);
    }
}

/// The first place after `from` of a user of another class, or else how many users there are.
fn class_end(users: &[User], from: usize) -> usize
    requires { from < length users.now }
    ensures { IsClassEnd users.now from result }
{
    for k in from + 1..users.len() {
        if users[k].class != users[from].class {
            return k;
        }
    }
    users.len()
}

/// Adds to the row of each user of a place those of 1,024 items in a row that it meets there. A place that none of these uses costs no more than a look at its users.
pub(crate) fn mark_place(rows: &mut Vec<[u64; 16]>, users: &[User], base: usize)
    requires once { HasOneClass users.now }
    requires classes { AreByClass users.now }
    ensures rows { length rows.new.items ≡ length rows.old.items }
    ensures bits { (a i : ℕ) → a < length rows.old.items → i < 1024 → row_bit rows.new.items a i
        ≡ (row_bit rows.old.items a i || met users.now users.now a (base + i)) }
{
    if !has_member(users, base) {
        return;
    }
    let all = members(users, base);
    let mut from = 0;
    while from < users.len() {
        let end = class_end(users, from);
        mark_run(rows, &all, &users[from..end], users[from].class, base);
        from = end;
    }
}
