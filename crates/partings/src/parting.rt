//! Places parted by a test: those that pass get numbers apart from the others.

ghost use Rattle.std.specs.Prelude.{◌≡◌, ◌+◌, ◌<◌, ◌^◌, nat_eq, All, IfOk, OnOk, length};
ghost use Rattle.std.specs.HashMap.{get};
ghost use Rattle.std.specs.List.Sorted.{IsStrictlyIncreasing};
ghost use Rattle.vocabulary.specs.Prelude.{is_in};
ghost use Rattle.partings.specs.Parted.{IsGiven, IsParted};

use std::alloc::{AllocError, Global};
use std::collections::HashMap;

/// The number that is given in place of another: the one that was given before, or else a new one.
fn number_given(
    given: &mut HashMap<usize, usize>,
    number: usize,
    fresh: usize,
) -> Result<usize, AllocError>
    ensures { IfOk result (IsGiven (get nat_eq given.old) (get nat_eq given.new) number fresh) }
{
    if let Some(one) = given.get(&number) {
        return Ok(*one);
    }
    given.insert(number, fresh)?;
    Ok(fresh)
}

/// Gives new numbers, from `next` on, to the places of a list: the same to those that had the same. Takes a look-up for each of them.
pub fn part(
    alloc: Global,
    numbers: &mut Vec<usize>,
    places: &[usize],
    next: usize,
) -> Result<(), AllocError>
    requires below { All (λ n. n < next) numbers.old.items }
    requires places { All (λ place. place < length numbers.old.items) places.now }
    requires ascend { IsStrictlyIncreasing places.now }
    requires room { next + length places.now < 2 ^ 64 }
    ensures parted { OnOk result (IsParted (is_in places.now) numbers.old.items numbers.new.items) }
    ensures below { OnOk result (All (λ n. n < next + length places.now) numbers.new.items) }
{
    let mut given = HashMap::new(alloc);
    for k in 0..places.len() {
        let place = places[k];
        numbers[place] = number_given(&mut given, numbers[place], next + k)?;
    }
    Ok(())
}
