//! Words that hold a list of numbers. Most of them hold one, which is read without gathering.
#![tactic(auto, unfolding(crate::specs::Reading::meaning_at))]

ghost use Rattle.std.specs.Prelude.{◌≡◌, IfOk};
ghost use Rattle.spy_words.specs.Classes.{fields, waits};
ghost use Rattle.spy_words.specs.Faults.{map_ok};
ghost use Rattle.spy_words.specs.Reading.{meaning_at};

use crate::fault::LineFault;
use crate::parts::{Read, ascending, at_least_one, list_of};
use crate::short_lists::{Gathered, Nums};
use crate::words::number_of;
use std::alloc::Global;

/// The list of the numbers that were gathered.
pub fn list_gathered(alloc: Global, read: Result<Gathered, LineFault>) -> Read<Nums>
    ensures { IfOk result (λ list. list ≡ map_ok (λ v. v.items) read) }
{
    match read {
        Ok(numbers) => Ok(Ok(Nums::from_gathered(alloc, numbers)?)),
        Err(fault) => Ok(Err(fault)),
    }
}

/// Fields.
pub fn fields_of(alloc: Global, word: &[u8]) -> Read<Nums>
    ensures { IfOk result (λ read. read ≡ meaning_at fields word.now) }
{
    if let Ok(field) = number_of(0, word) {
        return Ok(Ok(Nums::one(field)));
    }
    list_gathered(alloc, ascending(at_least_one(list_of(alloc, 0, word)?)))
}

/// Events, or none.
pub fn waits_of(alloc: Global, word: &[u8]) -> Read<Nums>
    ensures { IfOk result (λ read. read ≡ meaning_at waits word.now) }
{
    if let Ok(event) = number_of(1, word) {
        return Ok(Ok(Nums::one(event)));
    }
    list_gathered(alloc, list_of(alloc, 1, word)?)
}
