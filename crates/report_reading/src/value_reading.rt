//! The word of a value, read.

ghost use Rattle.std.specs.Prelude.{◌≡◌, ◌-◌, ◌^◌, OnOk, IfOk, drop};
ghost use Rattle.spy_words.specs.Reading.{parts};
ghost use Rattle.report_reading.specs.Numbers.{word_at};
ghost use Rattle.report_reading.specs.ValueReading as says;

use crate::numbers::{number_of, small_number};
use spy_words::Pieces;
use std::alloc::Global;
use value_terms::{Base, Contribution, Memory, Value};

/// The next piece. After the last it is the empty word.
fn next_word<'a>(pieces: &mut Pieces<'a>) -> &'a [u8]
    ensures word { result.now ≡ word_at pieces.old 0 }
    ensures rest { pieces.new ≡ drop 1 pieces.old }
{
    match pieces.next() {
        Some(word) => word,
        None => b"",
    }
}

/// The first two parts of a text, cut at a byte.
fn halves(text: &[u8], byte: u8) -> (&[u8], &[u8])
    ensures first { result.0.now ≡ word_at (parts byte text.now) 0 }
    ensures second { result.1.now ≡ word_at (parts byte text.now) 1 }
{
    let mut pieces = Pieces::of(text, byte);
    let first = next_word(&mut pieces);
    let second = next_word(&mut pieces);
    (first, second)
}

/// The base that a word says.
#[tactic(auto, unfolding(crate::specs::ValueReading::base_at))]
fn base_at(word: &[u8]) -> Base
    ensures { result ≡ says.base_at word.now }
{
    let (name, number) = halves(word, b':');
    if word == b"raw".as_slice() {
        Base::Raw
    } else if word == b"init".as_slice() {
        Base::Init
    } else if word == b"ident".as_slice() {
        Base::Ident
    } else if name == b"const".as_slice() {
        Base::Const(small_number(number))
    } else {
        Base::Out(small_number(number))
    }
}

/// The contribution that a word says, with its count.
#[tactic(auto, unfolding(crate::specs::ValueReading::entry_at))]
fn entry_at(word: &[u8]) -> (Contribution, u64)
    ensures { result ≡ says.entry_at word.now }
{
    let (task, rest) = halves(word, b'.');
    let (req, count) = halves(rest, b'*');
    let c = Contribution {
        task: small_number(task),
        req: small_number(req),
    };
    (c, number_of(u64::MAX, count))
}

/// Adds a contribution, if the value takes it.
fn add_entry(value: &mut Value, op: u32, entry: (Contribution, u64)) -> Result<(), Memory>
    ensures { OnOk result (value.new ≡ says.with_entry op entry value.old) }
{
    let (c, count) = entry;
    if count > 0 && count <= u64::MAX - value.weight() {
        value.add_many(op, c, count)?;
    }
    Ok(())
}

/// Adds the contributions that words say.
fn add_entries(value: &mut Value, op: u32, mut words: Pieces<'_>) -> Result<(), Memory>
    ensures { OnOk result (value.new ≡ says.with_entries op words.entry value.old) }
{
    while let Some(word) = words.next() {
        add_entry(value, op, entry_at(word))?;
    }
    Ok(())
}

/// Adds the group that a word says.
#[tactic(auto, unfolding(crate::specs::ValueReading::with_group))]
fn add_group(value: &mut Value, word: &[u8]) -> Result<(), Memory>
    ensures { OnOk result (value.new ≡ says.with_group word.now value.old) }
{
    let (op, rest) = halves(word, b'[');
    let (bag, _) = halves(rest, b']');
    add_entries(value, small_number(op), Pieces::of(bag, b','))
}

/// Adds the groups that words say.
fn add_groups(value: &mut Value, mut words: Pieces<'_>) -> Result<(), Memory>
    ensures { OnOk result (value.new ≡ says.with_groups words.entry value.old) }
{
    while let Some(word) = words.next() {
        add_group(value, word)?;
    }
    Ok(())
}

/// The value that a word says.
#[tactic(auto, unfolding(crate::specs::ValueReading::value_at))]
pub fn value_at(alloc: Global, word: &[u8]) -> Result<Value, Memory>
    ensures { IfOk result (λ v. v ≡ says.value_at word.now) }
{
    let mut words = Pieces::of(word, b'+');
    let mut value = Value::of(alloc, base_at(next_word(&mut words)));
    add_groups(&mut value, words)?;
    Ok(value)
}
