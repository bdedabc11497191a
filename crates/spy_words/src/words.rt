//! Single words: numbers, and words of a few fixed texts.

ghost use Rattle.std.specs.Prelude.{◌≡◌, ◌∷◌, [], ◌++◌, ◌^◌, true, false, if◌then◌else◌, Err, None, OnOk, Some, codes, decimal};
ghost use Rattle.std.specs.Char.{is_ascii_digit};
ghost use Rattle.std.specs.List.{list_all};
ghost use Rattle.spy_words.specs.declared.fault.LineFault.TheVariants.{Form};
ghost use Rattle.spy_words.specs.Classes.{split_word, access, access_word, coherence_word, layout, layout_word};
ghost use Rattle.spy_words.specs.Reading.{capped_value, meaning_at, number_from, operator_at, text_at};

use crate::access::{InstKind, PrivWord};
use crate::fault::LineFault;
use itoa::Buffer;
use std::alloc::AllocError;

/// The value of digits, which is 2^32 or greater before these: 2^32, if all of these are digits.
fn value_beyond(rest: &[u8]) -> Option<u64>
    ensures { result ≡ (if list_all is_ascii_digit rest.now then Some (2 ^ 32) else None) }
{
    for b in rest {
        if !b.is_ascii_digit() {
            return None;
        }
    }
    Some(1 << 32)
}

/// The value of digits, or 2^32 where it is greater; `None` where some byte is no digit. One pass.
#[inline]
fn value_of(word: &[u8]) -> Option<u64>
    ensures { result ≡ capped_value word.now }
{
    let mut value = 0u64;
    for (k, b) in word.iter().enumerate() {
        if !b.is_ascii_digit() {
            return None;
        }
        value = value * 10 + u64::from(*b - b'0');
        // A branch that is hardly ever taken waits for nothing, unlike the lesser of two numbers.
        if value >= 1 << 32 {
            return value_beyond(&word[k + 1..]);
        }
    }
    Some(value)
}

/// A number from the least up.
#[tactic(auto, unfolding(crate::specs::Reading::number_from))]
pub fn number_of(least: u32, word: &[u8]) -> Result<u32, LineFault>
    ensures { result ≡ number_from least word.now }
{
    if word.is_empty() {
        return Err(LineFault::Form);
    }
    let Some(value) = value_of(word) else {
        return Err(LineFault::Form);
    };
    if (word.len() > 1 && word[0] == b'0') || value < u64::from(least) || value >= 1 << 32 {
        return Err(LineFault::Number);
    }
    Ok(value as u32)
}

/// Writes a number.
pub fn push_u64(out: &mut Vec<u8>, n: u64) -> Result<(), AllocError>
    ensures { OnOk result (out.new.items ≡ out.old.items ++ decimal n) }
{
    let mut buffer = Buffer::new();
    out.extend_from_slice(buffer.format(n).as_bytes())
}

/// Which of two texts the word is: the first for true, the second for false.
pub fn either(word: &[u8], first: &[u8], second: &[u8]) -> Result<bool, LineFault>
    ensures { result ≡ text_at (λ b. if b then first.now else second.now) (true ∷ false ∷ []) word.now (Err Form) }
{
    if word == first {
        Ok(true)
    } else if word == second {
        Ok(false)
    } else {
        Err(LineFault::Form)
    }
}

/// The word for whether a partition is disjoint.
pub fn split_text(disjoint: bool) -> &'static [u8]
    ensures { result.now ≡ split_word disjoint }
{
    if disjoint { b"disjoint" } else { b"aliased" }
}

/// The word for whether coherence is atomic.
pub fn coherence_text(atomic: bool) -> &'static [u8]
    ensures { result.now ≡ coherence_word atomic }
{
    if atomic { b"at" } else { b"ex" }
}

/// The operator of a reduction.
#[tactic(auto, unfolding(crate::specs::Reading::operator_at))]
fn operator_of(word: &[u8]) -> Result<u32, LineFault>
    ensures { result ≡ operator_at word.now }
{
    if word.starts_with(b"red:") {
        number_of(1, &word[4..])
    } else {
        Err(LineFault::Form)
    }
}

fn push_operator(out: &mut Vec<u8>, operator: u32) -> Result<(), AllocError>
    ensures { OnOk result (out.new.items ≡ out.old.items ++ codes "red:" ++ decimal operator) }
{
    out.extend_from_slice(b"red:")?;
    push_u64(out, u64::from(operator))
}

/// A privilege.
#[tactic(auto, unfolding(crate::specs::Reading::meaning_at))]
pub fn access_of(word: &[u8]) -> Result<PrivWord, LineFault>
    ensures { result ≡ meaning_at access word.now }
{
    if word == b"ro".as_slice() {
        Ok(PrivWord::Ro)
    } else if word == b"rw".as_slice() {
        Ok(PrivWord::Rw)
    } else if word == b"wd".as_slice() {
        Ok(PrivWord::Wd)
    } else {
        Ok(PrivWord::Red(operator_of(word)?))
    }
}

/// Writes a privilege.
pub fn push_access(out: &mut Vec<u8>, access: PrivWord) -> Result<(), AllocError>
    ensures { OnOk result (out.new.items ≡ out.old.items ++ access_word access) }
{
    match access {
        PrivWord::Ro => out.extend_from_slice(b"ro"),
        PrivWord::Rw => out.extend_from_slice(b"rw"),
        PrivWord::Wd => out.extend_from_slice(b"wd"),
        PrivWord::Red(operator) => push_operator(out, operator),
    }
}

/// A kind of instance.
#[tactic(auto, unfolding(crate::specs::Reading::meaning_at))]
pub fn layout_of(word: &[u8]) -> Result<InstKind, LineFault>
    ensures { result ≡ meaning_at layout word.now }
{
    if word == b"plain".as_slice() {
        Ok(InstKind::Plain)
    } else if word == b"home".as_slice() {
        Ok(InstKind::Home)
    } else {
        Ok(InstKind::Red(operator_of(word)?))
    }
}

/// Writes a kind of instance.
pub fn push_layout(out: &mut Vec<u8>, layout: InstKind) -> Result<(), AllocError>
    ensures { OnOk result (out.new.items ≡ out.old.items ++ layout_word layout) }
{
    match layout {
        InstKind::Plain => out.extend_from_slice(b"plain"),
        InstKind::Home => out.extend_from_slice(b"home"),
        InstKind::Red(operator) => push_operator(out, operator),
    }
}
