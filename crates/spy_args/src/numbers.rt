//! The numbers that words say.

ghost use Rattle.std.specs.Prelude.{◌≡◌};
ghost use Rattle.std.specs.Char.{is_ascii_digit};
ghost use Rattle.std.specs.List.{list_all};
ghost use Rattle.spy_words.specs.Reading as reading;
ghost use Rattle.spy_args.specs.Asked.{number_at};

fn are_digits(word: &[u8]) -> bool
    ensures { result ≡ list_all is_ascii_digit word.now }
{
    word.iter().all(|b| b.is_ascii_digit())
}

fn has_leading_zero(word: &[u8]) -> bool
    ensures { result ≡ reading.has_leading_zero word.now }
{
    word.len() > 1 && word[0] == b'0'
}

/// The number of 64 bits that a word says.
pub fn large_at(word: &str) -> Option<u64>
    ensures { result ≡ number_at 64 word.now }
{
    if has_leading_zero(word.as_bytes()) || !are_digits(word.as_bytes()) {
        return None;
    }
    word.parse::<u64>().ok()
}

/// The number of 32 bits that a word says.
pub fn small_at(word: &str) -> Option<u32>
    ensures { result ≡ number_at 32 word.now }
{
    let number = large_at(word)?;
    if number <= u64::from(u32::MAX) {
        Some(number as u32)
    } else {
        None
    }
}
