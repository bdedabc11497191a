//! The words of a text, and the numbers that they say.

ghost use Rattle.std.specs.Prelude.{◌≡◌, ◌≤◌, ◌-◌, ◌^◌, map};
ghost use Rattle.report_reading.specs.Numbers as says;

/// The number that digits say, or the greatest where it is greater.
#[tactic(auto, unfolding(crate::specs::Numbers::number_of))]
pub fn number_of(greatest: u64, word: &[u8]) -> u64
    ensures value { result ≡ says.number_of greatest word.now }
    ensures bound { result ≤ greatest }
{
    let mut value = 0u64;
    let mut rest = word;
    while let [b, more @ ..] = rest {
        let next = u128::from(value) * 10 + u128::from(b.saturating_sub(b'0'));
        value = next.min(u128::from(greatest)) as u64;
        rest = more;
    }
    value
}

/// The number of 32 bits that a word says.
pub fn small_number(word: &[u8]) -> u32
    ensures { result ≡ says.number_of (2 ^ 32 - 1) word.now }
{
    number_of(u64::from(u32::MAX), word) as u32
}

/// The word at a place. Past the last it is the empty word.
pub fn word_at<'a>(words: &[&'a [u8]], k: usize) -> &'a [u8]
    ensures { result.now ≡ says.word_at (map (λ w. w.now) words.now) k }
{
    match words.get(k) {
        Some(word) => word,
        None => b"",
    }
}

pub fn small_at(words: &[&[u8]], k: usize) -> u32
    ensures { result ≡ says.small_at (map (λ w. w.now) words.now) k }
{
    small_number(word_at(words, k))
}

pub fn large_at(words: &[&[u8]], k: usize) -> u64
    ensures { result ≡ says.large_at (map (λ w. w.now) words.now) k }
{
    number_of(u64::MAX, word_at(words, k))
}
