//! A text, cut into pieces at one byte.

ghost use Rattle.std.specs.Prelude.{◌≡◌, drop, slice_get};
ghost use Rattle.std.specs.Option.{option_map};
ghost use Rattle.spy_words.specs.Reading.{IsFirstPlace, parts};

use std::marker::Model;

/// The pieces of a text that are still to come.
#[derive(Drop)]
pub struct Pieces<'a> {
    byte: u8,
    rest: Option<&'a [u8]>,
}

impl<'a> Model for Pieces<'a> {
    ghost use Rattle.std.specs.Prelude.{List, [], ℕ};
    ghost use Rattle.std.specs.Option.{option_map_or};
    ghost use Rattle.spy_words.specs.Reading.{parts};

    ghost Value = { List (List ℕ) };

    ghost view = { λ p. option_map_or (λ text. parts p.byte text.now) p.rest [] };
}

/// The first place of a byte. The words of a line are short, so they are searched byte by byte.
#[inline]
fn first_place(byte: u8, text: &[u8]) -> Option<usize>
    ensures { IsFirstPlace byte text.now result }
{
    for k in 0..text.len() {
        if text[k] == byte {
            return Some(k);
        }
    }
    None
}

impl<'a> Pieces<'a> {
    /// The pieces of a text, cut at each such byte.
    pub fn of(text: &'a [u8], byte: u8) -> Pieces<'a>
        ensures { result ≡ parts byte text.now }
    {
        Pieces {
            byte,
            rest: Some(text),
        }
    }

    /// The next piece.
    pub fn next(&mut self) -> Option<&'a [u8]>
        ensures piece { option_map (λ piece. piece.now) result ≡ slice_get self.old 0 }
        ensures rest { self.new ≡ drop 1 self.old }
    {
        let text = self.rest?;
        let Some(end) = first_place(self.byte, text) else {
            self.rest = None;
            return Some(text);
        };
        self.rest = Some(&text[end + 1..]);
        Some(&text[..end])
    }
}
