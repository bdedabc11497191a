//! What words ask for.

ghost use Rattle.std.specs.Prelude.{◌≡◌, ◌∷◌, IfOk, IfSome, codes, map, string_bytes};
ghost use Rattle.spy_args.specs.declared.request.Request.TheVariants.{Demo};
ghost use Rattle.spy_args.specs.CommandLine.{given_words, word_text, texts_of};
ghost use Rattle.spy_args.specs.Asked as says;
ghost use Rattle.spy_args.specs.Asked.{IsSized, ask_in, asked, plain_request, request_of, size_at};

use crate::command_line::{CommandWords, given};
use crate::numbers::{large_at, small_at};
use crate::request::Request;
use semantics::{Ask, Command};
use spy_io::Memory;
use spy_words::number_of;
use std::alloc::{AllocError, Global};

/// The greatest size.
const MOST_PIECES: u32 = 500;

/// The size that a word says.
#[tactic(auto, unfolding(spy_words::specs::Reading::number_from))]
fn size_of(word: &[u8]) -> Option<u32>
    ensures size { result ≡ size_at word.now }
    ensures sized { IfSome result (λ size. IsSized (Demo size)) }
{
    if word.len() > 3 {
        return None;
    }
    match number_of(1, word) {
        Ok(size) if size <= MOST_PIECES => Some(size),
        _ => None,
    }
}

/// The commands without a size: the word of each, and what it asks for.
const PLAIN_WORDS: [(&[u8], Request); 8] = [
    (b"check", Request::Judge(Command::Check)),
    (b"ordered", Request::Judge(Command::Ordered)),
    (b"deps", Request::Judge(Command::Deps)),
    (b"spare", Request::Judge(Command::Spare)),
    (b"print", Request::Print),
    (b"expand", Request::Expand),
    (b"launched", Request::Launched),
    (b"nested", Request::Nested),
];

/// What a word asks for by such a table.
fn request_among(mut table: &[(&[u8], Request)], word: &[u8]) -> Option<Request>
    ensures { result ≡ says.request_among (map (λ row. (row.0.now, row.1)) table.entry.now) word.now }
{
    while let [row, rest @ ..] = table {
        if word == row.0 {
            return Some(row.1);
        }
        table = rest;
    }
    None
}

/// What a command without a size asks for.
fn plain(command: &str) -> Option<Request>
    ensures request { result ≡ plain_request command.now }
    ensures sized { IfSome result IsSized }
{
    request_among(&PLAIN_WORDS, command.as_bytes())
}

/// What a command without a read asks for, with a size or without.
fn sized_request(command: &str, size: Option<&str>) -> Option<Request>
    ensures request { result ≡ says.sized_request command.now (word_text size.entry) }
    ensures sized { IfSome result IsSized }
{
    match size {
        None => plain(command),
        Some(size) => {
            if command == "demo" {
                let size = size_of(size.as_bytes())?;
                Some(Request::Demo { size })
            } else {
                None
            }
        }
    }
}

/// The read that words say, if all four are there.
fn ask_in(given: &CommandWords<'_>) -> Option<Ask>
    ensures { result ≡ ask_in (given_words given.now) }
{
    Some(Ask {
        task: small_at(given.task?)?,
        req: small_at(given.req?)?,
        point: large_at(given.point?)?,
        field: small_at(given.field?)?,
    })
}

/// What `why` asks for: it has a read, and no size.
fn why_request(given: &CommandWords<'_>) -> Option<Request>
    ensures { result ≡ says.why_request (given_words given.now) }
{
    if given.size.is_some() {
        return None;
    }
    match ask_in(given) {
        Some(ask) => Some(Request::Judge(Command::Why(ask))),
        None => None,
    }
}

/// Whether no word of a read is there.
fn has_no_read(given: &CommandWords<'_>) -> bool
    ensures { result ≡ says.has_no_read (given_words given.now) }
{
    given.task.is_none() && given.req.is_none() && given.point.is_none() && given.field.is_none()
}

/// What a command asks for with its options.
fn request(given: &CommandWords<'_>) -> Option<Request>
    ensures request { result ≡ request_of (given_words given.now) }
    ensures sized { IfSome result IsSized }
{
    if given.command == "why" {
        why_request(given)
    } else if has_no_read(given) {
        sized_request(given.command, given.size)
    } else {
        None
    }
}

/// The words with the program's name before them.
fn program_words<'a>(alloc: Global, words: &'a Vec<String>) -> Result<Vec<&'a str>, AllocError>
    ensures { IfOk result (λ all. texts_of all.items ≡ codes "spy" ∷ map string_bytes words.now.items) }
{
    let mut all: Vec<&str> = Vec::new(alloc);
    all.push("spy")?;
    for word in words {
        all.push(word.as_str())?;
    }
    Ok(all)
}

/// What the words ask for, if they are taken. They do not hold the program's name.
pub fn request_in(alloc: Global, words: &Vec<String>) -> Result<Option<Request>, Memory>
    ensures asked { IfOk result (λ r. r ≡ asked (map string_bytes words.now.items)) }
    ensures sized { IfOk result (λ r. IfSome r IsSized) }
{
    let all = program_words(alloc, words)?;
    match given(alloc, &all)? {
        Some(given) => Ok(request(&given)),
        None => Ok(None),
    }
}
