//! A record, written, and whether it has a spelling.

ghost use Rattle.std.specs.Prelude.{◌≡◌, ◌↔◌, ◌++◌, ◌∷◌, [], IsTrue, IfOk, OnOk};
ghost use Rattle.std.specs.List.{AllByRecursion};
ghost use Rattle.spy_words.specs.Classes.{IsQuad, IsSpan, follow};
ghost use Rattle.spy_grammar.specs.Cells.{items_in, with_cell};
ghost use Rattle.spy_grammar.specs.Spelling.{Good, IsGoodItem, spelling, words_in};

use crate::cells::WordCell::*;
use crate::cells::{WordCell, cells_of};
use crate::kinds::name_text;
use crate::record::Record;
use memory::Memory;
use spy_words::{
    InstKind, ListPart, PrivWord, Quad, are_fit, ascend, coherence_text, push_access, push_after,
    push_layout, push_list, push_u64, split_text,
};
use std::alloc::{AllocError, Global};

/// Whether each run of points goes upward.
#[tactic(auto, using(spy_words::proofs::lemmas::ClassLaws::spans_from_zero))]
fn are_spans(set: &[(u64, u64)]) -> bool
    ensures { IsTrue result ↔ AllByRecursion IsSpan set.now }
{
    are_fit(0, set)
}

/// Whether the columns and the rows of each rectangle go upward.
#[tactic(auto, using(spy_words::proofs::lemmas::ClassLaws::quads_from_zero))]
fn are_quads(rects: &[Quad]) -> bool
    ensures { IsTrue result ↔ AllByRecursion IsQuad rects.now }
{
    are_fit(0, rects)
}

fn is_good(cell: &WordCell<'_>) -> bool
    ensures { IsTrue result ↔ AllByRecursion IsGoodItem (with_cell cell.now []) }
{
    match *cell {
        No | Split(_) | Coherence(_) => true,
        Number(n) => n.is_fit(0),
        Id(n) => n.is_fit(1),
        Points(set) => are_spans(set.as_slice()) && ascend(set.as_slice()),
        Plane(rects) => {
            let rects = rects.as_slice();
            !rects.is_empty() && are_quads(rects) && ascend(rects)
        }
        Fields(numbers) => {
            let numbers = numbers.as_slice();
            !numbers.is_empty() && are_fit(0, numbers) && ascend(numbers)
        }
        Waits(numbers) => are_fit(1, numbers.as_slice()),
        Access(PrivWord::Red(operator)) | Layout(InstKind::Red(operator)) => operator.is_fit(1),
        Access(_) | Layout(_) => true,
        Ids(numbers) => !numbers.as_slice().is_empty() && are_fit(1, numbers.as_slice()),
    }
}

/// Whether the record has a spelling: its ids and events are at least 1, and its lists ascend.
pub fn good(rec: &Record) -> bool
    ensures { IsTrue result ↔ Good rec.now }
{
    let (_, cells) = cells_of(rec);
    all_good(&cells)
}

fn all_good(cells: &[WordCell<'_>]) -> bool
    ensures { IsTrue result ↔ AllByRecursion IsGoodItem (items_in cells.now) }
{
    let mut rest = cells;
    while let [cell, more @ ..] = rest {
        if !is_good(cell) {
            return false;
        }
        rest = more;
    }
    true
}

fn push_word(out: &mut Vec<u8>, cell: &WordCell<'_>) -> Result<(), AllocError>
    ensures { OnOk result (out.new.items ≡ out.old.items ++ follow 32 (words_in (with_cell cell.now []))) }
{
    match *cell {
        No => return Ok(()),
        Ids(numbers) => return push_after(out, b' ', numbers.as_slice()),
        _ => out.push(b' ')?,
    }
    match *cell {
        Number(n) | Id(n) => push_u64(out, u64::from(n)),
        Points(set) => push_list(out, set.as_slice()),
        Plane(rects) => push_list(out, rects.as_slice()),
        Fields(numbers) | Waits(numbers) => push_list(out, numbers.as_slice()),
        Split(disjoint) => out.extend_from_slice(split_text(disjoint)),
        Access(access) => push_access(out, access),
        Coherence(atomic) => out.extend_from_slice(coherence_text(atomic)),
        Layout(layout) => push_layout(out, layout),
        No | Ids(_) => Ok(()),
    }
}

fn push_words(out: &mut Vec<u8>, cells: &[WordCell<'_>]) -> Result<(), AllocError>
    ensures { OnOk result (out.new.items ≡ out.old.items ++ follow 32 (words_in (items_in cells.now))) }
{
    let mut rest = cells;
    while let [cell, more @ ..] = rest {
        push_word(out, cell)?;
        rest = more;
    }
    Ok(())
}

/// The text, and after it the record's line with its line feed.
#[tactic(auto, using(crate::proofs::CellLaws::spelled, std::proofs::Common::append_assoc))]
pub fn with_line(text: Vec<u8>, rec: &Record) -> Result<Vec<u8>, Memory>
    // Another record's line would not be read again.
    requires { Good rec.now }
    ensures { IfOk result (λ longer. longer.items ≡ text.items ++ spelling rec.now ++ 10 ∷ []) }
{
    let mut out = text;
    let (kind, cells) = cells_of(rec);
    out.extend_from_slice(name_text(kind))?;
    push_words(&mut out, &cells)?;
    out.extend_from_slice(b"\n")?;
    Ok(out)
}

/// The record's line, with its line feed.
pub fn write_record(alloc: Global, rec: &Record) -> Result<Vec<u8>, Memory>
    requires { Good rec.now }
    ensures { IfOk result (λ line. line.items ≡ spelling rec.now ++ 10 ∷ []) }
{
    with_line(Vec::new(alloc), rec)
}
