//! A report, written, and whether it has a text.

ghost use Rattle.std.specs.Prelude.{◌≡◌, ◌↔◌, ◌++◌, ◌∷◌, [], ◌≤◌, not, map, length, count_by, IsTrue, IfOk, OnOk};
ghost use Rattle.std.specs.List.{AllByRecursion};
ghost use Rattle.findings.specs.declared.cells.ReportCell.TheVariants as cells;
ghost use Rattle.findings.specs.declared.finding.Finding.TheVariants as findings;
ghost use Rattle.findings.specs.Cells.{with_cell, words_in};
ghost use Rattle.findings.specs.Texts as texts;
ghost use Rattle.findings.specs.Texts.{small, row_text, line_text, lines_text, Fits, IsWhole, Good};

use crate::cells::ReportCell::*;
use crate::cells::{Listed, ReportCell, own_words};
use crate::codes;
use crate::finding::{Dep, Finding, WhyKind, WhyLink};
use crate::value_text::push_value;
use memory::Memory;
use spy_words::push_u64;
use std::alloc::{AllocError, Global};
use value_terms::Value;

/// The law of listed lines: each of their numbers lies in the range of its type. Rust's types see to that, and a proof learns of it where the numbers are read.
pub fn lines_fit<L: Listed>(lines: &[L])
    ensures { AllByRecursion Fits (map L.line lines.now) }
{
    let mut rest = lines;
    while let [line, more @ ..] = rest {
        let _words = line.words();
        rest = more;
    }
}

/// Whether it is so with the lines that a report lists.
fn listed_fit(f: &Finding) -> bool
    ensures { IsTrue result ↔ AllByRecursion Fits (texts.listed_lines f.now) }
{
    match f {
        Finding::Deps { list, .. } => lines_fit(list.as_slice()),
        Finding::Spare { list, .. } => lines_fit(list.as_slice()),
        Finding::Why { links, .. } => lines_fit(links.as_slice()),
        _ => {}
    }
    true
}

/// The same of all its lines.
fn fits(f: &Finding) -> bool
    ensures { IsTrue result ↔ AllByRecursion Fits (texts.lines_of f.now) }
{
    let _own = own_words(f);
    listed_fit(f)
}

/// How many pairs have a fixed order.
pub fn count_before(deps: &[Dep]) -> u64
    ensures count { result ≡ count_by (λ d. d.before) deps.now }
    ensures few { result ≤ length deps.now }
{
    deps.iter().filter(|dep| dep.before).count() as u64
}

/// How many pairs take turns.
fn count_turn(deps: &[Dep]) -> u64
    ensures { result ≡ count_by (λ d. not d.before) deps.now }
{
    deps.iter().filter(|dep| !dep.before).count() as u64
}

/// Whether the start alone has no event.
fn has_its_event(link: &WhyLink) -> bool
    ensures { result ≡ texts.has_its_event link.now }
{
    match link.kind {
        WhyKind::Start => link.done == 0,
        _ => link.done != 0,
    }
}

/// Whether all links but the last are copies, and the last is none.
fn is_chain(links: &[WhyLink]) -> bool
    ensures { result ≡ texts.is_chain links.now }
{
    let mut rest = links;
    while let [link, more @ ..] = rest {
        if !has_its_event(link) {
            return false;
        }
        match link.kind {
            WhyKind::Copy => rest = more,
            _ => return more.is_empty(),
        }
    }
    false
}

/// Whether the report counts right what it lists, and lists no more waits than there are; a cycle has an event; and links are a chain.
fn is_whole(f: &Finding) -> bool
    ensures { IsTrue result ↔ IsWhole f.now }
{
    match f {
        Finding::Deps {
            list,
            before,
            turn,
            ..
        } => {
            let deps = list.as_slice();
            count_before(deps) == *before && count_turn(deps) == *turn
        }
        Finding::Spare { list, waits } => list.len() as u64 <= *waits,
        Finding::Cycle { events } => events.len() > 0,
        Finding::Why { links, .. } => is_chain(links.as_slice()),
        _ => true,
    }
}

/// Whether the report has a text: `Deps` counts right what it lists, `Spare` lists at most as many waits as there are, a `Cycle` has an event, and the links of `Why` are a chain.
pub fn good_finding(f: &Finding) -> bool
    ensures { IsTrue result ↔ Good f.now }
{
    fits(f) && is_whole(f)
}

fn push_events(out: &mut Vec<u8>, events: &[u32]) -> Result<(), AllocError>
    ensures { OnOk result (out.new.items ≡ out.old.items ++ row_text (map small events.now)) }
{
    let mut rest = events;
    while let [event, more @ ..] = rest {
        out.push(b' ')?;
        push_u64(out, u64::from(*event))?;
        rest = more;
    }
    Ok(())
}

fn push_numbered(out: &mut Vec<u8>, word: &[u8], n: u32) -> Result<(), AllocError>
    ensures { OnOk result (out.new.items ≡ out.old.items
        ++ row_text (with_cell (cells.Numbered word.entry n) [])) }
{
    out.push(b' ')?;
    out.extend_from_slice(word)?;
    out.push(b' ')?;
    push_u64(out, u64::from(n))
}

fn push_place(out: &mut Vec<u8>, point: u64, field: u32) -> Result<(), AllocError>
    ensures { OnOk result (out.new.items ≡ out.old.items ++ row_text (with_cell (cells.At point field) [])) }
{
    out.extend_from_slice(b" point ")?;
    push_u64(out, point)?;
    out.extend_from_slice(b" field ")?;
    push_u64(out, u64::from(field))
}

fn push_values(out: &mut Vec<u8>, got: &Value, want: &Value) -> Result<(), AllocError>
    ensures { OnOk result (out.new.items ≡ out.old.items
        ++ row_text (with_cell (cells.Differs got.entry want.entry) [])) }
{
    out.extend_from_slice(b" got ")?;
    push_value(out, got)?;
    out.extend_from_slice(b" want ")?;
    push_value(out, want)
}

fn push_cell(out: &mut Vec<u8>, cell: &ReportCell<'_>) -> Result<(), AllocError>
    ensures { OnOk result (out.new.items ≡ out.old.items ++ row_text (with_cell cell.now [])) }
{
    match *cell {
        No => return Ok(()),
        Events(events) => return push_events(out, events),
        Numbered(word, n) => return push_numbered(out, word, n),
        At(point, field) => return push_place(out, point, field),
        Differs(got, want) => return push_values(out, got, want),
        _ => out.push(b' ')?,
    }
    match *cell {
        Says(word) => out.extend_from_slice(word),
        Small(n) => push_u64(out, u64::from(n)),
        Large(n) => push_u64(out, n),
        Names(code) => out.extend_from_slice(codes::code_text(code)),
        No | Numbered(..) | Events(_) | At(..) | Differs(..) => Ok(()),
    }
}

fn push_row(out: &mut Vec<u8>, row: &[ReportCell<'_>]) -> Result<(), AllocError>
    ensures { OnOk result (out.new.items ≡ out.old.items ++ row_text (words_in row.now)) }
{
    let mut rest = row;
    while let [cell, more @ ..] = rest {
        push_cell(out, cell)?;
        rest = more;
    }
    Ok(())
}

fn push_line(out: &mut Vec<u8>, name: &[u8], row: &[ReportCell<'_>]) -> Result<(), AllocError>
    ensures { OnOk result (out.new.items ≡ out.old.items ++ (name.now ++ row_text (words_in row.now))
        ++ 10 ∷ []) }
{
    out.extend_from_slice(name)?;
    push_row(out, row)?;
    out.extend_from_slice(b"\n")
}

fn push_listed_line<L: Listed>(out: &mut Vec<u8>, line: L) -> Result<(), AllocError>
    ensures { OnOk result (out.new.items ≡ out.old.items ++ line_text (L.line line) ++ 10 ∷ []) }
{
    let (name, row) = line.words();
    push_line(out, name, &row)
}

fn push_lines<L: Listed>(out: &mut Vec<u8>, lines: &[L]) -> Result<(), AllocError>
    ensures { OnOk result (out.new.items ≡ out.old.items ++ lines_text (map L.line lines.now)) }
{
    let mut rest = lines;
    while let [line, more @ ..] = rest {
        push_listed_line(out, *line)?;
        rest = more;
    }
    Ok(())
}

/// Writes the lines that a report lists.
fn push_listed(out: &mut Vec<u8>, f: &Finding) -> Result<(), AllocError>
    ensures { OnOk result (out.new.items ≡ out.old.items ++ lines_text (texts.listed_lines f.now)) }
{
    match f {
        Finding::Deps { list, .. } => push_lines(out, list.as_slice()),
        Finding::Spare { list, .. } => push_lines(out, list.as_slice()),
        Finding::Why { links, .. } => push_lines(out, links.as_slice()),
        _ => Ok(()),
    }
}

/// Writes a report's own line.
fn push_own(out: &mut Vec<u8>, f: &Finding) -> Result<(), AllocError>
    ensures { OnOk result (out.new.items ≡ out.old.items ++ line_text (texts.own_line f.now) ++ 10 ∷ []) }
{
    let (name, row) = own_words(f);
    push_line(out, name, &row)
}

/// Whether a report's own line stands before those that it lists.
fn is_headed(f: &Finding) -> bool
    ensures { result ≡ texts.is_headed f.now }
{
    match f {
        Finding::Why { .. } => true,
        _ => false,
    }
}

fn push_report(out: &mut Vec<u8>, f: &Finding) -> Result<(), AllocError>
    ensures { OnOk result (out.new.items ≡ out.old.items ++ lines_text (texts.lines_of f.now)) }
{
    if is_headed(f) {
        push_own(out, f)?;
        push_listed(out, f)
    } else {
        push_listed(out, f)?;
        push_own(out, f)
    }
}

/// The text of a report.
#[tactic(auto, unfolding(crate::specs::Texts::report_text))]
pub fn text(alloc: Global, f: &Finding) -> Result<Vec<u8>, Memory>
    // Another report's text would not be read again.
    requires { Good f.now }
    ensures { IfOk result (λ v. v.items ≡ texts.report_text f.now) }
{
    let mut out = Vec::new(alloc);
    push_report(&mut out, f)?;
    Ok(out)
}

/// The text of `Usage`, for those who write it without taking memory.
#[tactic(auto, unfolding(crate::specs::Texts::report_text))]
pub fn usage_text() -> &'static [u8]
    ensures { result.now ≡ texts.report_text findings.Usage }
{
    b"usage\n"
}

/// The text of `CannotRead`, likewise.
#[tactic(auto, unfolding(crate::specs::Texts::report_text))]
pub fn cannot_read_text() -> &'static [u8]
    ensures { result.now ≡ texts.report_text findings.CannotRead }
{
    b"cannot read\n"
}
