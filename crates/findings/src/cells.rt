//! The lines of a report, word by word.

ghost use Rattle.std.specs.Prelude.{◌≡◌, List, ◌∷◌, map, codes, if◌then◌else◌};
ghost use Rattle.std.specs.List.{AllByRecursion};
ghost use Rattle.value_terms.specs.Values.{IsHeld};
ghost use Rattle.findings.specs.declared.cells.ReportCell.TheVariants as cells;
ghost use Rattle.findings.specs.Cells.{with_cell, words_in};
ghost use Rattle.findings.specs.Texts.{Line, Word, dep_line, kind_text, link_line, own_line, says, small, spare_line, Fits, IsInRange};

use crate::cells::ReportCell::*;
use crate::finding::{Dep, Finding, WhyAsk, WhyKind, WhyLink};
use spy_grammar::Code;
use value_terms::Value;

/// A word of a report, no word, or several words.
#[derive(Clone, Copy)]
pub enum ReportCell<'a> {
    No,
    Says(&'a [u8]),
    Small(u32),
    Large(u64),
    Names(Code),
    /// A word, and the number that it tells of.
    Numbered(&'a [u8], u32),
    /// All the events of a cycle.
    Events(&'a [u32]),
    /// A point and a field.
    At(u64, u32),
    /// The value that was read, and the one that the sequential program reads.
    Differs(&'a Value, &'a Value),
}

/// The first word of a line, and the words after it.
pub type Words<'a> = (&'static [u8], [ReportCell<'a>; 6]);

/// A line that a report lists beside its own.
pub trait Listed: Copy + Drop {
    /// The line.
    ghost line: { Self → Line };

    /// Its words. Rust's types keep each number in its range.
    fn words(self) -> Words<'static>
        ensures name { result.0.now ≡ (line self).name }
        ensures row { words_in result.1 ≡ (line self).row }
        ensures fits { Fits (line self) };
}

/// The line of a pair of items.
impl Listed for Dep {
    ghost line = { dep_line };

    #[rattlefmt::skip]
    fn words(self) -> Words<'static> {
        let Dep { before, a, b, tree, point, field } = self;
        let row = [Small(a), Small(b), Says(b"tree"), Small(tree), At(point, field), No];
        (if before { b"before" } else { b"turn" }, row)
    }
}

/// The line of a wait that others imply.
impl Listed for (u32, u32) {
    ghost line = { spare_line };

    fn words(self) -> Words<'static> {
        let (node, wait) = self;
        (b"spare", [Small(node), Small(wait), No, No, No, No])
    }
}

/// How a value came into an instance, in a word.
fn kind_text(kind: WhyKind) -> &'static [u8]
    ensures { result.now ≡ kind_text kind }
{
    match kind {
        WhyKind::Write => b"write",
        WhyKind::Put => b"put",
        WhyKind::Copy => b"copy",
        WhyKind::Start => b"start",
    }
}

/// The line of a link.
impl Listed for WhyLink {
    ghost line = { link_line };

    #[rattlefmt::skip]
    fn words(self) -> Words<'static> {
        let WhyLink { kind, done, inst, adds } = self;
        let event = match kind {
            WhyKind::Start => No,
            _ => Small(done),
        };
        (kind_text(kind), [event, Says(b"inst"), Small(inst), Says(b"adds"), Small(adds), No])
    }
}

/// Events, each a word.
fn event_words(events: &[u32]) -> [ReportCell<'_>; 6]
    ensures words { words_in result ≡ map small events.now }
    ensures fits { AllByRecursion IsInRange (map small events.now) }
{
    [Events(events), No, No, No, No, No]
}

/// Two values that differ, as cells of a line: each is one that the program holds.
fn differing<'a>(got: &'a Value, want: &'a Value) -> ReportCell<'a>
    ensures cell { result ≡ cells.Differs got.entry want.entry }
    ensures got { IsHeld got.now }
    ensures want { IsHeld want.now }
{
    got.rules();
    want.rules();
    Differs(got, want)
}

/// A child of a group, as a cell of a line: a task, if `leaf`, or a group.
fn child_cell<'a>(leaf: bool, child: u32) -> ReportCell<'a>
    ensures { (ws : List Word) → with_cell result ws
        ≡ says (if leaf then codes "task" else codes "group") ∷ small child ∷ ws }
{
    if leaf {
        Numbered(b"task", child)
    } else {
        Numbered(b"group", child)
    }
}

/// A report's own line.
#[rattlefmt::skip]
pub fn own_words(f: &Finding) -> Words<'_>
    ensures name { result.0.now ≡ (own_line f.now).name }
    ensures row { words_in result.1 ≡ (own_line f.now).row }
    ensures fits { Fits (own_line f.now) }
{
    match f {
        Finding::Accepted { tasks, operations, reads } => (b"accepted", [Says(b"tasks"), Small(*tasks), Says(b"operations"), Small(*operations), Says(b"reads"), Large(*reads)]),
        Finding::Ordered { tasks, pairs } => (b"ordered", [Says(b"tasks"), Small(*tasks), Says(b"pairs"), Large(*pairs), No, No]),
        Finding::Deps { list: _, items, before, turn } => (b"deps", [Says(b"items"), Small(*items), Says(b"before"), Large(*before), Says(b"turn"), Large(*turn)]),
        Finding::Spare { list, waits } => (b"spare", [Says(b"waits"), Large(list.len() as u64), Says(b"of"), Large(*waits), No, No]),
        Finding::Nested { tasks, groups, free } => (b"nested", [Says(b"tasks"), Small(*tasks), Says(b"groups"), Small(*groups), Says(b"free"), Large(*free)]),
        Finding::Cycle { events } => (b"cycle", event_words(events.as_slice())),
        Finding::Race { a, b, inst, point, field } => (b"race", [Small(*a), Small(*b), Says(b"inst"), Small(*inst), At(*point, *field), No]),
        Finding::Unordered { t, u, tree, point, field } => (b"unordered", [Small(*t), Small(*u), Says(b"tree"), Small(*tree), At(*point, *field), No]),
        Finding::Differ { task, req, point, field, got, want } => (b"differ", [Says(b"task"), Small(*task), Says(b"req"), Small(*req), At(*point, *field), differing(got, want)]),
        Finding::NoRead { task, req, point, field } => (b"no", [Says(b"read"), Says(b"task"), Small(*task), Says(b"req"), Small(*req), At(*point, *field)]),
        Finding::Unlicensed { leaf, child, req, group, tree, point, field } => (b"unlicensed", [child_cell(*leaf, *child), Numbered(b"req", *req), Numbered(b"group", *group), Numbered(b"tree", *tree), At(*point, *field), No]),
        Finding::Why { ask: WhyAsk { task, req, point, field }, links: _ } => (b"why", [Says(b"task"), Small(*task), Says(b"req"), Small(*req), At(*point, *field), No]),
        Finding::Fault { line, code } => (b"fault", [Small(*line), Names(*code), No, No, No, No]),
        Finding::Usage => (b"usage", [No, No, No, No, No, No]),
        Finding::CannotRead => (b"cannot", [Says(b"read"), No, No, No, No, No]),
    }
}
