//! One record more.

ghost use Rattle.std.specs.Prelude.{◌≡◌, ◌<◌, ◌≤◌, ◌+◌, ◌-◌, ◌^◌, length, map, OnOk, IfOk, OnErr};
ghost use Rattle.vocabulary.specs.Prelude.{with_record, with_space, privilege_of, coherence_of, rect_of, strip};
ghost use Rattle.log_tables.specs.Views as views;
ghost use Rattle.log_tables.specs.Views.{Ascends, IsOfSpaces, IsOfRegions, IsOfItems, IsOfInsts, IsOfNodes};
ghost use Rattle.spy_grammar.specs.declared.record.Record.TheVariants as records;
ghost use Rattle.std.specs.List.Sorted.{IsStrictlyIncreasing};
ghost use Rattle.point_set.specs.Rects.{AreRects, rect_points};

use crate::entries::Space;
use crate::tables::LogTables;
use arena_sets::{ArenaRects, Memory};
use bumpalo::Bump;
use point_set::Rect;
use privilege::{Coherence, Priv};
use semantics::{Inst, ItemBody, Op, Part, Req, Sub};
use spy_grammar::Record;
use spy_words::{Nums, PrivWord, Quad};
use std::alloc::{AllocError, Global};

/// The privilege that a word spells.
pub fn priv_of(word: PrivWord) -> Priv
    ensures { result ≡ privilege_of word }
{
    match word {
        PrivWord::Ro => Priv::Ro,
        PrivWord::Rw => Priv::Rw,
        PrivWord::Wd => Priv::Wd,
        PrivWord::Red(op) => Priv::Red(op),
    }
}

/// The coherence, by whether it is atomic.
fn coherence_word(atomic: bool) -> Coherence
    ensures { result ≡ coherence_of atomic }
{
    if atomic {
        Coherence::Atomic
    } else {
        Coherence::Exclusive
    }
}

/// What a record does to data: a copy, a put, a reset or a fold, whose fields are copied.
fn op_on_data(alloc: Global, rec: &Record) -> Result<Op, AllocError>
    ensures { IfOk result (λ op. op ≡ views.op_on_data rec.now) }
{
    match rec {
        Record::Copy {
            src,
            dst,
            space,
            fields,
            ..
        } => Ok(Op::Copy {
            src: *src,
            dst: *dst,
            space: *space,
            fields: Nums::from_slice(alloc, fields.as_slice())?,
        }),
        Record::Put {
            inst,
            space,
            fields,
            n,
            ..
        } => Ok(Op::Put {
            inst: *inst,
            space: *space,
            fields: Nums::from_slice(alloc, fields.as_slice())?,
            n: *n,
        }),
        Record::Reset {
            inst,
            space,
            fields,
            ..
        } => Ok(Op::Reset {
            inst: *inst,
            space: *space,
            fields: Nums::from_slice(alloc, fields.as_slice())?,
        }),
        Record::Fold {
            src,
            dst,
            space,
            fields,
            ..
        } => Ok(Op::Fold {
            src: *src,
            dst: *dst,
            space: *space,
            fields: Nums::from_slice(alloc, fields.as_slice())?,
        }),
        _ => Ok(Op::Merge),
    }
}

/// Runs of points, as rectangles of the first column.
pub fn strips_of(alloc: Global, runs: &[(u64, u64)]) -> Result<Vec<Rect>, AllocError>
    requires { AreRects (map strip runs.now) }
    ensures { IfOk result (λ rects. rects.items ≡ map strip runs.now) }
{
    let mut rects = Vec::with_capacity(alloc, runs.len())?;
    for run in runs {
        rects.push(Rect {
            x0: 0,
            x1: 0,
            y0: run.0 as u32,
            y1: run.1 as u32,
        })?;
    }
    Ok(rects)
}

/// The rectangles that a line spells.
pub fn rects_of(alloc: Global, quads: &[Quad]) -> Result<Vec<Rect>, AllocError>
    ensures { IfOk result (λ rects. rects.items ≡ map rect_of quads.now) }
{
    let mut rects = Vec::with_capacity(alloc, quads.len())?;
    for quad in quads {
        rects.push(Rect {
            x0: quad.x0,
            x1: quad.x1,
            y0: quad.y0,
            y1: quad.y1,
        })?;
    }
    Ok(rects)
}

/// The set of these rectangles, in the arena.
fn placed<'a, P: ArenaRects<'a>>(bump: &'a Bump, rects: &[Rect]) -> Result<P, Memory>
    requires { AreRects rects.now }
    ensures { IfOk result (λ set. P.points set ≡ rect_points rects.now) }
{
    let set = P::place_rects(bump, rects)?;
    Ok(set)
}

impl<'a, P: ArenaRects<'a>> LogTables<P> {
    /// One space more, whose set is placed in the arena.
    fn add_rects(&mut self, bump: &'a Bump, id: u32, rects: &[Rect]) -> Result<(), Memory>
        requires { AreRects rects.now }
        ensures ok { OnOk result (self.new ≡ with_space self.old id (rect_points rects.now) rects.now) }
        ensures err { OnErr result (self.new ≡ self.old) }
    {
        let set = placed(bump, rects)?;
        let before = self.rects.len();
        self.rects.extend_from_slice(rects)?;
        if let Err(end) = self.regions.add_space(Space { id, set }) {
            // No space has these rectangles.
            self.rects.truncate(before);
            return Err(end.into());
        }
        Ok(())
    }

    /// What a record on a space declares.
    #[tactic(auto, using(semantics::proofs::lemmas::InOrder::points_of_strips))]
    fn add_space_of(
        &mut self,
        alloc: Global,
        bump: &'a Bump,
        line: u32,
        rec: &Record,
    ) -> Result<(), Memory>
        requires ascends { Ascends rec.now }
        requires kind { IsOfSpaces rec.now }
        ensures ok { OnOk result (self.new ≡ with_record self.old line rec.now) }
        ensures err { OnErr result (self.new ≡ self.old) }
    {
        match rec {
            Record::Ispace { id, set } => {
                let rects = strips_of(alloc, set.as_slice())?;
                self.add_rects(bump, *id, rects.as_slice())
            }
            Record::Plane { id, rects } => {
                let rects = rects_of(alloc, rects.as_slice())?;
                self.add_rects(bump, *id, rects.as_slice())
            }
            _ => Ok(()),
        }
    }

    /// One field space more.
    fn add_field_space_of(
        &mut self,
        alloc: Global,
        line: u32,
        id: u32,
        fields: &Nums,
    ) -> Result<(), AllocError>
        requires { IsStrictlyIncreasing fields.now }
        ensures ok { OnOk result (self.new ≡ with_record self.old line (records.Fields id fields.now)) }
        ensures err { OnErr result (self.new ≡ self.old) }
    {
        let fields = Nums::from_slice(alloc, fields.as_slice())?;
        self.add_field_space(id, fields)
    }

    /// What a record on spaces, partitions, trees and operators declares.
    fn add_region(
        &mut self,
        alloc: Global,
        bump: &'a Bump,
        line: u32,
        rec: &Record,
    ) -> Result<(), Memory>
        requires ascends { Ascends rec.now }
        requires kind { IsOfRegions rec.now }
        ensures ok { OnOk result (self.new ≡ with_record self.old line rec.now) }
        ensures err { OnErr result (self.new ≡ self.old) }
    {
        match rec {
            Record::Ispace { .. } | Record::Plane { .. } => self.add_space_of(
                alloc, bump, line, rec,
            )?,
            Record::Part {
                id,
                space,
                disjoint,
            } => self.regions.add_part(Part {
                id: *id,
                space: *space,
                disjoint: *disjoint,
            })?,
            Record::Sub {
                part,
                colour,
                space,
            } => self.regions.add_sub(Sub {
                part: *part,
                colour: *colour,
                space: *space,
            })?,
            Record::Fields { id, fields } => self.add_field_space_of(alloc, line, *id, fields)?,
            Record::Tree { id, space, fspace } => self.add_tree(*id, *space, *fspace)?,
            Record::Redop { id } => self.add_operator(*id)?,
            _ => {}
        }
        Ok(())
    }

    /// What a record on items declares.
    fn add_of_items(&mut self, alloc: Global, line: u32, rec: &Record) -> Result<(), Memory>
        requires ascends { Ascends rec.now }
        requires few { length self.old.reqs < 2 ^ 32 - 1 }
        requires kind { IsOfItems rec.now }
        ensures ok { OnOk result (self.new ≡ with_record self.old line rec.now) }
        ensures err { OnErr result (self.new ≡ self.old) }
    {
        match rec {
            Record::Task { id } => self.add_item(*id, line, ItemBody::Task)?,
            Record::Req {
                task,
                tree,
                space,
                fields,
                access,
                atomic,
            } => {
                let item = self.place(*task);
                let number = self.req_count(item) as u32 + 1;
                self.add_req(Req {
                    item,
                    number,
                    line,
                    tree: *tree,
                    space: *space,
                    fields: Nums::from_slice(alloc, fields.as_slice())?,
                    access: priv_of(*access),
                    coherence: coherence_word(*atomic),
                })?;
            }
            Record::Fill {
                id,
                tree,
                space,
                fields,
                n,
            } => {
                let body = ItemBody::Fill {
                    tree: *tree,
                    space: *space,
                    fields: Nums::from_slice(alloc, fields.as_slice())?,
                    n: *n,
                };
                self.add_item(*id, line, body)?;
            }
            Record::Serial { items } => {
                let ids = Nums::from_slice(alloc, items.as_slice())?;
                self.add_serial(line, ids)?;
            }
            _ => {}
        }
        Ok(())
    }

    /// What a record on instances declares.
    fn add_of_insts(&mut self, alloc: Global, line: u32, rec: &Record) -> Result<(), Memory>
        requires ascends { Ascends rec.now }
        requires kind { IsOfInsts rec.now }
        ensures ok { OnOk result (self.new ≡ with_record self.old line rec.now) }
        ensures err { OnErr result (self.new ≡ self.old) }
    {
        match rec {
            Record::Inst {
                id,
                tree,
                space,
                fields,
                kind,
            } => {
                self.add_inst(Inst {
                    id: *id,
                    tree: *tree,
                    space: *space,
                    fields: Nums::from_slice(alloc, fields.as_slice())?,
                    kind: *kind,
                })?;
            }
            Record::Map {
                task,
                req,
                fields,
                inst,
            } => {
                let item = self.place(*task);
                let fields = Nums::from_slice(alloc, fields.as_slice())?;
                self.add_map(item, *req, fields, *inst)?;
            }
            _ => {}
        }
        Ok(())
    }

    /// What a record on nodes declares.
    fn add_of_nodes(&mut self, alloc: Global, line: u32, rec: &Record) -> Result<(), Memory>
        requires { IsOfNodes rec.now }
        ensures ok { OnOk result (self.new ≡ with_record self.old line rec.now) }
        ensures err { OnErr result (self.new ≡ self.old) }
    {
        match rec {
            Record::Run { task, done, waits } => {
                let item = self.place(*task);
                let waits = Nums::from_slice(alloc, waits.as_slice())?;
                self.add_node(line, *done, waits, Op::Run { item })?;
            }
            Record::Copy { done, waits, .. }
            | Record::Put { done, waits, .. }
            | Record::Reset { done, waits, .. }
            | Record::Fold { done, waits, .. } => {
                let op = op_on_data(alloc, rec)?;
                let waits = Nums::from_slice(alloc, waits.as_slice())?;
                self.add_node(line, *done, waits, op)?;
            }
            Record::Merge { done, waits } => {
                let waits = Nums::from_slice(alloc, waits.as_slice())?;
                self.add_node(line, *done, waits, Op::Merge)?;
            }
            _ => {}
        }
        Ok(())
    }

    /// What one record more declares.
    pub fn add(
        &mut self,
        alloc: Global,
        bump: &'a Bump,
        line: u32,
        rec: &Record,
    ) -> Result<(), Memory>
        requires ascends { Ascends rec.now }
        requires few { length self.old.reqs < 2 ^ 32 - 1 }
        ensures ok { OnOk result (self.new ≡ with_record self.old line rec.now) }
        ensures err { OnErr result (self.new ≡ self.old) }
        ensures few { OnOk result (length self.new.reqs ≤ length self.old.reqs + 1) }
    {
        match rec {
            Record::Header { version } => {
                self.version = *version;
                Ok(())
            }
            Record::End { .. } => Ok(()),
            Record::Ispace { .. }
            | Record::Plane { .. }
            | Record::Part { .. }
            | Record::Sub { .. }
            | Record::Fields { .. }
            | Record::Tree { .. }
            | Record::Redop { .. } => self.add_region(alloc, bump, line, rec),
            Record::Task { .. }
            | Record::Req { .. }
            | Record::Fill { .. }
            | Record::Serial { .. } => self.add_of_items(alloc, line, rec),
            Record::Inst { .. } | Record::Map { .. } => self.add_of_insts(alloc, line, rec),
            _ => self.add_of_nodes(alloc, line, rec),
        }
    }
}
