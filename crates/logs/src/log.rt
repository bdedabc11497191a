//! The log of a recorded run.

ghost use Rattle.std.specs.Prelude.{◌≡◌, ◌<◌, ◌≤◌, ◌==◌, ◌&&◌, ◌↔◌, map, length, position, slice_get, Some, None, [], IfOk, OnOk, IfErr, IsSome, IfSome, IsTrue, All, MatchOption};
ghost use Rattle.std.specs.List.Sorted.{IsStrictlyIncreasing};
ghost use Rattle.std.specs.Option.{option_and_then, option_copied};
ghost use Rattle.log_tables.specs.Regions.{regions_of, space_of};
ghost use Rattle.region_tree.specs.Paths.{IsPath};
ghost use Rattle.region_tree.specs.Sound.{IsSound};
ghost use Rattle.semantics.specs.SerialOrder.{serial, serial_place};
ghost use Rattle.vocabulary.specs.Prelude.{inst_at, mapped, reqs_before, points_in, req_at};
ghost use Rattle.semantics.specs.Faults.{at_line, unmapped_fault};
ghost use Rattle.spy_grammar.specs.declared.code.Code.TheVariants as codes;
ghost use Rattle.log_laws.specs.Drawn.{AreDrawn};
ghost use Rattle.logs.specs.Faultless.{AreDeclared};
ghost use Rattle.logs.specs.Listing.{item_line, ArePlacesIn};
ghost use Rattle.log_tables.specs.Ascending.{body_fields};
ghost use Rattle.log_tables.specs.Mapped.{inst_mapped};
ghost use Rattle.item_uses.specs.Usages.{usages};

use crate::asked_log::AskedLog;
use crate::found::{Found, found_in};
use crate::log_uses::LogUses;
use crate::mapping::{Unmapped, first_unmapped, inst_mapped};
use bumpalo::Bump;
use log_tables::LogTables;
use point_set::{PointSet, Rect};
use region_tree::{ArenaSet, Forest, Memory, Path};
use semantics::{Inst, Item, LogNode, Req};
use std::alloc::Global;
use std::marker::Model;

/// What a log declares, whose records break no rule of its frame and no rule on single records. Contracts see it as the tables of these records.
#[derive(Drop)]
pub struct Log<'a, P: PointSet + Copy> {
    tables: LogTables<P>,
    found: Found<'a, P>,
    bump: &'a Bump,
}

impl<'a, P: PointSet + Copy> Model for Log<'a, P> {
    ghost use Rattle.std.specs.Prelude.{◌≡◌, ◌<◌, nat_eq, length, IfSome, IsSome};
    ghost use Rattle.std.specs.HashMap.{get};
    ghost use Rattle.vocabulary.specs.Prelude.{Tables};
    ghost use Rattle.log_tables.specs.Regions.{regions_of};
    ghost use Rattle.region_tree.specs.Sound.{IsSound};
    ghost use Rattle.logs.specs.Faultless.{AreDeclared};
    ghost use Rattle.logs.specs.Looked.{AreFound};
    ghost use Rattle.item_uses.specs.Usages.{usages};

    ghost Value = { Tables };

    ghost view = { λ l. l.tables };

    ghost invariant = { λ l. AreDeclared l.tables × IsSound (regions_of l.tables)
        × IfSome l.found.uses (λ u. u ≡ usages l.tables) × (0 < length l.tables.serials → IsSome l.found.uses)
        × AreFound l.tables l.found.space_ids.items l.found.order.items l.found.places.items (get nat_eq l.found.lines) };
}

impl<'a, P: ArenaSet<'a>> Log<'a, P> {
    /// The log whose tables these are.
    pub fn of(alloc: Global, bump: &'a Bump, tables: LogTables<P>) -> Result<Log<'a, P>, Memory>
        requires declared { AreDeclared tables }
        requires sound { IsSound (regions_of tables) }
        ensures { IfOk result (λ log. log ≡ tables) }
    {
        match found_in(alloc, bump, &tables) {
            Ok(found) => Ok(Log {
                tables,
                found,
                bump,
            }),
            Err(memory) => {
                drop(tables);
                Err(memory)
            }
        }
    }

    /// Lets the log go: who owns one then proves no drop of its parts.
    pub fn let_go(self) {
        drop(self.tables);
        drop(self.found);
    }
}

impl<'a, P: PointSet + Copy> Log<'a, P> {
    /// What every log keeps: its tables are those of records that break no rule of a log's frame and no rule on single records.
    pub fn is_declared(&self)
        ensures { AreDeclared self.now }
    {
        let _tables = &self.tables;
    }

    /// The tables, in which more can be looked up.
    pub fn tables(&self) -> &LogTables<P>
        ensures { result.now ≡ self.now }
    {
        &self.tables
    }

    /// The rectangles of the spaces, in the order of their lines. A run of points is one of the first column.
    pub fn rects(&self) -> &[Rect]
        ensures rects { result.now ≡ self.now.rects }
        ensures drawn { AreDrawn self.now }
        ensures points { All (λ r. (r.x0 ≤ r.x1) × (r.y0 ≤ r.y1)) result.now }
    {
        self.tables.rects()
    }

    /// The items, in program order, the order of their lines.
    pub fn items(&self) -> &[Item]
        ensures { result.now ≡ self.now.items }
    {
        self.tables.items()
    }

    /// The law of the fields of fills: they ascend. There is nothing to do.
    pub fn fill_fields_ascend(&self)
        ensures { All (λ i. IsStrictlyIncreasing (body_fields i.body)) self.now.items }
    {
        let _items = self.tables.items();
    }

    /// The requirements, in the order of their lines.
    pub fn reqs(&self) -> &[Req]
        ensures reqs { result.now ≡ self.now.reqs }
        ensures ascend { All (λ r. IsStrictlyIncreasing r.fields) result.now }
    {
        self.tables.reqs()
    }

    /// The instances, in the order of their lines.
    pub fn insts(&self) -> &[Inst]
        ensures { result.now ≡ self.now.insts }
    {
        self.tables.insts()
    }

    /// The nodes of the recorded run, in the order of their lines.
    pub fn nodes(&self) -> &[LogNode]
        ensures { result.now ≡ self.now.nodes }
    {
        self.tables.nodes()
    }

    /// The positions of all items in serial order.
    pub fn serial(&self) -> &[usize]
        ensures { result.now ≡ serial self.now }
    {
        self.found.order.as_slice()
    }

    /// The place of an item in serial order.
    pub fn serial_place(&self, item: usize) -> usize
        requires { item < length self.now.items }
        ensures { result ≡ serial_place self.now item }
    {
        self.found.places[item]
    }

    /// The place of each item in serial order.
    pub fn serial_places(&self) -> &[usize]
        ensures { ArePlacesIn (serial self.now) (length self.now.items) result.now }
    {
        self.found.places.as_slice()
    }

    /// Whether a line lists items in serial order.
    pub fn has_serial(&self) -> bool
        ensures { IsTrue result ↔ (0 < length self.now.serials) }
    {
        !self.tables.serials().is_empty()
    }

    // The first line that lists an item.
    fn line_listing(&self, item: usize) -> Option<u32>
        ensures { result ≡ item_line self.now item }
    {
        let item = self.tables.items().get(item)?;
        self.found.lines.get(&item.id).copied()
    }

    /// The line that lists an item in serial order, or `None` exactly where no line lists items, or there is no such item.
    pub fn serial_line(&self, item: usize) -> Option<u32>
        ensures line { result ≡ item_line self.now item }
        ensures some { IsSome result ↔ ((0 < length self.now.serials) × (item < length self.now.items)) }
    {
        self.is_declared();
        self.line_listing(item)
    }

    /// What the items ask for, made where it is asked. The only error is that memory ran out.
    pub fn uses(&self, alloc: Global) -> Result<LogUses<'a, P>, Memory>
        ensures { IfOk result (λ uses. uses ≡ usages self.now) }
    {
        LogUses::of(alloc, self.bump, &self.tables)
    }

    /// What the items ask for, which is kept of each log whose lines list items in serial order. No memory is taken.
    pub fn listed_uses(&self) -> Option<&LogUses<'a, P>>
        ensures uses { IfSome result (λ uses. uses.now ≡ usages self.now) }
        ensures some { 0 < length self.now.serials → IsSome result }
    {
        match &self.found.uses {
            Some(uses) => Some(uses),
            None => None,
        }
    }

    /// The log with what its items ask for.
    pub fn asked<'l>(&'l self, uses: &'l LogUses<'a, P>) -> AskedLog<'l, 'a, P>
        requires { uses.now ≡ usages self.now }
        ensures { result ≡ self.now }
    {
        AskedLog::of(self, uses)
    }

    /// The ids of the declared spaces, in the order of their lines.
    pub fn spaces(&self) -> &[u32]
        ensures { result.now ≡ map (λ s. s.id) self.now.spaces }
    {
        self.found.space_ids.as_slice()
    }

    /// The forest of the spaces, partitions and subspaces.
    pub fn forest(&self) -> Forest<'_, P>
        ensures { result ≡ regions_of self.now }
    {
        Forest::of(self.tables.regions())
    }

    /// The path of a space in the forest, or `None` where the space is not declared. The only error is that memory ran out.
    pub fn path(&self, alloc: Global, space: u32) -> Result<Option<Path>, Memory>
        ensures declared { IfOk result (λ path. IsSome path ↔ IsSome (space_of (regions_of self.now) space)) }
        ensures path { IfOk result (λ path. IfSome path (λ way. IsPath (regions_of self.now) way space)) }
    {
        let forest = self.forest();
        forest.path_of(alloc, space)
    }

    /// The set of a space: none of a space that is not declared, which has no points.
    pub fn set(&self, space: u32) -> Option<&P>
        ensures { MatchOption result (points_in self.now space ≡ []) (λ s. points_in self.now space
            ≡ P.points s.now) }
    {
        self.tables.set(space)
    }

    /// The instance with this id.
    pub fn inst(&self, id: u32) -> Option<&Inst>
        ensures inst { option_copied result ≡ inst_at self.now id }
        ensures ascend { IfSome result (λ inst. IsStrictlyIncreasing inst.now.fields) }
    {
        self.tables.inst(id)
    }

    /// The requirement of an item with this number.
    pub fn req(&self, item: usize, number: u32) -> Option<&Req>
        ensures req { option_copied result ≡ req_at self.now item number }
        ensures ascend { IfSome result (λ req. IsStrictlyIncreasing req.now.fields) }
    {
        self.tables.req(item, number)
    }

    /// The position of the requirement of an item with this number.
    pub fn req_place(&self, item: usize, number: u32) -> Option<usize>
        ensures place { result ≡ position (λ r. (r.item == item) && (r.number == number)) self.now.reqs }
        ensures req { option_and_then (slice_get self.now.reqs) result ≡ req_at self.now item number }
    {
        self.tables.req_place(item, number)
    }

    /// How many requirements an item has.
    pub fn req_count(&self, item: usize) -> usize
        ensures { result ≡ reqs_before self.now.reqs item }
    {
        self.tables.req_count(item)
    }

    /// The instance to which a field of a requirement is mapped, or `None` where no line maps it. The requirement is named by the position of its item, and by its number there.
    pub fn inst_of_item(&self, item: usize, number: u32, field: u32) -> Option<u32>
        ensures { result ≡ inst_mapped self.now.maps (record { item = item; number = number; field = field }) }
    {
        self.tables.inst_of(item, number, field)
    }

    /// The instance to which a field of a requirement is mapped, or `None` where no line maps it. The requirement is named by its position.
    pub fn inst_of(&self, req: usize, field: u32) -> Option<u32>
        ensures { result ≡ option_and_then (λ r. mapped self.now r field) (slice_get self.now.reqs req) }
    {
        let req = self.tables.reqs().get(req)?;
        inst_mapped(&self.tables, req, field)
    }

    /// Whether each field of each requirement is mapped, or else the line of the first requirement of which one is not.
    pub fn mapped(&self) -> Result<(), Unmapped>
        ensures mapped { OnOk result (unmapped_fault self.now ≡ None) }
        ensures unmapped { IfErr result (λ u. unmapped_fault self.now ≡ Some (at_line codes.Unmapped u.line)) }
    {
        match first_unmapped(&self.tables) {
            Some(req) => Err(Unmapped { line: req.line }),
            None => Ok(()),
        }
    }
}
