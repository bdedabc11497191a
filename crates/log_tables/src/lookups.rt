//! Look-ups in the tables.

ghost use Rattle.std.specs.Prelude.{All, ◌≡◌, ◌==◌, ◌&&◌, ◌≤◌, length, map, position, slice_get};
ghost use Rattle.std.specs.Option.{option_and_then, option_copied, option_map};
ghost use Rattle.vocabulary.specs.Prelude.{place_of, reqs_before, tree_at, part_at, inst_at, req_at};
ghost use Rattle.semantics.specs.Rules.{is_planar, is_sub};
ghost use Rattle.std.specs.Prelude.{IfSome, find};
ghost use Rattle.std.specs.List.Sorted.{IsStrictlyIncreasing};
ghost use Rattle.log_tables.specs.Ascending.{body_fields};
ghost use Rattle.log_tables.specs.Mapped.{inst_mapped};
ghost use Rattle.log_tables.specs.Regions.{regions_of};
ghost use Rattle.log_tables.specs.Views.{space_seen};

use crate::entries::{ById, Space};
use crate::maps::FieldKey;
use crate::regions::Decls;
use crate::rows::Rows;
use crate::tables::LogTables;
use point_set::{PointSet, Rect};
use semantics::{FieldSpace, Inst, Item, LogNode, Map, Part, Req, Serial, Tree};

fn place_in(items: &Rows<ById, Item>, id: u32) -> usize
    ensures { result ≡ place_of items.now id }
{
    match items.place(id) {
        Some(place) => place,
        None => items.len(),
    }
}

impl<P: PointSet> LogTables<P> {
    /// What is declared of regions.
    pub fn regions(&self) -> &Decls<P>
        ensures { result.now ≡ regions_of self.now }
    {
        &self.regions
    }

    /// The rectangles of the spaces, in the order of their lines. A run of points is one of the first column.
    pub fn rects(&self) -> &[Rect]
        ensures { result.now ≡ self.now.rects }
    {
        &self.rects
    }

    /// Whether the log is of the second version.
    pub fn is_planar(&self) -> bool
        ensures { result ≡ is_planar self.now }
    {
        self.version == 2
    }

    /// The position of the item with this id, and the number of items where there is none.
    pub fn place(&self, id: u32) -> usize
        ensures { result ≡ place_of self.now.items id }
    {
        place_in(self.items.rows(), id)
    }

    /// How many requirements an item has so far.
    pub fn req_count(&self, item: usize) -> usize
        ensures count { result ≡ reqs_before self.now.reqs item }
        ensures few { result ≤ length self.now.reqs }
    {
        self.reqs.count(item)
    }

    /// How many subspaces there are.
    pub fn sub_count(&self) -> usize
        ensures { result ≡ length self.now.subs }
    {
        self.regions.subs().rows().len()
    }

    /// The tree with this id.
    pub fn tree(&self, id: u32) -> Option<Tree>
        ensures { result ≡ tree_at self.now id }
    {
        self.trees.rows().get(id).copied()
    }

    /// The partition with this id.
    pub fn part(&self, id: u32) -> Option<Part>
        ensures { result ≡ part_at self.now id }
    {
        self.regions.part(id)
    }

    /// The field space with this id.
    pub fn field_space(&self, id: u32) -> Option<&FieldSpace>
        ensures fspace { option_copied result ≡ find (λ f. f.id == id) self.now.field_spaces }
        ensures ascend { IfSome result (λ fspace. IsStrictlyIncreasing fspace.now.fields) }
    {
        self.field_spaces.get(id)
    }

    /// The instance with this id.
    pub fn inst(&self, id: u32) -> Option<&Inst>
        ensures inst { option_copied result ≡ inst_at self.now id }
        ensures ascend { IfSome result (λ inst. IsStrictlyIncreasing inst.now.fields) }
    {
        self.insts.get(id)
    }

    /// The requirement of an item with this number.
    pub fn req(&self, item: usize, number: u32) -> Option<&Req>
        ensures req { option_copied result ≡ req_at self.now item number }
        ensures ascend { IfSome result (λ req. IsStrictlyIncreasing req.now.fields) }
    {
        self.reqs.get(item, number)
    }

    /// The position of the requirement of an item with this number.
    pub fn req_place(&self, item: usize, number: u32) -> Option<usize>
        ensures place { result ≡ position (λ r. (r.item == item) && (r.number == number)) self.now.reqs }
        ensures req { option_and_then (slice_get self.now.reqs) result ≡ req_at self.now item number }
    {
        self.reqs.place(item, number)
    }

    /// Whether a space is a subspace.
    pub fn is_sub(&self, space: u32) -> bool
        ensures { result ≡ is_sub self.now space }
    {
        self.regions.subs().also_has(space)
    }

    /// The instance to which a field of a requirement is mapped. The requirement is named by the position of its item, and by its number there.
    pub fn inst_of(&self, item: usize, number: u32, field: u32) -> Option<u32>
        ensures { result ≡ inst_mapped self.now.maps (record { item = item; number = number; field = field }) }
    {
        self.maps.inst(FieldKey {
            item,
            number,
            field,
        })
    }

    /// The spaces, in the order of their lines.
    pub fn spaces(&self) -> &[Space<P>]
        ensures { map (space_seen P.points) result.now ≡ self.now.spaces }
    {
        self.regions.spaces().as_slice()
    }

    /// The items, in program order.
    pub fn items(&self) -> &[Item]
        ensures items { result.now ≡ self.now.items }
        ensures ascend { All (λ i. IsStrictlyIncreasing (body_fields i.body)) result.now }
    {
        self.items.rows().as_slice()
    }

    /// The requirements, in the order of their lines.
    pub fn reqs(&self) -> &[Req]
        ensures reqs { result.now ≡ self.now.reqs }
        ensures ascend { All (λ r. IsStrictlyIncreasing r.fields) result.now }
    {
        self.reqs.as_slice()
    }

    /// The lists of items in serial order, in the order of their lines.
    pub fn serials(&self) -> &[Serial]
        ensures { result.now ≡ self.now.serials }
    {
        &self.serials
    }

    /// The instances, in the order of their lines.
    pub fn insts(&self) -> &[Inst]
        ensures { result.now ≡ self.now.insts }
    {
        self.insts.as_slice()
    }

    /// The maps, in the order of their lines.
    pub fn maps(&self) -> &[Map]
        ensures { result.now ≡ self.now.maps }
    {
        self.maps.as_slice()
    }

    /// The nodes of the recorded run, in the order of their lines.
    pub fn nodes(&self) -> &[LogNode]
        ensures { result.now ≡ self.now.nodes }
    {
        self.nodes.rows().as_slice()
    }
}
