//! A log at all of its points, or at listed ones.

ghost use Rattle.std.specs.Prelude.{◌≡◌, ◌<◌, ◌==◌, ◌&&◌, length, position, [], All, Some, IfSome, MatchOption};
ghost use Rattle.std.specs.List.Sorted.{IsStrictlyIncreasing};
ghost use Rattle.std.specs.Option.{option_copied};
ghost use Rattle.semantics.specs.SerialOrder.{serial};
ghost use Rattle.vocabulary.specs.Prelude.{inst_at, points_in, req_at, reqs_before};
ghost use Rattle.log_tables.specs.Ascending.{body_fields};
ghost use Rattle.log_tables.specs.Mapped.{inst_mapped};
ghost use Rattle.logs.specs.Listing.{ArePlacesIn};
ghost use Rattle.point_laws.specs.Cut.{cut};
ghost use Rattle.cut_logs.specs.Cutting.{IsCutOf};
ghost use Rattle.listed_sets.specs.Meant.{listed_points};

use listed_sets::Listed;
use logs::Log;
use point_set::PointSet;
use semantics::{Inst, Item, LogNode, Req};
use std::marker::Model;

/// A log at all of its points, or cut to listed ones. Contracts see the tables of the log, in which each space has these points alone. It is made in one step, whatever the log, and takes no memory.
#[derive(Drop)]
pub struct CutLog<'l, 'a, 'p, P: PointSet + Copy> {
    log: &'l Log<'a, P>,
    listed: Option<&'p [u64]>,
}

impl<'l, 'a, 'p, P: PointSet + Copy> Model for CutLog<'l, 'a, 'p, P> {
    ghost use Rattle.vocabulary.specs.Prelude.{Tables};
    ghost use Rattle.point_laws.specs.Cut.{cut_to};
    ghost use Rattle.listed_sets.specs.Listed.{IsAscending, listed_of};

    ghost Value = { Tables };

    ghost view = { λ c. cut_to (listed_of c.listed) c.log.now };

    ghost invariant = { λ c. IsAscending c.listed };
}

impl<'l, 'a, 'p, P: PointSet + Copy> CutLog<'l, 'a, 'p, P> {
    /// The log at all of its points.
    pub fn whole(log: &'l Log<'a, P>) -> CutLog<'l, 'a, 'p, P>
        ensures { result ≡ log.now }
    {
        CutLog { log, listed: None }
    }

    /// The log cut to these points.
    pub fn at(log: &'l Log<'a, P>, points: &'p [u64]) -> CutLog<'l, 'a, 'p, P>
        requires { IsStrictlyIncreasing points.now }
        ensures { result ≡ cut points.now log.now }
    {
        CutLog {
            log,
            listed: Some(points),
        }
    }

    /// The same once more.
    pub fn again(&self) -> CutLog<'l, 'a, 'p, P>
        ensures { result ≡ self.now }
    {
        CutLog {
            log: self.log,
            listed: self.listed,
        }
    }

    /// The log of which this is a cut.
    pub fn plain(&self) -> &'l Log<'a, P>
        ensures { IsCutOf result.now self.now }
    {
        self.log
    }

    /// The set of a space: none of a space that is not declared, which has no points.
    pub fn set(&self, space: u32) -> Option<Listed<'l, 'p, P>>
        ensures { MatchOption result (points_in self.now space ≡ []) (λ s. points_in self.now space
            ≡ listed_points s) }
    {
        match self.log.set(space) {
            Some(set) => Some(Listed::at(set, self.listed)),
            None => None,
        }
    }

    /// The items, in program order, the order of their lines.
    pub fn items(&self) -> &'l [Item]
        ensures { result.now ≡ self.now.items }
    {
        self.log.items()
    }

    /// The law of the fields of fills: they ascend. There is nothing to do.
    pub fn fill_fields_ascend(&self)
        ensures { All (λ i. IsStrictlyIncreasing (body_fields i.body)) self.now.items }
    {
        self.log.fill_fields_ascend();
    }

    /// The requirements, in the order of their lines.
    pub fn reqs(&self) -> &'l [Req]
        ensures reqs { result.now ≡ self.now.reqs }
        ensures ascend { All (λ r. IsStrictlyIncreasing r.fields) result.now }
    {
        self.log.reqs()
    }

    /// The instances, in the order of their lines.
    pub fn insts(&self) -> &'l [Inst]
        ensures { result.now ≡ self.now.insts }
    {
        self.log.insts()
    }

    /// The nodes of the recorded run, in the order of their lines.
    pub fn nodes(&self) -> &'l [LogNode]
        ensures { result.now ≡ self.now.nodes }
    {
        self.log.nodes()
    }

    /// The positions of all items in serial order.
    pub fn serial(&self) -> &'l [usize]
        ensures { result.now ≡ serial self.now }
    {
        self.log.serial()
    }

    /// The place of each item in serial order.
    pub fn serial_places(&self) -> &'l [usize]
        ensures { ArePlacesIn (serial self.now) (length self.now.items) result.now }
    {
        self.log.serial_places()
    }

    /// The instance with this id.
    pub fn inst(&self, id: u32) -> Option<&'l Inst>
        ensures inst { option_copied result ≡ inst_at self.now id }
        ensures ascend { IfSome result (λ inst. IsStrictlyIncreasing inst.now.fields) }
    {
        self.log.inst(id)
    }

    /// The requirement of an item with this number.
    pub fn req(&self, item: usize, number: u32) -> Option<&'l Req>
        ensures req { option_copied result ≡ req_at self.now item number }
        ensures ascend { IfSome result (λ req. IsStrictlyIncreasing req.now.fields) }
    {
        self.log.req(item, number)
    }

    /// The position of the requirement of an item with this number.
    pub fn req_place(&self, item: usize, number: u32) -> Option<usize>
        ensures { result ≡ position (λ r. (r.item == item) && (r.number == number)) self.now.reqs }
    {
        self.log.req_place(item, number)
    }

    /// How many requirements an item has.
    pub fn req_count(&self, item: usize) -> usize
        ensures { result ≡ reqs_before self.now.reqs item }
    {
        self.log.req_count(item)
    }

    /// The instance to which a field of a requirement is mapped, or `None` where no line maps it. The requirement is named by the position of its item, and by its number there.
    pub fn inst_of_item(&self, item: usize, number: u32, field: u32) -> Option<u32>
        ensures { result ≡ inst_mapped self.now.maps (record { item = item; number = number; field = field }) }
    {
        self.log.inst_of_item(item, number, field)
    }
}
