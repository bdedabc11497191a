//! The replay of a log.

ghost use Rattle.std.specs.Prelude.{◌≡◌, ◌+◌, ◌<◌, drop, length, All, IfErr, IfOk, None, OnErr, OnOk};
ghost use Rattle.vocabulary.specs.Prelude.{graph_of, replay_steps, shown_difference, steps_by};
ghost use Rattle.semantics.specs.Faults.{unmapped_fault};
ghost use Rattle.semantics.specs.Counts.{read_count};
ghost use Rattle.event_graph.specs.Orders.{IsOrderOf};
ghost use Rattle.point_laws.specs.Alike.{AreReadFirsts};
ghost use Rattle.cut_logs.specs.Cutting.{IsCutOf};
ghost use Rattle.serial_exec.specs.Kept.{AreVersionsAt};
ghost use Rattle.replay.specs.Ends.{IsEndOf};
ghost use Rattle.replay.specs.Standing.{IsReplayedUpTo};
ghost use Rattle.replay.specs.Versioned.{AreVersionsIn};
ghost use Rattle.replay.specs.Wanting.{AreWanted};

use crate::counting::count_reads;
use crate::ends::{Reads, ReplayEnd};
use crate::moving::Replay;
use cut_logs::CutLog;
use event_graph::Order;
use inst_steps::{Store, actions_of};
use logs::Log;
use point_kinds::FirstPoints;
use point_set::PointSet;
use region_tree::ArenaSet;
use serial_exec::{PlaceLists, Versions};
use std::alloc::Global;

impl<'r, 'a, P: PointSet + Copy> Replay<'r, 'a, P> {
    /// Takes the moves of the node at a place of the replay order.
    #[tactic(auto, using(crate::proofs::Laws::stand_cells, crate::proofs::Stood::stand_light, crate::proofs::Stood::stand_end))]
    fn take_node(
        &self,
        store: &mut Store,
        wanted: &mut PlaceLists<usize>,
        order: &[usize],
        place: usize,
    ) -> Result<(), ReplayEnd>
        requires nodes { All (λ k. k < length self.now.cut.now.nodes) order.now }
        requires cut { IsCutOf self.now.log.now self.now.cut.now }
        requires place { place < length order.now }
        requires versions { AreVersionsIn self.now.cut.now self.now.versions.now }
        requires stands { IsReplayedUpTo self.now.cut.now
            (steps_by self.now.cut.now (drop place order.now)) store.old.cells }
        requires wanted { AreWanted store.old.values self.now.versions.now wanted.old }
        ensures stands { OnOk result (IsReplayedUpTo self.now.cut.now
            (steps_by self.now.cut.now (drop (place + 1) order.now)) store.new.cells) }
        ensures wanted { OnOk result (AreWanted store.new.values self.now.versions.now wanted.new) }
        ensures end { IfErr result (IsEndOf self.now.cut.now) }
    {
        let node = order[place];
        let item = self.item_at(node);
        for action in actions_of(self.cut, node) {
            self.take(store, wanted, item, &action)?;
        }
        Ok(())
    }

    /// Takes the moves of all nodes, in replay order.
    fn take_nodes(
        &self,
        store: &mut Store,
        wanted: &mut PlaceLists<usize>,
        order: &[usize],
    ) -> Result<(), ReplayEnd>
        requires cut { IsCutOf self.now.log.now self.now.cut.now }
        requires nodes { All (λ k. k < length self.now.cut.now.nodes) order.now }
        requires versions { AreVersionsIn self.now.cut.now self.now.versions.now }
        requires stands { IsReplayedUpTo self.now.cut.now
            (steps_by self.now.cut.now order.now) store.old.cells }
        requires wanted { AreWanted store.old.values self.now.versions.now wanted.old }
        ensures right { OnOk result (shown_difference self.now.cut.now ≡ None) }
        ensures end { IfErr result (IsEndOf self.now.cut.now) }
    {
        for place in 0..order.len() {
            self.take_node(store, wanted, order, place)?;
        }
        Ok(())
    }

    /// Replays the cut log, from the start.
    fn run(&self, order: &Order) -> Result<(), ReplayEnd>
        requires cut { IsCutOf self.now.log.now self.now.cut.now }
        requires mapped { unmapped_fault self.now.log.now ≡ None }
        requires order { IsOrderOf (graph_of self.now.log.now.nodes) order.now }
        requires versions { AreVersionsIn self.now.cut.now self.now.versions.now }
        ensures right { OnOk result (shown_difference self.now.cut.now ≡ None) }
        ensures end { IfErr result (IsEndOf self.now.cut.now) }
    {
        self.log.is_declared();
        let mut store = Store::start_of(self.alloc, self.cut)?;
        let mut wanted = PlaceLists::new(self.alloc);
        self.take_nodes(&mut store, &mut wanted, order.as_slice())
    }
}

/// Replays a log, and judges each read. Goes over these points alone, among which is the first of each kind that is read, and takes memory for what the instances hold there. Whatever the versions say elsewhere is of no account.
pub fn replay<'a, P: ArenaSet<'a>>(
    alloc: Global,
    log: &Log<'a, P>,
    order: &Order,
    versions: &Versions,
    firsts: &FirstPoints,
) -> Result<Reads, ReplayEnd>
    requires mapped { unmapped_fault log.now ≡ None }
    requires order { IsOrderOf (graph_of log.now.nodes) order.now }
    requires versions { AreVersionsAt firsts.now log.now versions.now }
    requires firsts { AreReadFirsts log.now firsts.now }
    ensures right { OnOk result (shown_difference log.now ≡ None) }
    ensures count { IfOk result (λ reads. reads.count ≡ read_count log.now) }
    ensures end { IfErr result (IsEndOf log.now) }
{
    log.is_declared();
    let cut = CutLog::at(log, firsts.as_slice());
    let replay = Replay {
        alloc,
        log,
        cut: &cut,
        versions,
    };
    match replay.run(order) {
        Ok(()) => Ok(Reads {
            count: count_reads(log),
        }),
        Err(end) => Err(end),
    }
}
