//! What a node does, one move after the other.

ghost use Rattle.std.specs.Prelude.{◌≡◌, ◌<◌, ◌++◌, length, IfSome};
ghost use Rattle.std.specs.Iterator.{YieldsFirst, item_count};
ghost use Rattle.std.specs.List.{AllByRecursion};
ghost use Rattle.listed_sets.specs.Meant.{listed_points};
ghost use Rattle.inst_steps.specs.Acting.{IsBy, IsOwn, steps_in};
ghost use Rattle.inst_steps.specs.Stepping.{AreNumbered, IsSpotOf, IsAt, actions_here, at_left, rest_actions, moves_at, spot_here, spot_actions};
ghost use Rattle.inst_steps.specs.Sweeps.{action_at, passes_of, pass_at, actions_of_pass};

use crate::act::Action;
use crate::spot::{self, Spot, action_here, first_spot};
use crate::sweep::{sweep_at, sweep_count};
use cut_logs::CutLog;
use listed_sets::Listed;
use point_set::PointSet;
use semantics::{Move, Op};
use std::marker::Model;

/// Where an operation stands: in a sweep, and before the sweeps that are left after it.
#[derive(Drop)]
pub(crate) struct At<'l, S: PointSet + Copy> {
    pub(crate) spot: Spot<'l, S>,
    pub(crate) rest: usize,
}

/// The moves of a node that are left, in order, each with its requirement. No call takes memory.
#[derive(Drop)]
pub struct Actions<'l, 'a, 'p, P: PointSet + Copy> {
    log: CutLog<'l, 'a, 'p, P>,
    op: &'l Op,
    at: Option<At<'l, Listed<'l, 'p, P>>>,
}

impl<'l, 'a, 'p, P: PointSet + Copy> Model for Actions<'l, 'a, 'p, P> {
    ghost use Rattle.std.specs.Prelude.{List};
    ghost use Rattle.listed_sets.specs.Meant.{listed_points};
    ghost use Rattle.inst_steps.specs.declared.act.Action.{Action};
    ghost use Rattle.inst_steps.specs.Stepping.{AreNumbered, IsAt, at_left};

    ghost Value = { List Action };

    ghost view = { λ s. at_left listed_points s.log s.op.now s.at };

    ghost invariant = { λ s. AreNumbered s.log × IsAt listed_points s.log s.at };
}

/// The moves of a node that are left, in order. No call takes memory.
#[derive(Drop)]
pub struct Steps<'l, 'a, 'p, P: PointSet + Copy> {
    pub(crate) actions: Actions<'l, 'a, 'p, P>,
}

impl<'l, 'a, 'p, P: PointSet + Copy> Model for Steps<'l, 'a, 'p, P> {
    ghost use Rattle.std.specs.Prelude.{List};
    ghost use Rattle.vocabulary.specs.Prelude.{Move};
    ghost use Rattle.inst_steps.specs.Acting.{steps_in};

    ghost Value = { List Move };

    ghost view = { λ s. steps_in s.actions };
}

/// The requirements of an item are found by their numbers. There is nothing to do.
pub(crate) fn reqs_are_numbered<P: PointSet + Copy>(log: &CutLog<'_, '_, '_, P>)
    ensures { AreNumbered log.now }
{
    let plain = log.plain();
    plain.is_declared();
}

/// Where the sweep at a place begins.
fn sweep_start<'l, 'p, P: PointSet + Copy>(
    log: &CutLog<'l, '_, 'p, P>,
    op: &'l Op,
    k: usize,
) -> Option<Spot<'l, Listed<'l, 'p, P>>>
    requires { AreNumbered log.now }
    ensures spot { IfSome result (IsSpotOf listed_points log.now) }
    ensures actions { spot_actions listed_points log.now result
        ≡ actions_of_pass log.now (pass_at (passes_of log.now op.now) k) }
{
    let sweep = sweep_at(log, op, k)?;
    match log.set(sweep.space) {
        Some(set) => first_spot(log, sweep.act, set, sweep.fields),
        None => None,
    }
}

/// Where the first sweep from a place on begins that does something.
fn start_from<'l, 'p, P: PointSet + Copy>(
    log: &CutLog<'l, '_, 'p, P>,
    op: &'l Op,
    from: usize,
) -> Option<At<'l, Listed<'l, 'p, P>>>
    requires { AreNumbered log.now }
    ensures at { IsAt listed_points log.now result }
    ensures actions { at_left listed_points log.now op.now result
        ≡ rest_actions log.now op.now from }
{
    for k in from..sweep_count(log, op) {
        if let Some(spot) = sweep_start(log, op, k) {
            return Some(At { spot, rest: k + 1 });
        }
    }
    None
}

/// Takes an operation one move on.
fn go_on<'l, 'p, P: PointSet + Copy>(
    log: &CutLog<'l, '_, 'p, P>,
    op: &'l Op,
    at: &mut Option<At<'l, Listed<'l, 'p, P>>>,
)
    requires numbers { AreNumbered log.now }
    requires at { IsAt listed_points log.now at.old }
    ensures at { IsAt listed_points log.now at.new }
    ensures actions { at_left listed_points log.now op.now at.old
        ≡ actions_here log.now at.old ++ at_left listed_points log.now op.now at.new }
{
    let Some(here) = at else {
        return;
    };
    if spot::go_on(log, &mut here.spot) {
        return;
    }
    let rest = here.rest;
    *at = start_from(log, op, rest);
}

impl<'l, 'a, 'p, P: PointSet + Copy> Iterator for Actions<'l, 'a, 'p, P> {
    type Item = Action;

    ghost next_gives = { YieldsFirst (λ left. left) };

    ghost remaining = { item_count (λ left. left) };

    fn next(&mut self) -> Option<Action> {
        let action = match &self.at {
            Some(at) => action_here(&at.spot),
            None => return None,
        };
        go_on(&self.log, self.op, &mut self.at);
        Some(action)
    }
}

impl<'l, 'a, 'p, P: PointSet + Copy> Iterator for Steps<'l, 'a, 'p, P> {
    type Item = Move;

    ghost next_gives = { YieldsFirst (λ left. left) };

    ghost remaining = { item_count (λ left. left) };

    fn next(&mut self) -> Option<Move> {
        match self.actions.next() {
            Some(action) => Some(action.step),
            None => None,
        }
    }
}

impl<'l, 'a, 'p, P: PointSet + Copy> Actions<'l, 'a, 'p, P> {
    /// What a node does.
    pub(crate) fn of(log: &CutLog<'l, 'a, 'p, P>, node: usize) -> Actions<'l, 'a, 'p, P>
        requires { node < length log.now.nodes }
        ensures steps { steps_in result ≡ moves_at log.now node }
        ensures by { AllByRecursion (IsBy log.now) result }
        ensures own { AllByRecursion (IsOwn log.now) result }
    {
        reqs_are_numbered(log);
        let op = &log.nodes()[node].op;
        let at = start_from(log, op, 0);
        Actions {
            log: log.again(),
            op,
            at,
        }
    }
}
