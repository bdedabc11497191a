//! The sweeps of an operation, by their places.

ghost use Rattle.std.specs.Prelude.{◌≡◌, ℕ, ◌<◌, ◌≤◌, ◌+◌, ◌^◌, ◌≢◌, IfSome, Some, length, slice_get, option_map};
ghost use Rattle.vocabulary.specs.Prelude.{Tables, reqs_of, id_of, operator_held, operator_of};
ghost use Rattle.inst_steps.specs.Stepping.{AreNumbered, pass_seen};
ghost use Rattle.inst_steps.specs.Sweeps.{own_place, reading, changing, pass_for, passes_of, pass_at};

use crate::act::Act;
use cut_logs::CutLog;
use point_set::PointSet;
use privilege::Priv;
use semantics::{Op, Req};
use spy_grammar::InstKind;

/// What is done at each point of a space and each of some fields.
#[derive(Clone, Copy)]
pub(crate) struct Sweep<'l> {
    pub(crate) act: Act,
    pub(crate) space: u32,
    pub(crate) fields: &'l [u32],
}

/// A requirement, and its position.
#[derive(Clone, Copy)]
struct OwnReq<'l> {
    req: &'l Req,
    place: usize,
}

/// How a task reads for a requirement.
fn reading(task: u32, own: OwnReq<'_>) -> Option<Act>
    ensures { (t : Tables) → own_place t own.entry.req.now ≡ Some own.entry.place → result ≡ reading t task own.entry.req.now }
{
    match own.req.access {
        Priv::Ro | Priv::Rw => Some(Act::Read {
            task,
            item: own.req.item,
            number: own.req.number,
            req: Some(own.place),
        }),
        Priv::Wd | Priv::Red(_) => None,
    }
}

/// How a task changes for a requirement.
fn changing(task: u32, own: OwnReq<'_>) -> Option<Act>
    ensures { (t : Tables) → own_place t own.entry.req.now ≡ Some own.entry.place → result ≡ changing t task own.entry.req.now }
{
    match own.req.access {
        Priv::Ro => None,
        Priv::Rw | Priv::Wd => Some(Act::Write {
            task,
            item: own.req.item,
            number: own.req.number,
            req: Some(own.place),
        }),
        Priv::Red(op) => Some(Act::Reduce {
            task,
            item: own.req.item,
            number: own.req.number,
            req: Some(own.place),
            op,
        }),
    }
}

/// The sweep of an act over the points and fields of a requirement.
fn sweep_for(req: &Req, act: Option<Act>) -> Option<Sweep<'_>>
    ensures { option_map pass_seen result ≡ pass_for req.now act }
{
    let act = act?;
    Some(Sweep {
        act,
        space: req.space,
        fields: req.fields.as_slice(),
    })
}

/// The id of the item at a position.
fn id_of<P: PointSet + Copy>(log: &CutLog<'_, '_, '_, P>, item: usize) -> u32
    ensures { result ≡ id_of log.now item }
{
    match log.items().get(item) {
        Some(item) => item.id,
        None => 0,
    }
}

/// The operator of a reduction instance.
fn operator_of<P: PointSet + Copy>(log: &CutLog<'_, '_, '_, P>, inst: u32) -> u32
    ensures { result ≡ operator_of log.now inst }
{
    match log.inst(inst) {
        Some(inst) => match inst.kind {
            InstKind::Red(op) => op,
            _ => 0,
        },
        None => 0,
    }
}

/// A requirement of an item, by its place among those of the item.
fn own_req<'l, P: PointSet + Copy>(
    log: &CutLog<'l, '_, '_, P>,
    item: usize,
    k: usize,
) -> Option<OwnReq<'l>>
    requires numbers { AreNumbered log.now }
    requires place { k < length (reqs_of log.now item) }
    ensures req { option_map (λ own. own.req.now) result ≡ slice_get (reqs_of log.now item) k }
    ensures place { IfSome result (λ own. own_place log.now own.req.now ≡ Some own.place) }
{
    let place = log.req_place(item, k as u32 + 1)?;
    let req = log.reqs().get(place)?;
    Some(OwnReq { req, place })
}

/// How many requirements an item has.
fn own_count<P: PointSet + Copy>(log: &CutLog<'_, '_, '_, P>, item: usize) -> usize
    ensures { result ≡ length (reqs_of log.now item) }
{
    log.req_count(item)
}

/// How many sweeps an operation has.
pub(crate) fn sweep_count<P: PointSet + Copy>(log: &CutLog<'_, '_, '_, P>, op: &Op) -> usize
    requires { AreNumbered log.now }
    ensures { result ≡ length (passes_of log.now op.now) }
{
    match op {
        Op::Run { item } => {
            let count = own_count(log, *item);
            count + count
        }
        Op::Merge => 0,
        _ => 1,
    }
}

/// The sweep of a run at a place.
fn sweep_of_run<'l, P: PointSet + Copy>(
    log: &CutLog<'l, '_, '_, P>,
    item: usize,
    k: usize,
) -> Option<Sweep<'l>>
    requires numbers { AreNumbered log.now }
    ensures { option_map pass_seen result ≡ pass_at (passes_of log.now (Op.Run item)) k }
{
    let count = own_count(log, item);
    let task = id_of(log, item);
    if k < count {
        let own = own_req(log, item, k)?;
        return sweep_for(own.req, reading(task, own));
    }
    if k - count < count {
        let own = own_req(log, item, k - count)?;
        return sweep_for(own.req, changing(task, own));
    }
    None
}

/// The sweep of an operation other than a run.
fn only_sweep<'l, P: PointSet + Copy>(log: &CutLog<'l, '_, '_, P>, op: &'l Op) -> Option<Sweep<'l>>
    requires { (item : ℕ) → op.now ≢ Op.Run item }
    ensures { option_map pass_seen result ≡ pass_at (passes_of log.now op.now) 0 }
{
    let (act, space, fields) = match op {
        Op::Copy {
            src,
            dst,
            space,
            fields,
        } => (
            Act::Copy {
                src: *src,
                dst: *dst,
            },
            *space,
            fields,
        ),
        Op::Put {
            inst,
            space,
            fields,
            n,
        } => (Act::Put { inst: *inst, n: *n }, *space, fields),
        Op::Reset {
            inst,
            space,
            fields,
        } => (Act::Reset { inst: *inst }, *space, fields),
        Op::Fold {
            src,
            dst,
            space,
            fields,
        } => (
            Act::Fold {
                op: operator_of(log, *src),
                src: *src,
                dst: *dst,
            },
            *space,
            fields,
        ),
        Op::Run { .. } | Op::Merge => return None,
    };
    Some(Sweep {
        act,
        space,
        fields: fields.as_slice(),
    })
}

/// The sweep of an operation at a place, if there is one and it does something.
pub(crate) fn sweep_at<'l, P: PointSet + Copy>(
    log: &CutLog<'l, '_, '_, P>,
    op: &'l Op,
    k: usize,
) -> Option<Sweep<'l>>
    requires { AreNumbered log.now }
    ensures { option_map pass_seen result ≡ pass_at (passes_of log.now op.now) k }
{
    match op {
        Op::Run { item } => sweep_of_run(log, *item, k),
        _ => { if k == 0 { only_sweep(log, op) } else { None } }
    }
}
