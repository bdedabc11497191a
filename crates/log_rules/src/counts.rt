//! How much a record asks for, in points, cells and accesses.

ghost use Rattle.std.specs.Prelude.{◌≡◌, ◌+◌, ◌-◌, ◌*◌, ◌<◌, ◌^◌, ℕ, false, length, map, nat_lt};
ghost use Rattle.point_set.specs.Rects.{AreRects};
ghost use Rattle.log_tables.specs.Views.{Ascends};
ghost use Rattle.vocabulary.specs.Prelude.{plane_points, points_of, rect_of};
ghost use Rattle.semantics.specs.Rules.{is_late, is_planar, size_of, has_many_reads, read_count};
ghost use Rattle.log_limits.specs.Sums.{cut};
ghost use Rattle.log_rules.specs.Counts.{points_asked, cells_asked, reads_of, size_asked};

use log_limits::{asked, exceeds, raised};
use log_tables::LogTables;
use point_set::PointSet;
use privilege::Priv;
use semantics::{MOST_READS, MOST_RECORDS, Req};
use spy_grammar::{Nums, Quad, Record};

/// Whether so many records after the header stand before a record that it is late, and is not the end.
pub fn is_late(before: usize, rec: &Record) -> bool
    ensures { result ≡ is_late before rec.now }
{
    match rec {
        Record::End { .. } => false,
        _ => before > MOST_RECORDS,
    }
}

/// How many points lie from one to another.
fn run_length(run: (u64, u64)) -> u128
    ensures { result ≡ run.1 + 1 - run.0 }
{
    (run.1 as u128 + 1).saturating_sub(run.0 as u128)
}

/// How many points some runs have.
fn point_count(runs: &[(u64, u64)]) -> u128
    ensures { result ≡ cut (length (points_of runs.now)) }
{
    let mut count = 0u128;
    for run in runs {
        count = raised(count, run_length(*run));
    }
    count
}

/// How many points a rectangle has.
fn area(quad: &Quad) -> u128
    ensures { result ≡ (quad.now.x1 + 1 - quad.now.x0) * (quad.now.y1 + 1 - quad.now.y0) }
{
    let columns = (quad.x1 as u128 + 1).saturating_sub(quad.x0 as u128);
    let rows = (quad.y1 as u128 + 1).saturating_sub(quad.y0 as u128);
    columns * rows
}

/// How many points some rectangles have, no two of which share one.
fn area_of(quads: &[Quad]) -> u128
    requires { AreRects (map rect_of quads.now) }
    ensures { result ≡ cut (length (plane_points quads.now)) }
{
    let mut count = 0u128;
    for quad in quads {
        count = raised(count, area(quad));
    }
    count
}

/// How many points a record declares.
pub(crate) fn points_asked(rec: &Record) -> u128
    requires { Ascends rec.now }
    ensures { result ≡ cut (points_asked rec.now) }
{
    match rec {
        Record::Ispace { set, .. } => point_count(set.as_slice()),
        Record::Plane { rects, .. } => area_of(rects.as_slice()),
        _ => 0,
    }
}

/// How many points and fields there are together.
fn size_of<P: PointSet>(tables: &LogTables<P>, space: u32, fields: &Nums) -> u128
    ensures { result ≡ cut (size_of tables.now space fields.now) }
{
    match tables.set(space) {
        Some(set) => set.count().saturating_mul(fields.len() as u128),
        None => 0,
    }
}

/// How many points and fields together the instance has that a record declares.
pub(crate) fn cells_asked<P: PointSet>(tables: &LogTables<P>, rec: &Record) -> u128
    ensures { result ≡ cut (cells_asked tables.now rec.now) }
{
    match rec {
        Record::Inst { space, fields, .. } => size_of(tables, *space, fields),
        _ => 0,
    }
}

/// How many points and fields together the accesses have for which a record asks.
fn size_asked<P: PointSet>(tables: &LogTables<P>, rec: &Record) -> u128
    ensures { result ≡ cut (size_asked tables.now rec.now) }
{
    match asked(rec) {
        Some((space, fields)) => size_of(tables, space, fields),
        None => 0,
    }
}

/// How many accesses a record asks for, in a log of the first version. In one of the second they are counted at its end, and no set is gone through before.
pub(crate) fn accesses_asked<P: PointSet>(tables: &LogTables<P>, rec: &Record) -> u128
    ensures { is_planar tables.now ≡ false → result ≡ cut (size_asked tables.now rec.now) }
{
    if tables.is_planar() {
        return 0;
    }
    size_asked(tables, rec)
}

/// How many reads a requirement asks for.
fn reads_of<P: PointSet>(tables: &LogTables<P>, req: &Req) -> u128
    ensures { result ≡ cut (reads_of tables.now req.now) }
{
    match req.access {
        Priv::Ro | Priv::Rw => size_of(tables, req.space, &req.fields),
        Priv::Wd | Priv::Red(_) => 0,
    }
}

/// How many reads the tasks of a log have.
fn read_count<P: PointSet>(tables: &LogTables<P>) -> u128
    ensures { result ≡ cut (read_count tables.now) }
{
    let mut count = 0u128;
    for req in tables.reqs() {
        count = raised(count, reads_of(tables, req));
    }
    count
}

/// Whether a record ends a log whose tasks have too many reads together.
pub fn has_many_reads<P: PointSet>(tables: &LogTables<P>, rec: &Record) -> bool
    ensures { result ≡ has_many_reads tables.now rec.now }
{
    match rec {
        Record::End { .. } => exceeds(0, read_count(tables), MOST_READS),
        _ => false,
    }
}
