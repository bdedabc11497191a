ghost use Rattle.std.specs.Prelude.{◌≡◌, ◌+◌, ◌^◌, ◌<◌, ◌≤◌, All, IfOk, IfSome, length};
ghost use Rattle.std.specs.List.Sorted.{IsPartitionPoint};
ghost use Rattle.grid.specs.Cuts.{AreCuts, IsSpanOf, cuts, cuts_within, grid_of, span_at, span_count, x_ends, y_ends};

use memory::Memory;
use point_set::Rect;
use std::alloc::Global;
use std::marker::Model;

/// The cuts of columns and of rows, which contracts see as two ascending lists. A cut may be 2^32, where a rectangle has the last column or row.
#[derive(Drop)]
pub struct Grid {
    xs: Vec<u64>,
    ys: Vec<u64>,
}

impl Model for Grid {
    ghost use Rattle.grid.specs.Cuts.{AreCuts, Cuts};

    ghost Value = { Cuts };

    ghost view = { λ g. record { xs = g.xs.items; ys = g.ys.items } };

    ghost invariant = { λ g. AreCuts g.xs.items × AreCuts g.ys.items };
}

/// The columns at which rectangles begin, and those that follow their last ones.
fn x_ends(alloc: Global, rects: &[Rect]) -> Result<Vec<u64>, Memory>
    ensures ends { IfOk result (λ ends. ends.items ≡ x_ends rects.now) }
    ensures small { IfOk result (λ ends. All (λ n. n ≤ 2 ^ 32) ends.items) }
{
    let mut ends = Vec::new(alloc);
    for rect in rects {
        ends.push(u64::from(rect.x0))?;
        ends.push(u64::from(rect.x1) + 1)?;
    }
    Ok(ends)
}

/// The rows at which rectangles begin, and those that follow their last ones.
fn y_ends(alloc: Global, rects: &[Rect]) -> Result<Vec<u64>, Memory>
    ensures ends { IfOk result (λ ends. ends.items ≡ y_ends rects.now) }
    ensures small { IfOk result (λ ends. All (λ n. n ≤ 2 ^ 32) ends.items) }
{
    let mut ends = Vec::new(alloc);
    for rect in rects {
        ends.push(u64::from(rect.y0))?;
        ends.push(u64::from(rect.y1) + 1)?;
    }
    Ok(ends)
}

/// Each number once, in ascending order.
fn sorted_once(ends: &mut Vec<u64>)
    requires small { All (λ n. n ≤ 2 ^ 32) ends.old.items }
    ensures sorted { ends.new.items ≡ cuts ends.old.items }
    ensures cuts { AreCuts ends.new.items }
{
    ends.sort_unstable();
    ends.dedup();
}

/// The numbers from cut `k` to the one before the next cut.
fn span(cuts: &[u64], k: usize) -> Option<(u32, u32)>
    requires { AreCuts cuts.now }
    ensures { result ≡ span_at cuts.now k }
{
    if k >= cuts.len().saturating_sub(1) {
        return None;
    }
    Some((cuts[k] as u32, (cuts[k + 1] - 1) as u32))
}

/// How many cuts are not above `x`, by a binary search.
fn cuts_until(cuts: &[u64], x: u32) -> usize
    requires { AreCuts cuts.now }
    ensures parts { IsPartitionPoint (λ n. n ≤ x) (λ n. x < n) cuts.now result }
    ensures within { result ≤ length cuts.now }
{
    cuts.partition_point(|cut| *cut <= u64::from(x))
}

/// The span that has `x`: it begins at the last cut that is not above `x`, unless that is the last of all.
fn span_of(cuts: &[u64], x: u32) -> Option<usize>
    requires { AreCuts cuts.now }
    ensures span { IsSpanOf cuts.now x result }
    ensures low { IfSome result (λ k. k ≤ x) }
{
    let next = cuts_until(cuts, x);
    if next == 0 || next == cuts.len() {
        return None;
    }
    Some(next - 1)
}

/// How many cuts are below `x`, by a binary search.
fn cuts_below(cuts: &[u64], x: u32) -> usize
    requires { AreCuts cuts.now }
    ensures parts { IsPartitionPoint (λ n. n < x) (λ n. x ≤ n) cuts.now result }
    ensures within { result ≤ length cuts.now }
{
    cuts.partition_point(|cut| *cut < u64::from(x))
}

/// How many cuts there are from `low` to `high`. There is at most one at each number.
fn count_within(cuts: &[u64], low: u32, high: u32) -> usize
    requires { AreCuts cuts.now }
    ensures count { result ≡ length (cuts_within low high cuts.now) }
    ensures few { result ≤ high + 1 }
{
    cuts_until(cuts, high).saturating_sub(cuts_below(cuts, low))
}

impl Grid {
    /// The grid of some rectangles, by two sorts.
    pub fn build(alloc: Global, rects: &[Rect]) -> Result<Grid, Memory>
        ensures { IfOk result (λ grid. grid ≡ grid_of rects.now) }
    {
        let mut xs = x_ends(alloc, rects)?;
        sorted_once(&mut xs);
        let mut ys = y_ends(alloc, rects)?;
        sorted_once(&mut ys);
        Ok(Grid { xs, ys })
    }

    /// How many columns there are.
    pub fn columns(&self) -> usize
        ensures { result ≡ span_count self.now.xs }
    {
        self.xs.len().saturating_sub(1)
    }

    /// How many rows there are.
    pub fn rows(&self) -> usize
        ensures { result ≡ span_count self.now.ys }
    {
        self.ys.len().saturating_sub(1)
    }

    /// The first and the last number of a column, or `None` past the last column.
    pub fn column(&self, k: usize) -> Option<(u32, u32)>
        ensures { result ≡ span_at self.now.xs k }
    {
        span(self.xs.as_slice(), k)
    }

    /// The first and the last number of a row, or `None` past the last row.
    pub fn row(&self, k: usize) -> Option<(u32, u32)>
        ensures { result ≡ span_at self.now.ys k }
    {
        span(self.ys.as_slice(), k)
    }

    /// The column that has `x`, or `None` where no column has it. A binary search.
    pub fn column_of(&self, x: u32) -> Option<usize>
        ensures column { IsSpanOf self.now.xs x result }
        ensures low { IfSome result (λ k. k ≤ x) }
    {
        span_of(self.xs.as_slice(), x)
    }

    /// The row that has `y`, or `None` where no row has it. A binary search.
    pub fn row_of(&self, y: u32) -> Option<usize>
        ensures row { IsSpanOf self.now.ys y result }
        ensures low { IfSome result (λ l. l ≤ y) }
    {
        span_of(self.ys.as_slice(), y)
    }
    /// How many cuts of columns there are from `low` to `high`, by two binary searches.
    pub fn column_cuts(&self, low: u32, high: u32) -> usize
        ensures count { result ≡ length (cuts_within low high self.now.xs) }
        ensures few { result ≤ high + 1 }
    {
        count_within(self.xs.as_slice(), low, high)
    }

    /// How many cuts of rows there are from `low` to `high`, by two binary searches.
    pub fn row_cuts(&self, low: u32, high: u32) -> usize
        ensures count { result ≡ length (cuts_within low high self.now.ys) }
        ensures few { result ≤ high + 1 }
    {
        count_within(self.ys.as_slice(), low, high)
    }
}
