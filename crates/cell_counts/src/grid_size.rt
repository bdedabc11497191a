ghost use Rattle.std.specs.Prelude.{◌≡◌, ◌++◌, [], List, OnOk};
ghost use Rattle.point_set.specs.declared.rect.Rect.{Rect};
ghost use Rattle.grid.specs.Corners.{cell_count};
ghost use Rattle.grid.specs.Cuts.{grid_of};

use crate::ends::{add_columns, add_rows, spans};
use memory::Memory;
use point_set::Rect;
use std::alloc::Global;
use std::collections::HashSet;
use std::marker::Model;

/// The cuts of the grid of the rectangles so far, each once and in no order. Contracts see them as the cuts of a grid.
#[derive(Drop)]
pub struct GridSize {
    xs: HashSet<u64>,
    ys: HashSet<u64>,
}

impl Model for GridSize {
    ghost use Rattle.grid.specs.Cuts.{Cuts, cuts};

    ghost Value = { Cuts };

    ghost view = { λ s. record { xs = cuts s.xs.keys; ys = cuts s.ys.keys } };
}

impl GridSize {
    /// The size of the grid of no rectangles.
    pub fn new(alloc: Global) -> GridSize
        ensures { result ≡ grid_of [] }
    {
        GridSize {
            xs: HashSet::new(alloc),
            ys: HashSet::new(alloc),
        }
    }

    /// Adds rectangles, by a few look-ups for each. Where memory runs out, some of their cuts may be in.
    pub fn add(&mut self, rects: &[Rect]) -> Result<(), Memory>
        ensures { OnOk result ((before : List Rect)
            → self.old ≡ grid_of before → self.new ≡ grid_of (before ++ rects.now)) }
    {
        add_columns(&mut self.xs, rects)?;
        add_rows(&mut self.ys, rects)?;
        Ok(())
    }

    /// How many cells the grid of the rectangles so far has.
    pub fn cells(&self) -> u128
        ensures { (rects : List Rect) → self.now ≡ grid_of rects → result ≡ cell_count rects }
    {
        spans(&self.xs) as u128 * spans(&self.ys) as u128
    }
}
