//! Atoms: the parts of the plane that no space of a log divides.
//!
//! The ends of all rectangles that a log lists cut the plane into the cells of a grid, and no space divides a
//! cell. The atoms are the cells of which some space has a point (`covered_cells`), each the rectangle of a
//! column and a row. `Atoms::build` finds them in near linear time, however many points they have. `firsts`
//! gives the first point of each, and `atom_of` the atom of a point. What holds at these first points holds
//! at all points (`point_laws`), so what goes over points goes over them. Begin with `cells.rt`.
#![tactic(auto)]

mod cells;

pub use cells::Atoms;
