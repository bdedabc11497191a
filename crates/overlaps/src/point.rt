//! Points of the plane.

/// A point.
#[derive(Clone, Copy)]
pub struct Point {
    pub x: u32,
    pub y: u32,
}
