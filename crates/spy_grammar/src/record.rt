//! What one line of a log says.

use spy_words::{InstKind, Nums, PrivWord, Rects, Set};

/// One record. The words of a line stand in the order of the fields.
#[derive(Drop)]
#[rattlefmt::skip]
pub enum Record {
    Header { version: u32 },
    Ispace { id: u32, set: Set },
    /// A space of two dimensions. Its line begins as that of another space does.
    Plane { id: u32, rects: Rects },
    Part { id: u32, space: u32, disjoint: bool },
    Sub { part: u32, colour: u32, space: u32 },
    Fields { id: u32, fields: Nums },
    Tree { id: u32, space: u32, fspace: u32 },
    Redop { id: u32 },
    Task { id: u32 },
    Req { task: u32, tree: u32, space: u32, fields: Nums, access: PrivWord, atomic: bool },
    Fill { id: u32, tree: u32, space: u32, fields: Nums, n: u32 },
    Serial { items: Nums },
    Inst { id: u32, tree: u32, space: u32, fields: Nums, kind: InstKind },
    Map { task: u32, req: u32, fields: Nums, inst: u32 },
    Run { task: u32, done: u32, waits: Nums },
    Copy { src: u32, dst: u32, space: u32, fields: Nums, done: u32, waits: Nums },
    Put { inst: u32, space: u32, fields: Nums, n: u32, done: u32, waits: Nums },
    Reset { inst: u32, space: u32, fields: Nums, done: u32, waits: Nums },
    Fold { src: u32, dst: u32, space: u32, fields: Nums, done: u32, waits: Nums },
    Merge { done: u32, waits: Nums },
    End { n: u32 },
}

/// A record and the number of its line, from 1.
#[derive(Drop)]
pub struct Lined {
    pub line: u32,
    pub rec: Record,
}
