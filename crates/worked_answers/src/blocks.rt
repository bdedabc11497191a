//! A halo exchange in two dimensions, made by rule: the logs `block_halos` and `stale_corner` of the folder `examples`, and how their bytes are summed up, so that the files can be held against them.

use std::alloc::Global;
use std::test::Fail;

/// How many blocks lie side by side in each dimension, and how many there are.
const SIDE: u64 = 4;

const MANY: u64 = 16;

/// The first and the last number of a block of four in one dimension, and so much further on either side.
fn reach(place: u64, far: u64) -> (u64, u64) {
    let first = place.wrapping_mul(4);
    (
        first.saturating_sub(far),
        first.wrapping_add(3).wrapping_add(far).min(15),
    )
}

/// What two ranges have in common.
fn shared(ours: (u64, u64), theirs: (u64, u64)) -> (u64, u64) {
    (ours.0.max(theirs.0), ours.1.min(theirs.1))
}

/// A range of columns or rows as a line spells it.
fn spelled(alloc: Global, range: (u64, u64)) -> Result<String, Fail> {
    let (first, last) = range;
    if first == last {
        Ok(format!(in alloc; "{first}")?)
    } else {
        Ok(format!(in alloc; "{first}-{last}")?)
    }
}

/// A log that grows line by line.
#[derive(Drop)]
struct Lines {
    alloc: Global,
    text: Vec<u8>,
    count: u64,
}

impl Lines {
    /// Adds a line.
    fn push(&mut self, line: &str) -> Result<(), Fail> {
        self.text.extend_from_slice(line.as_bytes())?;
        self.text.extend_from_slice(b"\n")?;
        self.count = self.count.wrapping_add(1);
        Ok(())
    }

    /// Adds the line of a space of columns and rows.
    fn push_space(&mut self, id: u64, columns: (u64, u64), rows: (u64, u64)) -> Result<(), Fail> {
        let columns = spelled(self.alloc, columns)?;
        let rows = spelled(self.alloc, rows)?;
        let line = format!(in self.alloc; "ispace {id} {columns}:{rows}")?;
        self.push(&line)
    }
}

/// Each block with each that touches it, be it at a corner alone, by their numbers.
fn neighbours(alloc: Global) -> Result<Vec<(u64, u64)>, Fail> {
    let mut pairs = Vec::new(alloc);
    for a in 0..MANY {
        for x in 0..3u64 {
            for y in 0..3u64 {
                let column = (a / SIDE).wrapping_add(x);
                let row = (a % SIDE).wrapping_add(y);
                let is_there = (1..=SIDE).contains(&column) && (1..=SIDE).contains(&row);
                if is_there && (x != 1 || y != 1) {
                    let b = column
                        .wrapping_sub(1)
                        .wrapping_mul(SIDE)
                        .wrapping_add(row)
                        .wrapping_sub(1);
                    pairs.push((a, b))?;
                }
            }
        }
    }
    Ok(pairs)
}

/// The spaces: the blocks, the blocks with their halos, and what each block has of the halo of each neighbour.
fn push_spaces(lines: &mut Lines, pairs: &[(u64, u64)]) -> Result<(), Fail> {
    lines.push_space(1, (0, 15), (0, 15))?;
    lines.push("part 1 1 disjoint")?;
    lines.push("part 2 1 aliased")?;
    for far in 0..2u64 {
        for k in 0..MANY {
            let space = far.wrapping_mul(MANY).wrapping_add(k).wrapping_add(2);
            lines.push_space(space, reach(k / SIDE, far), reach(k % SIDE, far))?;
            let part = far.wrapping_add(1);
            let line = format!(in lines.alloc; "sub {part} {k} {space}")?;
            lines.push(&line)?;
        }
    }
    let mut space = 34u64;
    for (a, b) in pairs {
        lines.push_space(
            space,
            shared(reach(*a / SIDE, 0), reach(*b / SIDE, 1)),
            shared(reach(*a % SIDE, 0), reach(*b % SIDE, 1)),
        )?;
        space = space.wrapping_add(1);
    }
    Ok(())
}

/// An instance for each block with its halo, and the constant that each is given at first.
fn push_insts(lines: &mut Lines) -> Result<(), Fail> {
    lines.push("fields 1 1,2")?;
    lines.push("tree 1 1 1")?;
    for k in 1..=MANY {
        let space = k.wrapping_add(17);
        let line = format!(in lines.alloc; "inst {k} 1 {space} 1,2 plain")?;
        lines.push(&line)?;
    }
    lines.push("fill 1 1 1 1,2 0")?;
    for k in 1..=MANY {
        let space = k.wrapping_add(17);
        let line = format!(in lines.alloc; "put {k} {space} 1,2 0 {k} -")?;
        lines.push(&line)?;
    }
    Ok(())
}

/// A task that reads a block with its halo in one field and writes the block in the other.
fn push_task(lines: &mut Lines, k: u64, step: u64, waits: &str) -> Result<(), Fail> {
    let alloc = lines.alloc;
    let read = step.wrapping_add(1);
    let write = 2u64.wrapping_sub(step);
    let task = step.wrapping_mul(MANY).wrapping_add(k).wrapping_add(2);
    let halo = k.wrapping_add(18);
    let block = k.wrapping_add(2);
    let inst = k.wrapping_add(1);
    let done = step.wrapping_mul(100).wrapping_add(k).wrapping_add(17);
    lines.push(&format!(in alloc; "task {task}")?)?;
    lines.push(&format!(in alloc; "req {task} 1 {halo} {read} ro ex")?)?;
    lines.push(&format!(in alloc; "req {task} 1 {block} {write} wd ex")?)?;
    lines.push(&format!(in alloc; "map {task} 1 {read} {inst}")?)?;
    lines.push(&format!(in alloc; "map {task} 2 {write} {inst}")?)?;
    lines.push(&format!(in alloc; "run {task} {done} {waits}")?)
}

/// Whether a copy is the one that a stale log lacks: that of the point across from the corner of the last block.
fn is_lacking(is_stale: bool, pair: &(u64, u64)) -> bool {
    is_stale && *pair == (10, 15)
}

/// The copies into the halos, each after the runs of both blocks in the first step.
fn push_copies(lines: &mut Lines, pairs: &[(u64, u64)], is_stale: bool) -> Result<(), Fail> {
    let mut q = 0u64;
    for pair in pairs {
        let from = pair.0.wrapping_add(1);
        let to = pair.1.wrapping_add(1);
        let space = q.wrapping_add(34);
        let done = q.wrapping_add(33);
        let before = from.wrapping_add(16);
        let after = to.wrapping_add(16);
        if !is_lacking(is_stale, pair) {
            let line = format!(in lines.alloc;
                "copy {from} {to} {space} 2 {done} {before},{after}"
            )?;
            lines.push(&line)?;
        }
        q = q.wrapping_add(1);
    }
    Ok(())
}

/// The events of the copies into the halo of a block, joined by commas.
fn copies_into(
    alloc: Global,
    pairs: &[(u64, u64)],
    is_stale: bool,
    k: u64,
) -> Result<String, Fail> {
    let mut waits = String::new(alloc);
    let mut done = 33u64;
    for pair in pairs {
        if pair.1 == k && !is_lacking(is_stale, pair) {
            if !waits.is_empty() {
                waits.push_str(",")?;
            }
            waits.push_str(&format!(in alloc; "{done}")?)?;
        }
        done = done.wrapping_add(1);
    }
    Ok(waits)
}

/// Two steps over 4 by 4 blocks, with an exchange of all halos between them. In a stale log one copy is missing.
pub fn block_halos(alloc: Global, is_stale: bool) -> Result<Vec<u8>, Fail> {
    let pairs = neighbours(alloc)?;
    let mut lines = Lines {
        alloc,
        text: b"legion-spy 2\n# A field of 4 by 4 blocks of 16 points each, in two dimensions. Each task reads a block with its halo and writes the block.\n# Between two steps copies take what was written into the halos of all neighbours, also those that touch at a corner alone.\n".to_vec(
            alloc,
        )?,
        count: 0,
    };
    if is_stale {
        lines.text.extend_from_slice(
            b"# But the last block lacks the one point of the block that lies across from its corner.\n",
        )?;
    }
    push_spaces(&mut lines, &pairs)?;
    push_insts(&mut lines)?;
    for k in 0..MANY {
        let put = k.wrapping_add(1);
        push_task(&mut lines, k, 0, &format!(in alloc; "{put}")?)?;
    }
    push_copies(&mut lines, &pairs, is_stale)?;
    for k in 0..MANY {
        let waits = copies_into(alloc, &pairs, is_stale, k)?;
        push_task(&mut lines, k, 1, &waits)?;
    }
    let count = lines.count;
    lines.push(&format!(in alloc; "end {count}")?)?;
    Ok(lines.text)
}

/// Bytes summed up so that nearly any change of them shows: times 31, and one byte more.
pub fn digest(bytes: &[u8]) -> u64 {
    let mut sum = 0u64;
    for byte in bytes {
        sum = sum.wrapping_mul(31).wrapping_add(u64::from(*byte));
    }
    sum
}
