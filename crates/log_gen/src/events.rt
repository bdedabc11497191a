//! The numbers of tasks and events.

ghost use Rattle.std.specs.Prelude.{◌≡◌, ◌≤◌, ◌<◌};
ghost use Rattle.log_gen.specs.Numbers as numbers;

/// The id of the first task of a step.
pub fn first_task(n: u32, s: u32) -> u32
    requires few { n ≤ 500 }
    requires step { s < 10 }
    ensures exact { result ≡ numbers.first_task n s }
    ensures small { result < 10000 }
{
    2 + 2 * n * s
}

/// The last event before those of a step.
fn last_event(n: u32, s: u32) -> u32
    requires some { 1 ≤ n }
    requires few { n ≤ 500 }
    requires step { s < 10 }
    ensures exact { result ≡ numbers.last_event n s }
    ensures small { result < 20000 }
{
    n + s * (4 * n - 2)
}

/// The event of the stencil task of a step at a piece.
pub fn stencil_event(n: u32, s: u32, i: u32) -> u32
    requires few { n ≤ 500 }
    requires step { s < 10 }
    requires piece { i < n }
    ensures { result ≡ numbers.stencil_event n s i }
{
    last_event(n, s) + i + 1
}

/// The event of the update task of a step at a piece.
pub fn update_event(n: u32, s: u32, i: u32) -> u32
    requires few { n ≤ 500 }
    requires step { s < 10 }
    requires piece { i < n }
    ensures { result ≡ numbers.update_event n s i }
{
    last_event(n, s) + n + i + 1
}

/// The event of the copy of a step over a boundary, to the right.
pub fn right_event(n: u32, s: u32, j: u32) -> u32
    requires few { n ≤ 500 }
    requires step { s < 10 }
    requires boundary { j < n }
    ensures { result ≡ numbers.right_event n s j }
{
    last_event(n, s) + 2 * n + 2 * j + 1
}

/// The event of the copy of a step over a boundary, to the left.
pub fn left_event(n: u32, s: u32, j: u32) -> u32
    requires few { n ≤ 500 }
    requires step { s < 10 }
    requires boundary { j < n }
    ensures { result ≡ numbers.left_event n s j }
{
    last_event(n, s) + 2 * n + 2 * j + 2
}
