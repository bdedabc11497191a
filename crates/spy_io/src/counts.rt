//! Counts of calls, which stay at the largest `u64`.

ghost use Rattle.std.specs.Prelude.{◌≡◌};
ghost use Rattle.spy_io.specs.Causes.{ended_after, faults_after, idle_after};

/// How many calls have failed, after one more that did or did not.
pub(crate) fn faults_after(faults: u64, failed: bool) -> u64
    ensures { result ≡ faults_after faults failed }
{
    if failed {
        faults.saturating_add(1)
    } else {
        faults
    }
}

/// How many calls were made from the first on that no call should follow, after one more that was or was not such a one.
pub(crate) fn ended_after(ended: u64, last: bool) -> u64
    ensures { result ≡ ended_after ended last }
{
    if ended == 0 && !last {
        0
    } else {
        ended.saturating_add(1)
    }
}

/// How many calls had an empty buffer, after one more with this buffer.
pub(crate) fn idle_after(idle: u64, into: &[u8]) -> u64
    ensures { result ≡ idle_after idle into.now }
{
    if into.is_empty() {
        idle.saturating_add(1)
    } else {
        idle
    }
}
