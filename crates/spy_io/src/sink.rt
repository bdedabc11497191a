ghost use Rattle.std.specs.Prelude.{◌≡◌, ℕ, ◌<◌, ◌≤◌, List, Option, length, IfOk};
ghost use Rattle.std.specs.Io.KnownBytes.{WriteAppends};
ghost use Rattle.spy_io.specs.Causes.{HasCause, ended_after, has_failed};

use crate::Failed;

/// Where bytes go.
pub trait Sink {
    /// The bytes held, where the sink tells them.
    ghost held: { Self → Option (List ℕ) };

    /// How many calls have failed.
    ghost faults: { Self → ℕ };

    /// How many calls were made from the first on that failed. No call should follow that one.
    ghost ended: { Self → ℕ };

    /// Adds the first bytes of the piece to those held, and gives their count, which is 0 only for an empty
    /// piece. After `Failed` the bytes held are as they were.
    fn put(&mut self, piece: &[u8]) -> Result<usize, Failed>
        ensures bound { IfOk result (λ n. n ≤ length piece.now) }
        ensures progress { IfOk result (λ n. 0 < length piece.now → 0 < n) }
        ensures bytes { WriteAppends (held self.old) (held self.new) result piece.now }
        ensures cause { HasCause (faults self.old) (faults self.new) result }
        ensures ended { ended self.new ≡ ended_after (ended self.old) (has_failed result) };
}
