ghost use Rattle.std.specs.Prelude.{◌≡◌, ℕ, List, Option, drop, IfOk};
ghost use Rattle.std.specs.Io.{ReadsAtMost};
ghost use Rattle.std.specs.Io.KnownBytes.{ReadConsumes};
ghost use Rattle.spy_io.specs.Causes.{HasCause, ended_after, idle_after, is_last};

use crate::Failed;

/// Where bytes come from.
pub trait Source {
    /// The bytes left, where the source tells them.
    ghost left: { Self → Option (List ℕ) };

    /// How many calls have failed.
    ghost faults: { Self → ℕ };

    /// How many calls were made from the first on that gave the end of input or failed. No call should follow that one: a terminal would wait for another line.
    ghost ended: { Self → ℕ };

    /// How many calls had an empty buffer. Such a call says nothing, and a reader of the system may answer it as it likes.
    ghost idle: { Self → ℕ };

    /// Takes the first bytes left into the front of `into`, and gives their count. For a nonempty `into` the
    /// count 0 is the end of input. After `Failed` the bytes left are as they were, and `into` may hold anything.
    fn take(&mut self, into: &mut [u8]) -> Result<usize, Failed>
        ensures bound { ReadsAtMost result into.new }
        ensures bytes { ReadConsumes (left self.old) (left self.new) result into.new }
        ensures rest { IfOk result (λ n. drop n into.new ≡ drop n into.old) }
        ensures cause { HasCause (faults self.old) (faults self.new) result }
        ensures ended { ended self.new ≡ ended_after (ended self.old) (is_last result into.old) }
        ensures idle { idle self.new ≡ idle_after (idle self.old) into.old };
}
