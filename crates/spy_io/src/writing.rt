ghost use Rattle.std.specs.Prelude.{◌≡◌, ◌≤◌, OnOk, OnErr};
ghost use Rattle.std.specs.Io.KnownBytes.{Appends};
ghost use Rattle.spy_io.specs.Causes.{HasCause, Grows};

use crate::{Failed, Sink};

/// A sink failed before it took all the bytes.
#[derive(Clone, Copy, PartialEq, Eq)]
pub struct WriteFault;

/// Puts all the bytes, piece by piece. At the first call that fails it stops, and the sink holds a prefix of them that is not all.
pub fn write_all<K: Sink>(sink: &mut K, bytes: &[u8]) -> Result<(), WriteFault>
    ensures all { OnOk result (Appends (K.held sink.old) (K.held sink.new) bytes.now) }
    ensures prefix { OnErr result (Grows (K.held sink.old) (K.held sink.new) bytes.now) }
    ensures cause { HasCause (K.faults sink.old) (K.faults sink.new) result }

    // No call follows one that failed.
    ensures not_ended { OnOk result (K.ended sink.old ≡ 0 → K.ended sink.new ≡ 0) }
    ensures once { K.ended sink.old ≡ 0 → K.ended sink.new ≤ 1 }
{
    let mut rest = bytes;
    while !rest.is_empty() {
        match sink.put(rest) {
            Ok(n) => rest = &rest[n..],
            Err(Failed) => return Err(WriteFault),
        }
    }
    Ok(())
}
