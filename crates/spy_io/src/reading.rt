ghost use Rattle.std.specs.Prelude.{◌≡◌, ◌≢◌, ◌+◌, ◌≤◌, ◌^◌, length, IfOk, OnOk, IsErrOf};
ghost use Rattle.std.specs.Io.KnownBytes.{Consumes, IsAtEnd};
ghost use Rattle.spy_io.specs.Causes.{Rose, Takes, TakesExactly};
ghost use Rattle.spy_io.specs.declared.reading.ReadEnd.TheVariants.{Memory};

use crate::{Failed, Source};
use std::alloc::{AllocError, Global};

/// Why `read_all` gave no bytes.
#[derive(Clone, Copy, PartialEq, Eq)]
pub enum ReadEnd {
    ReadFault,
    TooLong,
    Memory,
}

impl From<AllocError> for ReadEnd {
    ghost from_gives = { λ _ e. e ≡ Memory };

    fn from(_: AllocError) -> Self {
        ReadEnd::Memory
    }
}

/// All the bytes left, where they are at most `limit`. It takes at most one byte more, and then answers
/// `TooLong`. A call that fails is `ReadFault`.
#[tactic(auto, using(crate::proofs::Known::consumes_both))]
pub fn read_all<S: Source>(alloc: Global, source: &mut S, limit: u64) -> Result<Vec<u8>, ReadEnd>
    requires { limit ≤ 2 ^ 26 }

    // The answer is all the bytes, and then the end was met.
    ensures all { IfOk result (λ bytes. Consumes (S.left source.old) (S.left source.new) bytes.items) }
    ensures end { OnOk result (IsAtEnd (S.left source.new)) }
    ensures few { IfOk result (λ bytes. length bytes.items ≤ limit) }

    // No call follows one that gave the end or failed, and each has room for a byte.
    ensures once { S.ended source.old ≡ 0 → S.ended source.new ≤ 1 }
    ensures roomy { S.idle source.new ≡ S.idle source.old }

    // How many bytes an error took.
    ensures too_long { IsErrOf result ReadEnd.TooLong
        → TakesExactly (S.left source.old) (S.left source.new) (limit + 1) }
    ensures fault_takes { IsErrOf result ReadEnd.ReadFault
        → Takes (S.left source.old) (S.left source.new) limit }
    ensures memory_takes { IsErrOf result ReadEnd.Memory
        → Takes (S.left source.old) (S.left source.new) (limit + 1) }

    // The source failed where the answer says so, and nowhere else.
    ensures later { S.faults source.old ≤ S.faults source.new }
    ensures fault { IsErrOf result ReadEnd.ReadFault → Rose (S.faults source.old) (S.faults source.new) }
    ensures no_fault { OnOk result (S.faults source.new ≡ S.faults source.old) }
    ensures no_fault_too_long { IsErrOf result ReadEnd.TooLong → S.faults source.new ≡ S.faults source.old }
    ensures no_fault_memory { IsErrOf result ReadEnd.Memory → S.faults source.new ≡ S.faults source.old }
{
    let mut bytes = Vec::new(alloc);
    let mut piece = [0u8; 4096];
    let most = limit as usize + 1;
    while bytes.len() < most {
        let room = (most - bytes.len()).min(4096);
        match source.take(&mut piece[..room]) {
            Ok(0) => return Ok(bytes),
            Ok(n) => bytes.extend_from_slice(&piece[..n])?,
            Err(Failed) => return Err(ReadEnd::ReadFault),
        }
    }
    Err(ReadEnd::TooLong)
}
