ghost use Rattle.std.specs.Prelude.{◌≡◌, ◌≤◌, ◌++◌, length, take, drop, Ok, IfOk};
ghost use Rattle.spy_io.specs.Causes.{HasCause, has_failed};
ghost use Rattle.spy_io.specs.Counting.{source_counts_after};

use crate::counts::{ended_after, faults_after, idle_after};
use crate::{Failed, Source};
use std::io;
use std::io::Read;

/// What a source counts of its calls.
#[derive(Clone, Copy)]
struct SourceCounts {
    faults: u64,
    ended: u64,
    idle: u64,
}

/// A source over a reader of std. It tells the bytes that its reader tells: none of a file or a terminal, all of
/// a slice. That a reader of the system gives the bytes that are there is trusted.
#[derive(Drop)]
pub struct RealSource<R: Read> {
    inner: R,
    counts: SourceCounts,
}

impl<R: Read> RealSource<R> {
    /// What the reader has left is left, and no call was made.
    pub fn new(inner: R) -> Self
        ensures left { (⟦<RealSource<R> as Source>⟧).left result ≡ R.remaining inner }
        ensures no_fault { (⟦<RealSource<R> as Source>⟧).faults result ≡ 0 }
        ensures unended { (⟦<RealSource<R> as Source>⟧).ended result ≡ 0 }
        ensures roomy { (⟦<RealSource<R> as Source>⟧).idle result ≡ 0 }
    {
        RealSource {
            inner,
            counts: SourceCounts {
                faults: 0,
                ended: 0,
                idle: 0,
            },
        }
    }
}

/// Passes on what std answered to a read into a piece: its count, with so many bytes of the piece in front of `into`,
/// or a failure where it was an error. Nothing else is done with the answer.
fn passed_on(
    read: io::Result<usize>,
    piece: &[u8],
    into: &mut [u8],
    counts: &mut SourceCounts,
) -> Result<usize, Failed>
    requires within { IfOk read (λ n. n ≤ length piece.now) }
    requires room { length piece.now ≤ length into.old }
    ensures failed { has_failed result ≡ has_failed read }
    ensures count { IfOk result (λ n. read ≡ Ok n) }
    ensures bytes { IfOk result (λ n. into.new ≡ take n piece.now ++ drop n into.old) }
    ensures counts { counts.new ≡ source_counts_after counts.old result into.old }
    ensures cause { HasCause counts.old.faults counts.new.faults result }
{
    counts.idle = idle_after(counts.idle, into);
    match read {
        Ok(count) => {
            counts.ended = ended_after(counts.ended, count == 0 && !into.is_empty());
            into[..count].copy_from_slice(&piece[..count]);
            Ok(count)
        }
        Err(_) => {
            counts.faults = faults_after(counts.faults, true);
            counts.ended = ended_after(counts.ended, true);
            Err(Failed)
        }
    }
}

impl<R: Read> Source for RealSource<R> {
    ghost left = { λ s. R.remaining s.inner };

    ghost faults = { λ s. s.counts.faults };

    ghost ended = { λ s. s.counts.ended };

    ghost idle = { λ s. s.counts.idle };

    fn take(&mut self, into: &mut [u8]) -> Result<usize, Failed> {
        // std does not say that a read leaves the bytes after its count, so it goes to a buffer of its own first.
        let mut piece = [0u8; 4096];
        let room = into.len().min(4096);
        let read = self.inner.read(&mut piece[..room]);
        passed_on(read, &piece[..room], into, &mut self.counts)
    }
}
