ghost use Rattle.std.specs.Prelude.{◌≡◌, Ok, IfOk};
ghost use Rattle.spy_io.specs.Causes.{HasCause, has_failed};
ghost use Rattle.spy_io.specs.Counting.{is_refused, sink_counts_after};

use crate::counts::{ended_after, faults_after};
use crate::{Failed, Sink};
use std::io;
use std::io::Write;

/// What a sink counts of its calls.
#[derive(Clone, Copy)]
struct SinkCounts {
    faults: u64,
    ended: u64,
}

/// A sink over a writer of std. It tells the bytes that its writer tells: none of a file or a terminal, all of a
/// vector. That a writer of the system passes on the bytes that it took is trusted.
#[derive(Drop)]
pub struct RealSink<W: Write> {
    inner: W,
    counts: SinkCounts,
}

impl<W: Write> RealSink<W> {
    /// What the writer holds is held, and no call has failed.
    pub fn new(inner: W) -> Self
        ensures held { (⟦<RealSink<W> as Sink>⟧).held result ≡ W.contents inner }
        ensures no_fault { (⟦<RealSink<W> as Sink>⟧).faults result ≡ 0 }
        ensures unended { (⟦<RealSink<W> as Sink>⟧).ended result ≡ 0 }
    {
        RealSink {
            inner,
            counts: SinkCounts {
                faults: 0,
                ended: 0,
            },
        }
    }
}

/// Passes on what std answered to a write of a piece: its count, or a failure where it was an error, or where nothing
/// was taken of a piece that is not empty. Nothing else is done with the answer.
fn passed_on(
    written: io::Result<usize>,
    piece: &[u8],
    counts: &mut SinkCounts,
) -> Result<usize, Failed>
    ensures failed { has_failed result ≡ is_refused written piece.now }
    ensures count { IfOk result (λ n. written ≡ Ok n) }
    ensures counts { counts.new ≡ sink_counts_after counts.old result }
    ensures cause { HasCause counts.old.faults counts.new.faults result }
{
    match written {
        Ok(count) if count > 0 || piece.is_empty() => {
            counts.ended = ended_after(counts.ended, false);
            Ok(count)
        }
        _ => {
            counts.faults = faults_after(counts.faults, true);
            counts.ended = ended_after(counts.ended, true);
            Err(Failed)
        }
    }
}

impl<W: Write> Sink for RealSink<W> {
    ghost held = { λ s. W.contents s.inner };

    ghost faults = { λ s. s.counts.faults };

    ghost ended = { λ s. s.counts.ended };

    fn put(&mut self, piece: &[u8]) -> Result<usize, Failed> {
        let written = self.inner.write(piece);
        passed_on(written, piece, &mut self.counts)
    }
}
