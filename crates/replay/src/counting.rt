//! How many reads a log has.

ghost use Rattle.std.specs.Prelude.{◌≡◌, ◌<◌, ◌^◌};
ghost use Rattle.semantics.specs.Counts.{read_count};
ghost use Rattle.semantics.specs.Rules.{size_of};
ghost use Rattle.replay.specs.Counts.{reads_of};

use logs::Log;
use point_set::PointSet;
use privilege::Priv;
use semantics::Req;

/// How many points and fields a requirement has together.
fn size_of<P: PointSet + Copy>(log: &Log<'_, P>, req: &Req) -> u64
    requires { size_of log.now req.now.space req.now.fields < 2 ^ 64 }
    ensures { result ≡ size_of log.now req.now.space req.now.fields }
{
    match log.set(req.space) {
        Some(set) => (set.count() * req.fields.as_slice().len() as u128) as u64,
        None => 0,
    }
}

/// How many reads a requirement has.
fn reads_of<P: PointSet + Copy>(log: &Log<'_, P>, req: &Req) -> u64
    requires { reads_of log.now req.now < 2 ^ 64 }
    ensures { result ≡ reads_of log.now req.now }
{
    match req.access {
        Priv::Ro | Priv::Rw => size_of(log, req),
        Priv::Wd | Priv::Red(_) => 0,
    }
}

/// How many reads the tasks of a log have. By the limit on reads it fits.
pub fn count_reads<P: PointSet + Copy>(log: &Log<'_, P>) -> u64
    ensures { result ≡ read_count log.now }
{
    log.is_declared();
    let mut count = 0;
    for req in log.reqs() {
        count += reads_of(log, req);
    }
    count
}
