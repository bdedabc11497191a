//! What stands in the frame of a log.

ghost use Rattle.std.specs.Prelude.{◌≡◌};
ghost use Rattle.semantics.specs.Faults.{opens, is_header, is_end, miscounts};
ghost use Rattle.semantics.specs.Launches.{as_framed};
ghost use Rattle.vocabulary.specs.Prelude.{Lined};

use spy_grammar::{LLined, LRecord, Lined, Record};

/// A record on its line, which may be a header or an end.
pub trait Framed {
    // The record as which it stands in the frame, on its line.
    ghost in_frame: { Self → Lined };

    /// The number of its line.
    fn line(&self) -> u32
        ensures { result ≡ (in_frame self.now).line };

    /// Whether it is the header of the first version or of the second.
    fn opens(&self) -> bool
        ensures { result ≡ opens (in_frame self.now).rec };

    fn is_header(&self) -> bool
        ensures { result ≡ is_header (in_frame self.now).rec };

    fn is_end(&self) -> bool
        ensures { result ≡ is_end (in_frame self.now).rec };

    /// Whether it is an end whose number is not this count.
    fn miscounts(&self, count: usize) -> bool
        ensures { result ≡ miscounts count (in_frame self.now).rec };
}

impl Framed for Lined {
    ghost in_frame = { λ l. l };

    fn line(&self) -> u32 {
        self.line
    }

    fn opens(&self) -> bool {
        match &self.rec {
            Record::Header { version } => *version == 1 || *version == 2,
            _ => false,
        }
    }

    fn is_header(&self) -> bool {
        match &self.rec {
            Record::Header { .. } => true,
            _ => false,
        }
    }

    fn is_end(&self) -> bool {
        match &self.rec {
            Record::End { .. } => true,
            _ => false,
        }
    }

    fn miscounts(&self, count: usize) -> bool {
        match &self.rec {
            Record::End { n } => *n as usize != count,
            _ => false,
        }
    }
}

/// A launch and an `lreq` are neither header nor end.
impl Framed for LLined {
    ghost in_frame = { λ l. record { line = l.line; rec = as_framed l.rec } };

    fn line(&self) -> u32 {
        self.line
    }

    fn opens(&self) -> bool {
        match &self.rec {
            LRecord::Plain(Record::Header { version }) => *version == 1 || *version == 2,
            _ => false,
        }
    }

    fn is_header(&self) -> bool {
        match &self.rec {
            LRecord::Plain(Record::Header { .. }) => true,
            _ => false,
        }
    }

    fn is_end(&self) -> bool {
        match &self.rec {
            LRecord::Plain(Record::End { .. }) => true,
            _ => false,
        }
    }

    fn miscounts(&self, count: usize) -> bool {
        match &self.rec {
            LRecord::Plain(Record::End { n }) => *n as usize != count,
            _ => false,
        }
    }
}
