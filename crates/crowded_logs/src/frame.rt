//! The frame of a log, noted record by record.

ghost use Rattle.std.specs.Prelude.{◌≡◌, ◌<◌, ◌-◌, ◌^◌, Some, None, length, option_map, if◌then◌else◌};
ghost use Rattle.semantics.specs.Faults.{at_line};
ghost use Rattle.crowded_logs.specs.Noted.{breaks_header, count_noted, end_on, ended_noted, frame_fault, frame_of, no_frame, with_framed};

use semantics::Fault;
use spy_grammar::{Code, Lined, Record};

/// An `end`, by its line and its number.
#[derive(Clone, Copy, PartialEq, Eq)]
pub struct EndLine {
    pub line: u32,
    pub n: u32,
}

/// What is noted of the frame of a log, record by record.
#[derive(Clone, Copy, PartialEq, Eq)]
pub struct Frame {
    /// How many records there are.
    pub count: usize,
    /// The line of the first record that breaks the rule on headers.
    pub header: Option<u32>,
    /// The first `end`.
    pub ended: Option<EndLine>,
    /// The line of the first record after it.
    pub after: Option<u32>,
}

/// Whether a record breaks the rule on headers after so many records: the first must be a header of the first version or of the second, and no later one may be a header.
fn breaks_header(before: usize, rec: &Record) -> bool
    ensures { result ≡ breaks_header before rec.now }
{
    match rec {
        Record::Header { version } => before > 0 || (*version != 1 && *version != 2),
        _ => before == 0,
    }
}

/// The line of a record, if that record breaks a rule.
fn line_if(broken: bool, line: u32) -> Option<u32>
    ensures { result ≡ (if broken then Some line else None) }
{
    if broken { Some(line) } else { None }
}

/// An `end`, if this record is one.
fn end_on(line: u32, rec: &Record) -> Option<EndLine>
    ensures { result ≡ end_on line rec.now }
{
    match rec {
        Record::End { n } => Some(EndLine { line, n: *n }),
        _ => None,
    }
}

/// The fault with a code at a line, if there is such a line.
fn fault_at(code: Code, line: Option<u32>) -> Option<Fault>
    ensures { result ≡ option_map (at_line code) line }
{
    let line = line?;
    Some(Fault { line, code })
}

impl Frame {
    /// No record.
    pub fn new() -> Frame
        ensures { result ≡ no_frame }
    {
        Frame {
            count: 0,
            header: None,
            ended: None,
            after: None,
        }
    }

    /// With one record more.
    pub fn with(self, l: &Lined) -> Frame
        requires { self.count < 2 ^ 32 }
        ensures { result ≡ with_framed self l.now }
    {
        let header = line_if(breaks_header(self.count, &l.rec), l.line);
        let after = line_if(self.ended.is_some(), l.line);
        Frame {
            count: self.count + 1,
            header: self.header.or(header),
            ended: self.ended.or(end_on(l.line, &l.rec)),
            after: self.after.or(after),
        }
    }

    /// The frame of some records.
    pub fn of(records: &[Lined]) -> Frame
        requires { length records.now < 2 ^ 32 }
        ensures noted { result ≡ frame_of records.now }
        ensures count { result.count ≡ length records.now }
    {
        let mut frame = Frame::new();
        for l in records {
            frame = frame.with(l);
        }
        frame
    }

    /// The fault of the end.
    fn ended_fault(self, lines: u32) -> Option<Fault>
        requires { lines < 2 ^ 32 - 1 }
        ensures { result ≡ ended_noted lines self }
    {
        match self.ended {
            Some(_) => fault_at(Code::Ended, self.after),
            None => fault_at(Code::Ended, Some(lines + 1)),
        }
    }

    /// The fault of the count that the end gives.
    fn count_fault(self) -> Option<Fault>
        ensures { result ≡ count_noted self }
    {
        let end = self.ended?;
        let is_wrong = end.n as usize != self.count.saturating_sub(2);
        fault_at(Code::Count, line_if(is_wrong, end.line))
    }

    /// The fault of the frame: of the header, else of the end, else of the count. `lines` is the number of lines.
    pub fn fault(self, lines: u32) -> Option<Fault>
        requires { lines < 2 ^ 32 - 1 }
        ensures { result ≡ frame_fault lines self }
    {
        let header = fault_at(Code::Header, self.header);
        let ended = self.ended_fault(lines);
        header.or(ended).or(self.count_fault())
    }
}
