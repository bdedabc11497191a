//! The fault of the frame.

ghost use Rattle.std.specs.Prelude.{◌≡◌, ◌<◌, ◌-◌, ◌+◌, ◌^◌, true, map, find};
ghost use Rattle.semantics.specs.Faults.{is_header, miscounts, first_with, header_fault, ended_fault, count_fault};
ghost use Rattle.spy_grammar.specs.declared.code.Code.TheVariants as codes;
ghost use Rattle.std.specs.Option.{option_or, option_copied};

use crate::framed::Framed;
use semantics::Fault;
use spy_grammar::Code;

/// The first of some records that is a header.
fn found_header<R: Framed>(records: &[R]) -> Option<&R>
    ensures { option_copied result ≡ find (λ r. is_header (R.in_frame r).rec) records.now }
{
    records.iter().find(|l| l.is_header())
}

/// The first of some records that is an end whose number is not this count.
fn found_miscount<R: Framed>(records: &[R], count: usize) -> Option<&R>
    ensures { option_copied result ≡ find (λ r. miscounts count (R.in_frame r).rec) records.now }
{
    records.iter().find(|l| l.miscounts(count))
}

/// The fault of the first of some records that is a header.
fn first_header<R: Framed>(records: &[R]) -> Option<Fault>
    ensures { result ≡ first_with codes.Header is_header (map R.in_frame records.now) }
{
    let found = found_header(records)?;
    Some(Fault {
        line: found.line(),
        code: Code::Header,
    })
}

/// The fault of the first of some records after the end.
fn first_after_end<R: Framed>(records: &[R]) -> Option<Fault>
    ensures { result ≡ first_with codes.Ended (λ r. true) (map R.in_frame records.now) }
{
    let found = records.first()?;
    Some(Fault {
        line: found.line(),
        code: Code::Ended,
    })
}

/// The fault of the header.
fn header_fault<R: Framed>(records: &[R], lines: u32) -> Option<Fault>
    requires { lines < 2 ^ 32 - 1 }
    ensures { result ≡ header_fault lines (map R.in_frame records.now) }
{
    match records.split_first() {
        Some((first, rest)) => {
            if first.opens() {
                first_header(rest)
            } else {
                Some(Fault {
                    line: first.line(),
                    code: Code::Header,
                })
            }
        }
        None => Some(Fault {
            line: lines + 1,
            code: Code::Header,
        }),
    }
}

/// The fault of the end.
fn ended_fault<R: Framed>(records: &[R], lines: u32) -> Option<Fault>
    requires { lines < 2 ^ 32 - 1 }
    ensures { result ≡ ended_fault lines (map R.in_frame records.now) }
{
    let mut next = 0;
    for l in records {
        next += 1;
        if l.is_end() {
            return first_after_end(&records[next..]);
        }
    }
    Some(Fault {
        line: lines + 1,
        code: Code::Ended,
    })
}

/// The fault of the count that the end gives.
fn count_fault<R: Framed>(records: &[R]) -> Option<Fault>
    ensures { result ≡ count_fault (map R.in_frame records.now) }
{
    let count = records.len().saturating_sub(2);
    let found = found_miscount(records, count)?;
    Some(Fault {
        line: found.line(),
        code: Code::Count,
    })
}

/// The fault of the frame: of the header, else of the end, else of the count. `lines` is the number of lines.
pub fn frame_fault<R: Framed>(records: &[R], lines: u32) -> Option<Fault>
    requires { lines < 2 ^ 32 - 1 }
    ensures { let log = map R.in_frame records.now in
        result ≡ option_or (header_fault lines log) (option_or (ended_fault lines log) (count_fault log)) }
{
    let header = header_fault(records, lines);
    if header.is_some() {
        return header;
    }
    let ended = ended_fault(records, lines);
    if ended.is_some() {
        return ended;
    }
    count_fault(records)
}
