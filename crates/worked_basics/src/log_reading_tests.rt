//! Which records an input has, their text, which fault, and whether the records may be handed over as those of a log.

use log_decl::are_log_records;
use log_reading::{SpellEnd, input_in, kept_text, read_records};
use spy_grammar::Code;
use spy_lines::Lines;
use std::test::Fail;

/// Inputs, each with the line of its last record, how many lines it has and the text of its records, or with
/// its fault.
const INPUTS: [(&[u8], Result<(Option<u32>, u32, &[u8]), SpellEnd>); 5] = [
    (b"", Ok((None, 0, b""))),
    (
        b"# note\n\ntask 7\n#\nend 1\n# end\n",
        Ok((Some(5), 6, b"task 7\nend 1\n")),
    ),
    (
        b"task 7\ntask\ntusk\n",
        Err(SpellEnd::Fault {
            line: 2,
            code: Code::Form,
        }),
    ),
    (
        b"fields 1 2,1\n",
        Err(SpellEnd::Fault {
            line: 1,
            code: Code::Order,
        }),
    ),
    // What is wrong with the bytes comes before what is wrong with a line.
    (
        b"tusk\ntask 7",
        Err(SpellEnd::Fault {
            line: 2,
            code: Code::Newline,
        }),
    ),
];

#[test]
fn records_of_inputs(rt: HostRuntime) -> Result<(), Fail> {
    let alloc = rt.alloc();
    for (bytes, want) in INPUTS {
        match (input_in(alloc, bytes.to_vec(alloc)?), want) {
            (Ok(input), Ok((last, lines, _))) => {
                assert_eq!(rt; input.records.last().map(|lined| lined.line), last);
                assert_eq!(rt; input.lines, lines);
                assert!(rt; are_log_records(alloc, &input.records, lines)?);
            }
            (Err(end), Err(fault)) => assert!(rt; end == fault),
            _ => return Err("records, or a fault, in place of the other".into()),
        }
    }
    let Ok(list) = Lines::of(b"task 7\n#\nend 1\n".to_vec(alloc)?).finish() else {
        return Err("lines without an end".into());
    };
    let read = read_records(alloc, &list).ok();
    assert_eq!(rt; read.map(|records| records.len()), Some(2));
    Ok(())
}

#[test]
fn texts_of_inputs(rt: HostRuntime) -> Result<(), Fail> {
    let alloc = rt.alloc();
    for (bytes, want) in INPUTS {
        match (kept_text(alloc, bytes.to_vec(alloc)?), want) {
            (Ok(text), Ok((_, _, kept))) => assert_eq!(rt; text.as_slice(), kept),
            (Err(end), Err(fault)) => assert!(rt; end == fault),
            _ => return Err("a text, or a fault, in place of the other".into()),
        }
    }
    Ok(())
}
