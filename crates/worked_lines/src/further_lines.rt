//! Lines of launch logs and of nested logs, read, and the fault that is reported of each.

use spy_grammar::PrivWord::{Red, Ro, Rw};
use spy_grammar::{LRecord, LineFault, NRecord, PrivWord, read_launch_line, read_nested_line};
use std::test::Fail;

/// What a further record of a launch log says in the order of its words, with stand-ins for what it does not say.
#[rattlefmt::skip]
fn launch_words(rec: &LRecord) -> ([u32; 3], &[u32], PrivWord, bool) {
    match rec {
        LRecord::Plain(_) => ([0, 0, 0], [].as_slice(), Ro, false),
        LRecord::Launch { base, colours } => ([*base, 0, 0], colours.as_slice(), Ro, false),
        LRecord::Lreq { base, tree, part, fields, access, atomic } => ([*base, *tree, *part], fields.as_slice(), *access, *atomic),
    }
}

#[test]
fn reads_lines_of_launch_logs(rt: HostRuntime) -> Result<(), Fail> {
    for (line, numbers, list, access, atomic) in [
        ("task 3", [0, 0, 0], [].as_slice(), Ro, false),
        ("launch 7 0,2", [7, 0, 0], [0, 2].as_slice(), Ro, false),
        (
            "lreq 7 2 3 1,4 red:5 at",
            [7, 2, 3],
            [1, 4].as_slice(),
            Red(5),
            true,
        ),
    ] {
        let rec = read_launch_line(rt.alloc(), line.as_bytes())
            .ok()
            .flatten()
            .ok_or("no record")?;
        let words = launch_words(&rec);
        assert!(rt; words.0 == numbers && words.1 == list, "at {line}");
        assert!(rt; words.2 == access && words.3 == atomic, "at {line}");
    }
    Ok(())
}

/// What a further record of a nested log says in the order of its words, with stand-ins for what it does not say.
#[rattlefmt::skip]
fn nested_words(rec: &NRecord) -> ([u32; 3], &[u32], PrivWord) {
    match rec {
        NRecord::Plain(_) => ([0, 0, 0], [].as_slice(), Ro),
        NRecord::Group { id, parent } => ([*id, *parent, 0], [].as_slice(), Ro),
        NRecord::Greq { group, tree, space, fields, access } => ([*group, *tree, *space], fields.as_slice(), *access),
        NRecord::Member { task, group } => ([*task, *group, 0], [].as_slice(), Ro),
    }
}

#[test]
fn reads_lines_of_nested_logs(rt: HostRuntime) -> Result<(), Fail> {
    for (line, numbers, list, access) in [
        ("task 3", [0, 0, 0], [].as_slice(), Ro),
        ("group 1 0", [1, 0, 0], [].as_slice(), Ro),
        ("greq 0 2 3 1,4 rw", [0, 2, 3], [1, 4].as_slice(), Rw),
        ("member 2 0", [2, 0, 0], [].as_slice(), Ro),
    ] {
        let rec = read_nested_line(rt.alloc(), line.as_bytes())
            .ok()
            .flatten()
            .ok_or("no record")?;
        let words = nested_words(&rec);
        assert!(rt;
            words.0 == numbers && words.1 == list && words.2 == access,
            "at {line}"
        );
    }
    Ok(())
}

#[test]
fn tells_the_fault_in_launch_logs(rt: HostRuntime) {
    for (line, fault) in [
        ("group 1 0", LineFault::Word),
        ("launch", LineFault::Form),
        ("launch 1 0 1", LineFault::Form),
        ("launch 1 -", LineFault::Form),
        ("launch 0 1,0", LineFault::Number),
        ("launch 1 1,0", LineFault::Order),
        ("lreq 1 1 1 1 ro", LineFault::Form),
        ("lreq 1 1 1 1 at ro", LineFault::Form),
        ("lreq 1 1 1 1 ro at ex", LineFault::Form),
        ("lreq 1 1 0 1 ro at", LineFault::Number),
        ("task 0", LineFault::Number),
    ] {
        let read = read_launch_line(rt.alloc(), line.as_bytes());
        assert!(rt; read.err() == Some(fault), "at {line}");
    }
}

#[test]
fn tells_the_fault_in_nested_logs(rt: HostRuntime) {
    for (line, fault) in [
        ("launch 1 0", LineFault::Word),
        ("lreq 1 1 1 1 ro at", LineFault::Word),
        ("group 1", LineFault::Form),
        ("greq 1 1 1 1", LineFault::Form),
        ("greq 1 1 1 1 ro at", LineFault::Form),
        ("member 1 0 1", LineFault::Form),
        ("group 0 1", LineFault::Number),
        ("greq 1 0 1 1 ro", LineFault::Number),
        ("member 0 1", LineFault::Number),
        ("greq 1 1 1 2,1 ro", LineFault::Order),
        ("task", LineFault::Form),
    ] {
        let read = read_nested_line(rt.alloc(), line.as_bytes());
        assert!(rt; read.err() == Some(fault), "at {line}");
    }
}
