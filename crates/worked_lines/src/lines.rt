//! Lines, read and written: each class of words at its edges, and the fault that is reported of each line.

use spy_grammar::{InstKind, LineFault, Record, good, read_line, write_record};
use std::alloc::{AllocError, Global};
use std::test::Fail;

#[test]
fn writes_what_it_reads(rt: HostRuntime) -> Result<(), Fail> {
    for line in [
        "legion-spy 0",
        "ispace 4294967295 -",
        "ispace 1 0,2-3,5-4294967295",
        "ispace 1 0:0",
        "ispace 1 0-1:0-2,0-1:4,2-4294967295:0-4294967295",
        "part 1 2 disjoint",
        "part 1 2 aliased",
        "sub 1 0 3",
        "fields 1 0,4294967295",
        "tree 1 2 3",
        "redop 1",
        "task 1",
        "req 1 2 3 4 ro ex",
        "req 1 2 3 4 rw at",
        "req 1 2 3 4 wd ex",
        "req 1 2 3 4,5 red:1 at",
        "fill 1 2 3 4 0",
        "serial 3",
        "serial 3 1 2",
        "inst 1 2 3 4 plain",
        "inst 1 2 3 4 home",
        "inst 1 2 3 4 red:4294967295",
        "map 1 2 3 4",
        "run 1 2 -",
        "run 1 2 4,3,3",
        "copy 1 2 3 4 5 -",
        "put 1 2 3 4 5 6",
        "reset 1 2 3 4 -",
        "fold 1 2 3 4 5 6",
        "merge 1 -",
        "end 4294967295",
    ] {
        let rec = read_line(rt.alloc(), line.as_bytes())
            .ok()
            .flatten()
            .ok_or("no record")?;
        assert!(rt; good(&rec), "at {line}");
        let mut text = write_record(rt.alloc(), &rec).ok().ok_or("no memory")?;
        assert_eq!(rt; text.pop(), Some(b'\n'), "at {line}");
        assert_eq!(rt; text.as_slice(), line.as_bytes(), "at {line}");
    }
    Ok(())
}

#[test]
fn reads_the_fields_in_order(rt: HostRuntime) -> Result<(), Fail> {
    let rec = read_line(rt.alloc(), b"inst 5 6 7 1,3 red:2")
        .ok()
        .flatten()
        .ok_or("no record")?;
    let Record::Inst {
        id,
        tree,
        space,
        fields,
        kind,
    } = rec
    else {
        return Err(Fail::new("another kind"));
    };
    assert_eq!(rt; (id, tree, space), (5, 6, 7));
    assert_eq!(rt; fields.as_slice(), [1, 3].as_slice());
    assert!(rt; kind == InstKind::Red(2));
    Ok(())
}

#[test]
fn tells_the_fault(rt: HostRuntime) {
    for (line, fault) in [
        ("jspace 01", LineFault::Word),
        ("Task 1", LineFault::Word),
        (" task 1", LineFault::Word),
        ("task\t1", LineFault::Word),
        ("é 1", LineFault::Word),
        ("launch 1 0", LineFault::Word),
        ("lreq 1 1 1 1 ro at", LineFault::Word),
        ("group 1 0", LineFault::Word),
        ("greq 1 1 1 1 ro", LineFault::Word),
        ("member 1 1", LineFault::Word),
        ("inst 01 x 1 1 plain", LineFault::Form),
        ("task", LineFault::Form),
        ("task ", LineFault::Form),
        ("task  1", LineFault::Form),
        ("task 1 ", LineFault::Form),
        ("task 1 2", LineFault::Form),
        ("task 1\r", LineFault::Form),
        ("task é", LineFault::Form),
        ("task -", LineFault::Form),
        ("task +1", LineFault::Form),
        ("serial", LineFault::Form),
        ("fields 1 -", LineFault::Form),
        ("fields 1 1,,2", LineFault::Form),
        ("fields 1 1,2,", LineFault::Form),
        ("ispace 1 1-", LineFault::Form),
        ("ispace 1 1-2-3", LineFault::Form),
        ("ispace 1 -,1", LineFault::Form),
        ("ispace 1 0:", LineFault::Form),
        ("ispace 1 0:1:2", LineFault::Form),
        ("ispace 1 0:1,2", LineFault::Form),
        ("ispace 1 -:1", LineFault::Form),
        ("run 1 1 ", LineFault::Form),
        ("run 1 1 1-2", LineFault::Form),
        ("part 1 1 both", LineFault::Form),
        ("req 1 1 1 1 RO ex", LineFault::Form),
        ("req 1 1 1 1 ro no", LineFault::Form),
        ("inst 1 1 1 1 red:", LineFault::Form),
        ("inst 1 1 1 1 red", LineFault::Form),
        ("ispace 01 3,1", LineFault::Number),
        ("ispace 1 0:4294967296", LineFault::Number),
        ("ispace 1 01:0,0:0", LineFault::Number),
        ("task 0", LineFault::Number),
        ("task 01", LineFault::Number),
        ("task 4294967296", LineFault::Number),
        ("end 00", LineFault::Number),
        ("end 99999999999999999999999999", LineFault::Number),
        ("run 1 1 0", LineFault::Number),
        ("inst 1 1 1 1 red:0", LineFault::Number),
        ("inst 1 1 1 1 red:01", LineFault::Number),
        ("ispace 1 3,1", LineFault::Order),
        ("ispace 1 5-5", LineFault::Order),
        ("ispace 1 2-1", LineFault::Order),
        ("ispace 1 1-2,2", LineFault::Order),
        ("ispace 1 0:3-1", LineFault::Order),
        ("ispace 1 1:0,0:0", LineFault::Order),
        ("ispace 1 0-3:0,2-5:0", LineFault::Order),
        ("ispace 1 0-1:0,0:1", LineFault::Order),
        ("ispace 1 0-1:0-3,0-1:3", LineFault::Order),
        ("fields 1 2,1", LineFault::Order),
        ("fields 1 1,1", LineFault::Order),
    ] {
        let read = read_line(rt.alloc(), line.as_bytes());
        assert!(rt; read.err() == Some(fault), "at {line}");
    }
}

fn long_line(alloc: Global, start: &[u8], byte: u8) -> Result<Vec<u8>, AllocError> {
    let mut line = Vec::from_slice(alloc, start)?;
    line.resize(1 << 20, byte)?;
    Ok(line)
}

#[test]
fn passes_over(rt: HostRuntime) -> Result<(), Fail> {
    let long = long_line(rt.alloc(), b"#", b' ')?;
    for line in [
        b"".as_slice(),
        b"#".as_slice(),
        b"# \xff\r\x00".as_slice(),
        long.as_slice(),
    ] {
        let read = read_line(rt.alloc(), line).ok().ok_or("a fault")?;
        assert!(rt; read.is_none());
    }
    Ok(())
}

#[test]
fn takes_a_long_line(rt: HostRuntime) -> Result<(), Fail> {
    for (start, byte, fault) in [
        (b"1".as_slice(), b'1', LineFault::Word),
        (b"task ".as_slice(), b'1', LineFault::Number),
        (b"serial 1".as_slice(), b' ', LineFault::Form),
    ] {
        let line = long_line(rt.alloc(), start, byte)?;
        let read = read_line(rt.alloc(), &line);
        assert!(rt; read.err() == Some(fault));
    }
    Ok(())
}
