//! Words of the command line, and `demo`.

use log_gen::stencil;
use spy_grammar::{good, write_record};
use spy_io::{MemSink, MemSource};
use std::alloc::Global;
use std::test::Fail;
use worked_answers::{Status, WRITE_THEN_READ, answer, run, words_of};

/// The status of a command line that reads no source, and what it writes.
fn answer_unread(alloc: Global, line: &str) -> Result<(Status, Vec<u8>), Fail> {
    let words = words_of(alloc, line)?;
    // A call of the source would fail.
    let mut source = MemSource::new(WRITE_THEN_READ.to_vec(alloc)?, 1000, [1].to_vec(alloc)?);
    let mut sink = MemSink::with_room(alloc, 1000, 1000, Vec::new(alloc))
        .ok()
        .ok_or("no memory")?;
    let status = run(alloc, &words, &mut source, &mut sink);
    if source.left() != WRITE_THEN_READ {
        return Err("the source was read".into());
    }
    Ok((status, sink.held().to_vec(alloc)?))
}

#[test]
fn words_that_are_no_command(rt: HostRuntime) -> Result<(), Fail> {
    for line in [
        "",
        " ",
        "orderd",
        "ordered ordered",
        "--help",
        "check --size 4",
        "spare --size 4",
        "spare x",
        "expand --size 4",
        "launched x",
        "launched --point 0",
        "demo",
        "demo --size",
        "demo --size 0",
        "demo --size 501",
        "demo --size 016",
        "demo --size 4 --size 4",
        "demo --size 4 --task 1",
        "why --size 4",
    ] {
        let (status, said) = answer_unread(rt.alloc(), line)?;
        assert!(rt; status == Status::Usage, "at {line}");
        assert_eq!(rt; said.as_slice(), b"usage\n".as_slice());
    }
    Ok(())
}

/// The stencil log, of a row of pieces with halos, over ten steps.
#[rattlefmt::skip]
#[test]
fn words_that_make_a_log(rt: HostRuntime) -> Result<(), Fail> {
    let rows: [(&str, &[u8]); 8] = [
        ("demo --size 1", b"accepted tasks 20 operations 21 reads 300\n"),
        ("demo --size 2", b"accepted tasks 40 operations 62 reads 620\n"),
        ("demo --size=4", b"accepted tasks 80 operations 144 reads 1260\n"),
        ("--size=4 demo", b"accepted tasks 80 operations 144 reads 1260\n"),
        ("--size 4 demo", b"accepted tasks 80 operations 144 reads 1260\n"),
        ("demo --size 4 --", b"accepted tasks 80 operations 144 reads 1260\n"),
        ("demo --size 16", b"accepted tasks 320 operations 636 reads 5100\n"),
        ("demo --size 500", b"accepted tasks 10000 operations 20480 reads 159980\n"),
    ];
    for (line, report) in rows {
        let (status, said) = answer_unread(rt.alloc(), line)?;
        assert!(rt; status == Status::Yes, "at {line}");
        assert_eq!(rt; said.as_slice(), report);
    }
    Ok(())
}

/// Options of `why`: each has to be there once, with a number and no zero before it, and no other command has them.
#[test]
fn words_that_ask_for_no_read(rt: HostRuntime) -> Result<(), Fail> {
    for line in [
        "why",
        "why 2 1 0 1",
        "why --req 1 --point 0 --field 1",
        "why --task 2 --point 0 --field 1",
        "why --task 2 --req 1 --field 1",
        "why --task 2 --req 1 --point 0",
        "why --task 2 --req 1 --point 0 --field",
        "why --task 2 --req 1 --point 0 --field 1 --field 1",
        "why --task 2 --req 1 --point 0 --field 1 --size 4",
        "why --task 2 --req 1 --point 0 --field 1 x",
        "why --task 02 --req 1 --point 0 --field 1",
        "why --task 2 --req 1 --point 00 --field 1",
        "why --task 2 --req +1 --point 0 --field 1",
        "why --task 2 --req 1 --point -1 --field 1",
        "why --task 2 --req 1 --point  --field 1",
        "why --task 4294967296 --req 1 --point 0 --field 1",
        "why --task 2 --req 4294967296 --point 0 --field 1",
        "why --task 2 --req 1 --point 18446744073709551616 --field 1",
        "why --task 2 --req 1 --point 0 --field 4294967296",
        "check --task 2 --req 1 --point 0 --field 1",
    ] {
        let (status, said) = answer_unread(rt.alloc(), line)?;
        assert!(rt; status == Status::Usage, "at {line}");
        assert_eq!(rt; said.as_slice(), b"usage\n".as_slice());
    }
    Ok(())
}

#[test]
fn words_that_ask_for_a_read(rt: HostRuntime) -> Result<(), Fail> {
    for line in [
        "why --task 2 --req 1 --point 0 --field 1",
        "--field=1 why --point=0 --req=1 --task=2",
    ] {
        let (status, said) = answer(rt.alloc(), line, WRITE_THEN_READ)?;
        assert!(rt; status == Status::Yes, "at {line}");
        assert_eq!(rt;
            said.as_slice(),
            b"why task 2 req 1 point 0 field 1\nwrite 1 inst 1 adds 0\n".as_slice()
        );
    }
    Ok(())
}

#[test]
fn the_command_may_stand_behind_dashes(rt: HostRuntime) -> Result<(), Fail> {
    for line in ["check", "check --", "-- check"] {
        let (status, said) = answer(rt.alloc(), line, WRITE_THEN_READ)?;
        assert!(rt; status == Status::Yes);
        assert_eq!(rt;
            said.as_slice(),
            b"accepted tasks 2 operations 2 reads 4\n".as_slice()
        );
    }
    Ok(())
}

/// The text of the stencil log of so many pieces, from 1 to 500.
fn stencil_text(alloc: Global, size: u32) -> Result<Vec<u8>, Fail> {
    let mut text = Vec::new(alloc);
    let records = stencil(alloc, size.max(1).min(500))
        .ok()
        .ok_or("no memory")?;
    for rec in records {
        // Each has a spelling.
        if good(&rec) {
            text.extend_from_slice(&write_record(alloc, &rec).ok().ok_or("no memory")?)?;
        }
    }
    Ok(text)
}

/// An update and a neighbour's stencil work on different instances and need no order, so `ordered` refuses what `check` accepts. The log of 3 pieces lies in the folder `examples` as `stencil_3.log`.
#[test]
fn the_stencil_log_is_accepted_though_not_ordered(rt: HostRuntime) -> Result<(), Fail> {
    let alloc = rt.alloc();
    let rows: [(u32, &[u8], &[u8]); 2] = [
        (
            2,
            b"accepted tasks 40 operations 62 reads 620\n",
            b"unordered 2 5 tree 1 point 10 field 1\n",
        ),
        (
            3,
            b"accepted tasks 60 operations 103 reads 940\n",
            b"unordered 2 6 tree 1 point 10 field 1\n",
        ),
    ];
    for (size, checked, ordered) in rows {
        let log = stencil_text(alloc, size)?;
        let (status, said) = answer(alloc, "check", &log)?;
        assert_eq!(rt; said.as_slice(), checked);
        assert!(rt; status == Status::Yes);
        let (status, said) = answer(alloc, "ordered", &log)?;
        assert_eq!(rt; said.as_slice(), ordered);
        assert!(rt; status == Status::Refused);
        let (_, printed) = answer(alloc, "print", &log)?;
        assert_eq!(rt; printed, log);
    }
    Ok(())
}
