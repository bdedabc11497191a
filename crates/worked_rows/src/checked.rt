//! The worked examples of `check`, each through `run`.

use std::alloc::Global;
use std::test::Fail;
use worked_answers::{
    GATHERED_REDUCTIONS, STALE_COPY, Status, TURNED_WRITES, TWO_OPERATORS, TWO_TASKS,
    WRITE_THEN_READ, answer, edited, framed,
};

#[rattlefmt::skip]
#[test]
fn checked_logs(rt: HostRuntime) -> Result<(), Fail> {
    let alloc = rt.alloc();
    let rows: [(&[u8], &[u8], Status, &[u8]); 35] = [
        // A write and a read that waits on it.
        (WRITE_THEN_READ, b"", Status::Yes, b"accepted tasks 2 operations 2 reads 4\n"),
        (WRITE_THEN_READ, b"13 run 2 2 -", Status::Refused, b"race 1 2 inst 1 point 0 field 1\n"),
        (WRITE_THEN_READ, b"12 run 1 1 2", Status::Refused, b"cycle 1 2\n"),
        (WRITE_THEN_READ, b"2 ispace 1 -\n13 run 2 2 -", Status::Yes, b"accepted tasks 2 operations 2 reads 0\n"),
        (WRITE_THEN_READ, b"6 req 1 1 1 1 ro ex\n13 run 2 2 -", Status::Refused, b"differ task 1 req 1 point 0 field 1 got raw want init\n"),
        (WRITE_THEN_READ, b"6 req 1 1 1 1 ro ex\n9 inst 1 1 1 1 home\n13 run 2 2 -", Status::Yes, b"accepted tasks 2 operations 2 reads 8\n"),
        (WRITE_THEN_READ, b"12 run 1 1 -\n12 merge 2 1\n12 merge 3 2\n13 run 2 4 3\n14 end 14", Status::Yes, b"accepted tasks 2 operations 2 reads 4\n"),
        (WRITE_THEN_READ, b"13 run 2 2 1\n13 merge 3 5\n13 merge 4 3\n13 merge 5 4\n14 end 15", Status::Refused, b"cycle 3 4 5\n"),
        (WRITE_THEN_READ, b"4 tree 1 1 1\n4 tree 2 1 1\n8 req 2 2 1 1 wd ex\n9 inst 1 1 1 1 plain\n9 inst 2 2 1 1 plain\n11 map 2 1 1 2\n13 run 2 2 -\n14 end 14", Status::Yes, b"accepted tasks 2 operations 2 reads 0\n"),
        (WRITE_THEN_READ, b"2 ispace 1 0-1048575", Status::Yes, b"accepted tasks 2 operations 2 reads 1048576\n"),
        (WRITE_THEN_READ, b"14", Status::Fault, b"fault 14 ended\n"),
        (WRITE_THEN_READ, b"14 end 11", Status::Fault, b"fault 14 count\n"),
        (WRITE_THEN_READ, b"9 inst 1 1 1 1 plan", Status::Fault, b"fault 9 form\n"),
        (WRITE_THEN_READ, b"9 inst 01 1 1 1 plain", Status::Fault, b"fault 9 number\n"),
        (WRITE_THEN_READ, b"2 ispace 1 3,1", Status::Fault, b"fault 2 order\n"),
        (WRITE_THEN_READ, b"2 ispace 1 0-3:0,2-5:0", Status::Fault, b"fault 2 order\n"),
        (WRITE_THEN_READ, b"2 ispace 1 0:0,1", Status::Fault, b"fault 2 form\n"),
        (WRITE_THEN_READ, b"2 ispace 1 0:0-3", Status::Fault, b"fault 2 version\n"),
        (WRITE_THEN_READ, b"2 ispace 1 0-1023:0-1023,1024:0", Status::Fault, b"fault 2 too-many-points\n"),
        (WRITE_THEN_READ, b"2 jspace 1 0-3", Status::Fault, b"fault 2 word\n"),
        // A field that is not mapped, which no other command minds.
        (TWO_TASKS, b"", Status::Fault, b"fault 6 unmapped\n"),
        // A stale copy, a fresh one, and one of a part.
        (STALE_COPY, b"", Status::Refused, b"differ task 3 req 1 point 0 field 1 got out:1 want out:2\n"),
        (STALE_COPY, b"17 run 2 2 1\n18 copy 1 2 1 1 3 2", Status::Yes, b"accepted tasks 3 operations 4 reads 8\n"),
        (STALE_COPY, b"2 ispace 1 0-3\n2 ispace 2 0-2\n17 run 2 2 1\n18 copy 1 2 2 1 3 2\n20 end 19", Status::Refused, b"differ task 3 req 1 point 3 field 1 got raw want out:2\n"),
        // A writer that is mapped to another instance than an earlier reader needs no order against it.
        (STALE_COPY, b"8 req 2 1 1 1 ro ex\n10 req 3 1 1 1 wd ex\n16 run 1 1 -\n17 run 2 2 1\n18 run 3 3 -\n19\n20 end 17", Status::Yes, b"accepted tasks 3 operations 3 reads 4\n"),
        // Reductions gathered and folded once, folded twice, gathered in what was not emptied, and read too early.
        (GATHERED_REDUCTIONS, b"", Status::Yes, b"accepted tasks 3 operations 5 reads 1\n"),
        (GATHERED_REDUCTIONS, b"21 fold 2 1 1 1 5 4\n21 run 3 6 5\n22 end 21", Status::Refused, b"differ task 3 req 1 point 0 field 1 got init+1[1.1*2,2.1*2] want init+1[1.1*1,2.1*1]\n"),
        (GATHERED_REDUCTIONS, b"17\n18 run 1 2 -\n19 run 2 3 -\n22 end 19", Status::Refused, b"differ task 3 req 1 point 0 field 1 got raw want init+1[1.1*1,2.1*1]\n"),
        (GATHERED_REDUCTIONS, b"21 run 3 5 -", Status::Refused, b"race 4 5 inst 1 point 0 field 1\n"),
        // Two operators, unordered and ordered; and one operator.
        (TWO_OPERATORS, b"", Status::Refused, b"race 1 2 inst 1 point 0 field 1\n"),
        (TWO_OPERATORS, b"15 run 2 2 1", Status::Yes, b"accepted tasks 2 operations 2 reads 0\n"),
        (TWO_OPERATORS, b"10 req 2 1 1 1 red:1 ex", Status::Yes, b"accepted tasks 2 operations 2 reads 0\n"),
        // An atomic pair, turned by the log, not turned, and one that may not be.
        (TURNED_WRITES, b"", Status::Yes, b"accepted tasks 2 operations 2 reads 8\n"),
        (TURNED_WRITES, b"9\n15 end 12", Status::Refused, b"differ task 2 req 1 point 0 field 1 got init want out:1\n"),
        (TURNED_WRITES, b"6 req 1 1 1 1 rw ex\n8 req 2 1 1 1 rw ex", Status::Fault, b"fault 9 serial-order\n"),
    ];
    for (log, edits, status, report) in rows {
        let log = edited(alloc, log, edits)?;
        let (ended, said) = answer(alloc, "check", &log)?;
        assert_eq!(rt; said.as_slice(), report);
        assert!(rt; ended == status);
    }
    Ok(())
}

/// The log of that many tasks that all reduce at 16 points, of which 65,000 instances hold a copy.
fn load_log(alloc: Global, tasks: u64) -> Result<Vec<u8>, Fail> {
    let mut lines = b"ispace 1 0-15\nfields 1 1\ntree 1 1 1\nredop 1\n".to_vec(alloc)?;
    for i in 1..65_001u64 {
        let line = format!(in alloc; "inst {i} 1 1 1 plain\n")?;
        lines.extend_from_slice(line.as_bytes())?;
    }
    for t in 1..tasks.wrapping_add(1) {
        let four = format!(in alloc;
            "task {t}\nreq {t} 1 1 1 red:1 ex\nmap {t} 1 1 1\nrun {t} {t} -\n"
        )?;
        lines.extend_from_slice(four.as_bytes())?;
    }
    framed(alloc, &lines)
}

/// The log of that many merges, each of which waits on the one before it.
fn merges_log(alloc: Global, merges: u64) -> Result<Vec<u8>, Fail> {
    let mut lines = b"merge 1 -\n".to_vec(alloc)?;
    for i in 2..merges.wrapping_add(1) {
        let before = i.wrapping_sub(1);
        let line = format!(in alloc; "merge {i} {before}\n")?;
        lines.extend_from_slice(line.as_bytes())?;
    }
    framed(alloc, &lines)
}

#[test]
fn logs_at_the_limits(rt: HostRuntime) -> Result<(), Fail> {
    let alloc = rt.alloc();
    let (status, said) = answer(alloc, "check", &load_log(alloc, 64)?)?;
    assert_eq!(rt;
        said.as_slice(),
        b"accepted tasks 64 operations 64 reads 0\n".as_slice()
    );
    assert!(rt; status == Status::Yes);
    let (status, said) = answer(alloc, "check", &load_log(alloc, 65)?)?;
    assert_eq!(rt; said.as_slice(), b"fault 65266 too-much-load\n".as_slice());
    assert!(rt; status == Status::Fault);
    let (status, said) = answer(alloc, "check", &merges_log(alloc, 131_072)?)?;
    assert_eq!(rt;
        said.as_slice(),
        b"accepted tasks 0 operations 0 reads 0\n".as_slice()
    );
    assert!(rt; status == Status::Yes);
    let (status, said) = answer(alloc, "check", b"legion-spy 1\nispace 1 0-1048575\nend 1\n")?;
    assert_eq!(rt;
        said.as_slice(),
        b"accepted tasks 0 operations 0 reads 0\n".as_slice()
    );
    assert!(rt; status == Status::Yes);
    Ok(())
}
