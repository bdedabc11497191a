//! The texts of reports, each read and written, and values that are changed before they are written.

use crate::values::value_of;
use findings::{Finding, good_finding, text};
use report_reading::{TextFault, read_text};
use std::test::Fail;
use value_terms::{Base, Contribution};

/// Each form of a report, with the least and the greatest numbers, and each form of a value.
#[rattlefmt::skip]
const REPORTS: [&str; 23] = [
    "accepted tasks 0 operations 0 reads 0\n",
    "accepted tasks 4294967295 operations 4294967295 reads 18446744073709551615\n",
    "ordered tasks 4294967295 pairs 18446744073709551615\n",
    "deps items 4294967295 before 0 turn 0\n",
    "turn 4294967295 4294967295 tree 4294967295 point 18446744073709551615 field 4294967295\nbefore 1 2 tree 3 point 4 field 5\nturn 2 1 tree 3 point 4 field 5\ndeps items 3 before 1 turn 2\n",
    "spare waits 0 of 18446744073709551615\n",
    "spare 4294967295 0\nspare 4 1\nspare 4 1\nspare waits 3 of 3\n",
    "cycle 0\n",
    "cycle 4294967295 1 2 1\n",
    "race 4294967295 4294967295 inst 4294967295 point 18446744073709551615 field 4294967295\n",
    "unordered 4294967295 4294967295 tree 4294967295 point 18446744073709551615 field 4294967295\n",
    "differ task 0 req 0 point 0 field 0 got raw want init\n",
    "differ task 4294967295 req 4294967295 point 18446744073709551615 field 4294967295 got const:0 want out:4294967295\n",
    "differ task 1 req 1 point 1 field 1 got ident want const:4294967295+4294967295[0.0*1,4294967295.4294967295*18446744073709551614]\n",
    "differ task 1 req 1 point 1 field 1 got const:7+1[1.2*1,1.3*1,2.1*1]+2[1.1*1]+1[1.1*1] want ident+0[9.9*18446744073709551615]\n",
    "no read task 0 req 0 point 0 field 0\n",
    "no read task 4294967295 req 4294967295 point 18446744073709551615 field 4294967295\n",
    "why task 0 req 0 point 0 field 0\nstart inst 0 adds 0\n",
    "why task 4294967295 req 4294967295 point 18446744073709551615 field 4294967295\ncopy 4294967295 inst 4294967295 adds 4294967295\ncopy 1 inst 2 adds 3\nput 2 inst 1 adds 0\n",
    "fault 0 too-long\n",
    "fault 4294967295 unmapped\n",
    "usage\n",
    "cannot read\n",
];

/// Texts that are nearly those of reports.
#[rattlefmt::skip]
const OTHERS: [&str; 29] = [
    "",
    "accepted tasks 4294967296 operations 0 reads 0\n",
    "accepted tasks 00 operations 0 reads 0\n",
    "ordered tasks 1 pairs 18446744073709551616\n",
    "ordered tasks 1 pairs 0\n\n",
    "ordered tasks 1 pairs 0 \n",
    "ordered tasks +1 pairs 0\n",
    "before 1 2 tree 1 point 0 field 1\ndeps items 2 before 0 turn 1\n",
    "before 1 2 tree 1 point 0 field 1\nusage\n",
    "spare 4 1\nspare waits 0 of 3\n",
    "spare 4 1\nspare waits 1 of 0\n",
    "spare 4 4294967296\nspare waits 1 of 1\n",
    "no read task 1 req 1 point 18446744073709551616 field 1\n",
    "why task 1 req 1 point 0 field 1\n",
    "why task 1 req 1 point 0 field 1\ncopy 1 inst 1 adds 0\n",
    "why task 1 req 1 point 0 field 1\nwrite 1 inst 1 adds 0\nstart inst 1 adds 0\n",
    "why task 1 req 1 point 0 field 1\nwrite 0 inst 1 adds 0\n",
    "why task 1 req 1 point 0 field 1\nstart 0 inst 1 adds 0\n",
    "why task 1 req 1 point 0 field 1\nfold 1 inst 1 adds 0\n",
    "start inst 1 adds 0\nwhy task 1 req 1 point 0 field 1\n",
    "why task 1 req 1 point 0 field 1\nusage\n",
    "cycle\n",
    "race 1 2 inst 1 point 0 field 1",
    "differ task 3 req 1 point 0 field 1 got raw want init+1[]\n",
    "differ task 3 req 1 point 0 field 1 got raw want init+1[1.1*18446744073709551615,2.1*1]\n",
    "differ task 3 req 1 point 0 field 1 got raw want init+1[2.1*1,1.1*1]\n",
    "differ task 3 req 1 point 0 field 1 got raw want init+1[1.1*1]+1[2.1*1]\n",
    "differ task 3 req 1 point 0 field 1 got raw+1[1.1*1] want init\n",
    "fault 0 words\n",
];

#[test]
fn reports_are_read_and_written(rt: HostRuntime) -> Result<(), Fail> {
    let alloc = rt.alloc();
    for report in REPORTS {
        let Ok(f) = read_text(alloc, report.as_bytes()) else {
            return Err(Fail::from(report));
        };
        if !good_finding(&f) {
            return Err(Fail::from(report));
        }
        let again = text(alloc, &f).ok().ok_or("no memory")?;
        assert_eq!(rt; again.as_slice(), report.as_bytes());
    }
    for other in OTHERS {
        let read = read_text(alloc, other.as_bytes());
        assert!(rt; read.err() == Some(TextFault::NotAReport), "at {other}");
    }
    let read = read_text(alloc, b"race 1 2 inst 3 point 4 field 5\n").ok();
    assert!(rt;
        matches!(
            read,
            Some(Finding::Race {
                a: 1,
                b: 2,
                inst: 3,
                point: 4,
                field: 5
            })
        )
    );
    Ok(())
}

#[test]
fn values_are_changed_and_written(rt: HostRuntime) -> Result<(), Fail> {
    let alloc = rt.alloc();
    let mut got = value_of(alloc, &(Base::Init, &[(1, 2, 1), (1, 1, 1), (2, 1, 1)]))?;
    let mut folded = value_of(alloc, &(Base::Ident, &[(2, 4, 1)]))?;
    if got.weight() > 9 || folded.weight() > 9 {
        return Err("a heavy value".into());
    }
    let many = folded.add_many(2, Contribution { task: 0, req: 1 }, 3);
    if folded.weight() > 99 {
        return Err("a heavy value".into());
    }
    assert!(rt; many.is_ok() && got.fold(2, &folded).is_ok());
    let Ok(want) = got.copy_of(alloc) else {
        return Err("no memory".into());
    };
    assert!(rt; want.same(&got));
    let f = Finding::Differ {
        task: 3,
        req: 1,
        point: 0,
        field: 1,
        got,
        want,
    };
    if !good_finding(&f) {
        return Err("a report without a text".into());
    }
    let written = text(alloc, &f).ok().ok_or("no memory")?;
    assert_eq!(rt;
        written.as_slice(),
        b"differ task 3 req 1 point 0 field 1 got init+1[1.1*1,2.1*1]+2[0.1*3,1.1*1,4.1*1] want init+1[1.1*1,2.1*1]+2[0.1*3,1.1*1,4.1*1]\n".as_slice()
    );
    Ok(())
}
