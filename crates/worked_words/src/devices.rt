//! Sources and sinks that fail, give short pieces or have little room, under `check` over one log.

use spy_io::{MemSink, MemSource};
use std::alloc::Global;
use std::test::Fail;
use worked_answers::{Status, WRITE_THEN_READ, run, words_of};

/// The report on the log, where no device fails.
const REPORT: &[u8] = b"accepted tasks 2 operations 2 reads 4\n";

/// A device: how many bytes a call takes or gives at most, how many bytes it has room for, and which call of it fails, if one does.
#[derive(Clone, Copy)]
struct Device {
    cut: usize,
    room: usize,
    failing: Option<u64>,
}

/// A device that does not fail and has room.
const AMPLE: Device = Device {
    cut: 1000,
    room: 1000,
    failing: None,
};

/// The numbers of the calls that fail.
fn failing_calls(alloc: Global, device: Device) -> Result<Vec<u64>, Fail> {
    let mut calls = Vec::new(alloc);
    if let Some(call) = device.failing {
        calls.push(call)?;
    }
    Ok(calls)
}

/// The status of `check` over the log, and what the sink then holds.
fn checked(alloc: Global, source: Device, sink: Device) -> Result<(Status, Vec<u8>), Fail> {
    let words = words_of(alloc, "check")?;
    let log = WRITE_THEN_READ.to_vec(alloc)?;
    let mut source = MemSource::new(log, source.cut.max(1), failing_calls(alloc, source)?);
    let calls = failing_calls(alloc, sink)?;
    let mut sink = MemSink::with_room(alloc, sink.room, sink.cut.max(1), calls)
        .ok()
        .ok_or("no memory")?;
    let status = run(alloc, &words, &mut source, &mut sink);
    Ok((status, sink.held().to_vec(alloc)?))
}

/// A device that takes or gives so many bytes at most, and of which this call fails.
fn failing(cut: usize, call: u64) -> Device {
    Device {
        cut,
        room: 1000,
        failing: Some(call),
    }
}

/// A device that takes a byte at a time, and has room for so many.
fn narrow(room: usize) -> Device {
    Device {
        cut: 1,
        room,
        failing: None,
    }
}

#[test]
fn sources_fail_and_give_short_pieces(rt: HostRuntime) -> Result<(), Fail> {
    let alloc = rt.alloc();
    // The log has 168 bytes, so the call after 168 of a byte each meets the end.
    for call in 1..170u64 {
        let (status, said) = checked(alloc, failing(1, call), AMPLE)?;
        assert!(rt; status == Status::ReadFault);
        assert_eq!(rt; said.as_slice(), b"cannot read\n".as_slice());
    }
    let short = [failing(1, 170), failing(7, 1000), failing(1000, 1000)];
    for source in short {
        let (status, said) = checked(alloc, source, AMPLE)?;
        assert!(rt; status == Status::Yes);
        assert_eq!(rt; said.as_slice(), REPORT);
    }
    Ok(())
}

#[test]
fn sinks_fail_and_have_little_room(rt: HostRuntime) -> Result<(), Fail> {
    let alloc = rt.alloc();
    let mut written = 0usize;
    for call in 1..9u64 {
        let (status, said) = checked(alloc, AMPLE, failing(5, call))?;
        assert!(rt; status == Status::WriteFault);
        assert_eq!(rt; said.as_slice(), REPORT.get(..written).unwrap_or(b""));
        written = written.wrapping_add(5);
    }
    for room in 0..38usize {
        let (status, said) = checked(alloc, AMPLE, narrow(room))?;
        assert!(rt; status == Status::WriteFault);
        assert_eq!(rt; said.as_slice(), REPORT.get(..room).unwrap_or(b""));
    }
    for sink in [failing(5, 9), narrow(38)] {
        let (status, said) = checked(alloc, AMPLE, sink)?;
        assert!(rt; status == Status::Yes);
        assert_eq!(rt; said.as_slice(), REPORT);
    }
    // Both fail: nothing is written.
    let (status, said) = checked(alloc, failing(1000, 1), failing(1000, 1))?;
    assert!(rt; status == Status::WriteFault);
    assert!(rt; said.is_empty());
    Ok(())
}

#[test]
fn each_status_has_its_number(rt: HostRuntime) {
    let cases = [
        (Status::Yes, 0),
        (Status::Refused, 1),
        (Status::Fault, 2),
        (Status::Usage, 3),
        (Status::ReadFault, 4),
        (Status::WriteFault, 5),
        (Status::Memory, 6),
    ];
    for (status, number) in cases {
        assert_eq!(rt; status.number(), number);
    }
}
