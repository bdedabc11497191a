//! Sources and sinks: in memory, with faults, through a buffer, and over a file.

use buffered_writes::Buffered;
use spy_io::{MemSink, MemSource, ReadEnd, RealSink, RealSource, WriteFault, read_all, write_all};
use std::test::Fail;
use std::{env, fs, process};

#[test]
fn sources_are_read(rt: HostRuntime) -> Result<(), Fail> {
    let alloc = rt.alloc();
    // A source is read on after its fault.
    let mut source = MemSource::new(b"abcdefg".to_vec(alloc)?, 3, [2].to_vec(alloc)?);
    assert!(rt; read_all(alloc, &mut source, 7) == Err(ReadEnd::ReadFault));
    assert_eq!(rt; source.left(), b"defg".as_slice());
    assert!(rt; read_all(alloc, &mut source, 7) == Ok(b"defg".to_vec(alloc)?));
    let mut source = MemSource::new(b"abcd".to_vec(alloc)?, 9, Vec::new(alloc));
    assert!(rt; read_all(alloc, &mut source, 3) == Err(ReadEnd::TooLong));
    Ok(())
}

#[test]
fn sinks_are_written(rt: HostRuntime) -> Result<(), Fail> {
    let alloc = rt.alloc();
    let cases: [(usize, Result<(), WriteFault>, &[u8]); 2] = [
        (7, Ok(()), b"abcdefg"),
        (5, Err(WriteFault), b"abcde"),
    ];
    for (room, answer, held) in cases {
        let Ok(mut sink) = MemSink::with_room(alloc, room, 2, Vec::new(alloc)) else {
            return Err("no memory".into());
        };
        assert!(rt; write_all(&mut sink, b"abcdefg") == answer);
        assert_eq!(rt; sink.held(), held);
    }
    Ok(())
}

#[test]
fn a_buffer_keeps_back_what_it_has_room_for(rt: HostRuntime) -> Result<(), Fail> {
    let alloc = rt.alloc();
    // How many bytes the sink takes, what the last of three pieces and the rest answer, and what the sink then holds.
    let cases: [(usize, Result<(), WriteFault>, &[u8]); 2] = [
        (12, Ok(()), b"abcdefghijkl"),
        (8, Err(WriteFault), b"abcdefgh"),
    ];
    for (room, answer, held) in cases {
        let Ok(mut sink) = MemSink::with_room(alloc, room, 2, Vec::new(alloc)) else {
            return Err("no memory".into());
        };
        let Ok(mut buffer) = Buffered::with_room(alloc, 4) else {
            return Err("no memory".into());
        };
        assert!(rt; buffer.put(&mut sink, b"abc") == Ok(()));
        assert_eq!(rt; sink.held(), b"".as_slice());
        assert!(rt; buffer.put(&mut sink, b"def") == Ok(()));
        assert_eq!(rt; sink.held(), b"abc".as_slice());
        // Longer than the buffer.
        assert!(rt; buffer.put(&mut sink, b"ghijk") == answer);
        if answer == Ok(()) {
            assert!(rt; buffer.put(&mut sink, b"l") == Ok(()));
            assert_eq!(rt; sink.held(), b"abcdefghijk".as_slice());
        }
        assert!(rt; buffer.flush(&mut sink) == Ok(()));
        assert_eq!(rt; sink.held(), held);
    }
    Ok(())
}

#[test]
fn a_file_gives_back_what_was_written(rt: HostRuntime) -> Result<(), Fail> {
    let alloc = rt.alloc();
    let name = format!(in alloc; "spy_io-test-{}", process::id(rt.process()))?;
    let path = env::temp_dir(&rt)?.join(alloc, name.as_str())?;
    let mut sink = RealSink::new(fs::create(&rt, path.as_path())?);
    let wrote = write_all(&mut sink, b"abcdefg");
    let mut source = RealSource::new(fs::open(&rt, path.as_path())?);
    let read = read_all(alloc, &mut source, 7);
    fs::remove_file(&rt, path.as_path())?;
    assert!(rt; wrote == Ok(()) && read == Ok(b"abcdefg".to_vec(alloc)?));
    Ok(())
}
