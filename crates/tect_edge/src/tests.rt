use crate::{
    BytesSink, BytesSource, Failed, Gate, MeetGate, OpenGate, ReadFault, StdSink, SureSink,
    put_all, read_input,
};
use std::alloc::{AllocError, Global};
use std::io::{self, ErrorKind, Write};
use std::test::Fail;
use std::thread::join;
use tect_ids::{NoMemory, Place};

/// A source of `length` bytes 7, some of whose calls fail.
fn sevens(alloc: Global, length: usize, failing: &[u64]) -> Result<BytesSource, AllocError> {
    let mut bytes = Vec::new(alloc);
    bytes.resize(length, 7)?;
    Ok(BytesSource::new(bytes, Vec::from_slice(alloc, failing)?))
}

#[test]
fn ample_memory_is_enough(rt: HostRuntime) -> Result<(), Fail> {
    let mut source = sevens(rt.alloc(), 9000, &[])?;
    let found = read_input(rt.alloc(), 9000, &mut source);
    assert!(rt; matches!(&found, Ok(Some(bytes)) if bytes.len() == 9000));
    // 8192 bytes, 808 bytes, the end
    assert_eq!(rt; source.calls(), 3);
    let mut sink = SureSink::new(rt.alloc(), 5)?;
    assert_eq!(rt; put_all(&mut sink, b"onetwo"), Ok(()));
    assert_eq!(rt; sink.bytes(), b"onetw".as_slice());
    Ok(())
}

#[test]
fn failing_second_take_ends_the_reading(rt: HostRuntime) -> Result<(), Fail> {
    let mut source = sevens(rt.alloc(), 9000, &[2])?;
    assert!(rt;
        matches!(
            read_input(rt.alloc(), 9000, &mut source),
            Err(ReadFault::Failed)
        )
    );
    assert_eq!(rt; source.calls(), 2);
    assert_eq!(rt; source.faults(), 1);
    Ok(())
}

#[test]
fn failing_second_put_keeps_the_first_piece(rt: HostRuntime) -> Result<(), Fail> {
    let failing = Vec::from_slice(rt.alloc(), &[2])?;
    let mut sink = BytesSink::new(rt.alloc(), failing);
    assert_eq!(rt; put_all(&mut sink, b"one"), Ok(()));
    assert_eq!(rt; put_all(&mut sink, b"two"), Err(Failed));
    assert_eq!(rt; put_all(&mut sink, b"three"), Ok(()));
    assert_eq!(rt; sink.bytes(), b"onethree".as_slice());
    assert_eq!(rt; sink.faults(), 1);
    Ok(())
}

/// A writer that takes at most 3 bytes a call, one of whose calls fails.
#[derive(Drop)]
struct SlowWriter {
    bytes: Vec<u8>,
    calls: u64,
    failing: u64,
}

impl Write for SlowWriter {
    fn write(&mut self, buf: &[u8]) -> io::Result<usize> {
        self.calls = self.calls.saturating_add(1);
        let count = buf.len().min(3);
        if self.calls == self.failing || self.bytes.extend_from_slice(&buf[..count]).is_err() {
            return Err(io::Error::from(ErrorKind::BrokenPipe));
        }
        Ok(count)
    }

    fn flush(&mut self) -> io::Result<()> {
        Ok(())
    }
}

fn slow_sink(alloc: Global, failing: u64) -> Result<StdSink<SlowWriter>, NoMemory> {
    let writer = SlowWriter {
        bytes: Vec::new(alloc),
        calls: 0,
        failing,
    };
    StdSink::new(alloc, writer)
}

#[test]
fn what_is_held_outlives_a_failure(rt: HostRuntime) -> Result<(), Fail> {
    let mut sink = slow_sink(rt.alloc(), 2)?;
    assert_eq!(rt; put_all(&mut sink, b"abcde"), Ok(()));
    assert_eq!(rt; put_all(&mut sink, b"fgh"), Ok(()));
    assert_eq!(rt; sink.writer().bytes.as_slice(), b"".as_slice());
    assert_eq!(rt; sink.flush(), Err(Failed));
    assert_eq!(rt; sink.writer().bytes.as_slice(), b"abc".as_slice());
    assert_eq!(rt; sink.faults(), 1);
    assert_eq!(rt; sink.flush(), Ok(()));
    assert_eq!(rt; sink.writer().bytes.as_slice(), b"abcdefgh".as_slice());
    Ok(())
}

#[test]
fn a_piece_beyond_the_room_comes_behind_what_is_held(rt: HostRuntime) -> Result<(), Fail> {
    let mut piece = Vec::new(rt.alloc());
    piece.resize(70_000, 7)?;
    let mut sink = slow_sink(rt.alloc(), 0)?;
    assert_eq!(rt; put_all(&mut sink, b"ab"), Ok(()));
    assert_eq!(rt; put_all(&mut sink, &piece), Ok(()));
    assert_eq!(rt; sink.flush(), Ok(()));
    assert_eq!(rt; sink.writer().bytes.len(), 70_002);
    assert!(rt; sink.writer().bytes.starts_with(b"ab\x07"));
    Ok(())
}

#[test]
fn full_writer_is_a_fault(rt: HostRuntime) -> Result<(), Fail> {
    let mut room = [0; 3];
    let mut sink = StdSink::new(rt.alloc(), room.as_mut_slice())?;
    assert_eq!(rt; put_all(&mut sink, b"abcde"), Ok(()));
    // 3 bytes are taken, and then none
    assert_eq!(rt; sink.flush(), Err(Failed));
    assert_eq!(rt; sink.faults(), 1);
    Ok(())
}

/// What a gate is told of one commit.
fn tell_commit<G: Gate>(gate: &G, worker: u32) {
    gate.pass(worker, Place(worker), false);
    gate.pass(worker, Place(worker), true);
    gate.pass(worker, Place(worker), false);
}

#[test]
fn workers_meet_only_side_by_side(rt: HostRuntime) {
    tell_commit(&OpenGate, 0);
    for (first, second) in [(0, 1), (1, 0)] {
        let gate = MeetGate::start(10);
        tell_commit(&gate, first);
        tell_commit(&gate, second);
        assert!(rt; !gate.met(), "{first} before {second}");
    }
    let gate = MeetGate::start(200_000_000);
    assert!(rt; !gate.met());
    join(&rt, || tell_commit(&gate, 0), || tell_commit(&gate, 1));
    assert!(rt; gate.met());
}
