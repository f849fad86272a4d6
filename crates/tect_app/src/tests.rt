use crate::{Status, run, run_race};
use std::alloc::{AllocError, Global};
use std::process::Abort;
use std::sync::Wait;
use std::test::Fail;
use std::thread::Threads;
use tect_edge::{BytesSink, BytesSource, Gate, MeetGate, OpenGate, SureSink, SureSource};

fn strings(alloc: Global, words: &[&str]) -> Result<Vec<String>, AllocError> {
    let mut strings = Vec::new(alloc);
    for word in words {
        strings.push(String::from_str(alloc, word)?)?;
    }
    Ok(strings)
}

/// The status and the output of a run, where these calls of the source and of the sink fail.
fn outcome<R: Threads + Wait + Sync>(
    rt: &R,
    alloc: Global,
    words: &[&str],
    input: &[u8],
    failing_takes: &[u64],
    failing_puts: &[u64],
) -> Result<(u8, Vec<u8>), AllocError> {
    let words = strings(alloc, words)?;
    let mut source = BytesSource::new(
        Vec::from_slice(alloc, input)?,
        Vec::from_slice(alloc, failing_takes)?,
    );
    let mut sink = BytesSink::new(alloc, Vec::from_slice(alloc, failing_puts)?);
    let status = run(rt, alloc, &words, &mut source, &mut sink, &OpenGate);
    Ok((status.number(), Vec::from_slice(alloc, sink.bytes())?))
}

const ROW: &[u8] = b"store 1 1 1 3 3\nc1 create /a\nc1 look /a\n";

const WRITERS: &[u8] =
    b"store 1 1 1 3 3\nc1 create /f\nc1 open /f\nc2 open /f\nc1 append /f 6869\nc2 append /f 796f\nc2 read /f\n";

#[test]
fn statuses_and_texts(rt: HostRuntime) -> Result<(), Fail> {
    let row: &[u8] = b"c1 1 2 ok file 4294967297\nc1 2 1 ok file 4294967297\nend\n";
    let cases: [(&[&str], &[u8], &[u64], &[u64], u8, &[u8]); 15] = [
        (&["replay"], ROW, &[], &[], 0, row),
        (
            &["replay"],
            b"store 1 1 1 3 3\nc1 create /a\nc1 create /a\nc1 look /b\n",
            &[],
            &[],
            0,
            b"c1 1 2 ok file 4294967297\nc1 2 3 ok file 4294967298\nc1 3 1 no-name\nend\n",
        ),
        (&["replay"], b"store 1 1 1 3 3\n", &[], &[], 0, b"end\n"),
        (&["replay"], b"", &[], &[], 3, b"bad line 1 column 1\n"),
        (
            &["replay"],
            b"store 1 1 1 3 3\nc1 create /a",
            &[],
            &[],
            3,
            b"bad line 2 column 13\n",
        ),
        (
            &["replay"],
            b"store 1 1 1 3 3\nc1 run\n",
            &[],
            &[],
            3,
            b"bad line 2 column 1\n",
        ),
        (
            &["replay"],
            b"store 1 1 1 3 3\nc1 look /\x80\n",
            &[],
            &[],
            3,
            b"bad line 2 column 9\n",
        ),
        (
            &["replay"],
            b"store 65 1 1 3 3\n",
            &[],
            &[],
            8,
            b"too large shards 64\n",
        ),
        (&["replay"], ROW, &[1], &[], 4, b"read fault\n"),
        (&["replay"], WRITERS, &[2], &[], 4, b"read fault\n"),
        (
            &["replay"],
            WRITERS,
            &[],
            &[3],
            5,
            b"c1 1 2 ok file 4294967297\nc1 2 2 ok file 4294967297 token 1.2\n",
        ),
        (
            &["replay"],
            ROW,
            &[],
            &[2],
            5,
            b"c1 1 2 ok file 4294967297\n",
        ),
        (
            &["race"],
            ROW,
            &[],
            &[],
            2,
            b"usage: tect replay, race, make or judge\n",
        ),
        (&["race"], ROW, &[], &[1], 5, b""),
        (&["race", "--workers", "2"], ROW, &[], &[1], 5, b""),
    ];
    for (words, input, takes, puts, status, output) in cases {
        let (found, text) = outcome(&rt, rt.alloc(), words, input, takes, puts)?;
        assert_eq!(rt; found, status);
        assert_eq!(rt; text.as_slice(), output);
    }
    Ok(())
}

#[test]
fn nothing_fails_over_sure_ends(rt: HostRuntime) -> Result<(), Fail> {
    let words = strings(rt.alloc(), &["replay"])?;
    let mut source = SureSource::new(Vec::from_slice(rt.alloc(), ROW)?);
    let mut sink = SureSink::new(rt.alloc(), 26)?;
    let status = run(&rt, rt.alloc(), &words, &mut source, &mut sink, &OpenGate);
    assert_eq!(rt; status, Status::Ok);
    assert_eq!(rt; sink.bytes(), b"c1 1 2 ok file 4294967297\n".as_slice());
    Ok(())
}

/// A script in which one client looks at the root so often.
fn looks(alloc: Global, count: u32) -> Result<Vec<u8>, AllocError> {
    let mut script = Vec::from_slice(alloc, b"store 1 1 1 3 3\n")?;
    for _look in 0..count {
        script.extend_from_slice(b"c1 look /\n")?;
    }
    Ok(script)
}

#[test]
fn a_report_of_a_race_is_cut(rt: HostRuntime) -> Result<(), Fail> {
    // Each line is a piece, and the sink fails at the second.
    let words = ["race", "--workers", "2"];
    let input = looks(rt.alloc(), 50)?;
    let (status, whole) = outcome(&rt, rt.alloc(), &words, &input, &[], &[])?;
    assert_eq!(rt; status, 0);
    let (status, cut) = outcome(&rt, rt.alloc(), &words, &input, &[], &[2])?;
    assert_eq!(rt; status, 5);
    assert!(rt; whole.starts_with(&cut));
    assert!(rt; 0 < cut.len() && cut.len() < 64 && 64 < whole.len());
    Ok(())
}

#[test]
fn two_workers_meet(rt: HostRuntime) -> Result<(), Fail> {
    let input: &[u8] = b"store 1 2 1 1 1\nc1 create /a\nc2 create /b\ndump\n";
    let output: &[u8] = b"c1 1 2 ok file 4294967297\n\
          c2 1 2 ok file 8589934593\n\
          dir 1 parent 0 open entries 2 holds 0\n\
          entry 1 a file 4294967297\n\
          entry 1 b file 8589934593\n\
          file 4294967297 open token none blocks 0 holds 1\n\
          file 8589934593 open token none blocks 0 holds 1\n\
          end\n";
    let gate = MeetGate::start(200_000_000);
    let mut source = SureSource::new(Vec::from_slice(rt.alloc(), input)?);
    let mut sink = SureSink::new(rt.alloc(), 1000)?;
    let status = run_race(&rt, rt.alloc(), 2, &mut source, &mut sink, &gate);
    assert_eq!(rt; status, Status::Ok);
    assert_eq!(rt; sink.bytes(), output);
    assert!(rt; gate.met());
    Ok(())
}
