//! `tect replay` and `tect race --workers N`: reads a script from the standard input, plays it over a new store, and writes the
//! answers and dumps.
#![tactic(auto)]

ghost use Rattle.std.specs.Prelude.{◌≡◌, ◌≢◌, ◌⊎◌, IfErr, IfOk, IsOk, drop, map, string_bytes};
ghost use Rattle.std.specs.Io.KnownBytes.{Keeps};
ghost use Rattle.std.specs.IoError.{error_kind};
ghost use Rattle.std.specs.Vec.Iter.{into_iter_items};
ghost use Rattle.tect_edge.specs.Counts.{Rose};
ghost use Rattle.tect_edge.specs.Gathering.{sink_writer};
ghost use Rattle.tect_app.specs.Modes.{SpellsNone};
ghost use Rattle.tect_app.specs.Headline.{InMode, IsReported};

use std::alloc::Global;
use std::env::Args;
use std::io::{ErrorKind, Write};
use std::process::ExitCode;
use std::sync::Wait;
use std::thread::Threads;
use std::{env, io};
use tect_app::{Status, run};
use tect_edge::{Failed, OpenGate, Sink, Source, StdSink, StdSource};
use tect_ids::NoMemory;

/// Why the command line gives no words.
#[derive(Clone, Copy, Debug, PartialEq, Eq)]
enum WordsFault {
    /// There was no memory for them.
    NoMemory,
    /// One of them is no text.
    NoText,
}

/// The words behind the program's own name.
fn behind_name(alloc: Global, args: Args) -> Result<Vec<String>, NoMemory>
    ensures { IfOk result (λ words. words.items ≡ drop 1 (into_iter_items args)) }
{
    let mut args = args;
    let _name = args.next();
    let mut words = Vec::new(alloc);
    'words: for word in args {
        words.push(word)?;
    }
    Ok(words)
}

/// The words of the command line, all but the program's own name, or why there are none. Arguments that can't be had are no
/// text, but where memory is wanting for them.
fn words(alloc: Global, args: io::Result<Args>) -> Result<Vec<String>, WordsFault>
    ensures words { IfOk args (λ args. IfOk result (λ words. words.items ≡ drop 1 (into_iter_items args))) }
    ensures had { IsOk args → result ≢ Err WordsFault.NoText }
    ensures starved { IfErr args (λ error. error_kind error ≡ ErrorKind.OutOfMemory → result ≡ Err WordsFault.NoMemory) }
    ensures no_text { IfErr args (λ error. error_kind error ≢ ErrorKind.OutOfMemory → result ≡ Err WordsFault.NoText) }
{
    match args {
        Ok(args) => match behind_name(alloc, args) {
            Ok(words) => Ok(words),
            Err(NoMemory) => Err(WordsFault::NoMemory),
        },
        Err(error) => match error.kind() {
            ErrorKind::OutOfMemory => Err(WordsFault::NoMemory),
            _ => Err(WordsFault::NoText),
        },
    }
}

/// Runs the program at its words. Want of memory for them ends it before anything is read or written, and words that are no
/// text are answered as no words are.
fn run_words<R: Threads + Wait + Sync, S: Source, K: Sink>(
    rt: &R,
    alloc: Global,
    words: Result<Vec<String>, WordsFault>,
    source: &mut S,
    sink: &mut K,
) -> Status
    ensures starved { words ≡ Err WordsFault.NoMemory → (result ≡ Status.NoMemory) × (source.new ≡ source.old) × (sink.new ≡ sink.old) }
    ensures no_text { words ≡ Err WordsFault.NoText → (result ≡ Status.Usage) ⊎ (result ≡ Status.WriteFault) }
    ensures unread { words ≡ Err WordsFault.NoText → source.new ≡ source.old }
    ensures no_mode { IfOk words (λ words. SpellsNone (map string_bytes words.items)
        → (result ≡ Status.Usage) ⊎ (result ≡ Status.WriteFault)) }
    ensures reported { IfOk words (λ words. result ≡ Status.Ok → InMode (map string_bytes words.items)
        (λ mode. IsReported mode (S.left source.old) (S.left source.new) (K.written sink.old) (K.written sink.new))) }
{
    match words {
        Ok(words) => run(rt, alloc, &words, source, sink, &OpenGate),
        Err(WordsFault::NoText) => run(rt, alloc, &[], source, sink, &OpenGate),
        Err(WordsFault::NoMemory) => Status::NoMemory,
    }
}

/// Writes the rest out, and answers with which status the program ends: with its run's, or with `WriteFault` where the rest
/// can't be written. That comes in place of any other, since what the run's status says to be written may be in the rest.
fn finish<W: Write + Drop>(status: Status, sink: &mut StdSink<W>) -> Status
    ensures only { (result ≡ status) ⊎ (result ≡ Status.WriteFault) }
    ensures written { result ≢ Status.WriteFault
        → Keeps (⟦<StdSink<W> as Sink>⟧.written sink.old) (W.contents (sink_writer sink.new)) }
    ensures failed { result ≢ status → Rose (⟦<StdSink<W> as Sink>⟧.faults sink.old) (⟦<StdSink<W> as Sink>⟧.faults sink.new) }
{
    match sink.flush() {
        Ok(()) => status,
        Err(Failed) => Status::WriteFault,
    }
}

/// Runs the program at its words, and writes out all that it put, so that with `Ok` the writer itself holds the whole report.
fn run_to_end<R: Threads + Wait + Sync, S: Source, W: Write + Drop>(
    rt: &R,
    alloc: Global,
    words: Result<Vec<String>, WordsFault>,
    source: &mut S,
    sink: &mut StdSink<W>,
) -> Status
    ensures starved { words ≡ Err WordsFault.NoMemory → (result ≡ Status.NoMemory) ⊎ (result ≡ Status.WriteFault) }
    ensures no_text { words ≡ Err WordsFault.NoText → (result ≡ Status.Usage) ⊎ (result ≡ Status.WriteFault) }
    ensures unread { IfErr words (λ _. source.new ≡ source.old) }
    ensures no_mode { IfOk words (λ words. SpellsNone (map string_bytes words.items)
        → (result ≡ Status.Usage) ⊎ (result ≡ Status.WriteFault)) }
    ensures reported { IfOk words (λ words. result ≡ Status.Ok → InMode (map string_bytes words.items)
        (λ mode. IsReported mode (S.left source.old) (S.left source.new) (⟦<StdSink<W> as Sink>⟧.written sink.old)
        (W.contents (sink_writer sink.new)))) }
{
    let status = run_words(rt, alloc, words, source, sink);
    finish(status, sink)
}

fn main(rt: HostRuntime) -> ExitCode {
    let words = words(rt.alloc(), env::args(&rt));
    let status = match StdSink::new(rt.alloc(), io::writer(&rt)) {
        Ok(mut sink) => {
            let mut source = StdSource::new(rt.reader());
            run_to_end(&rt, rt.alloc(), words, &mut source, &mut sink)
        }
        Err(NoMemory) => Status::NoMemory,
    };
    ExitCode::from(status.number())
}
