ghost use Rattle.std.specs.Prelude.{◌≡◌, ◌<◌, [], Ok, length, IfOk, OnOk, OnErr};
ghost use Rattle.std.specs.Io.{ReadsAtMost, WritesAtMost};
ghost use Rattle.std.specs.Io.Buffered.{writer_contents};
ghost use Rattle.std.specs.Io.KnownBytes.{Keeps, ReadConsumes, WriteAppends};
ghost use Rattle.tect_edge.specs.Counts.{HasCause, next_count};
ghost use Rattle.tect_edge.specs.Gathering.{sink_writer};

use crate::sink::Sink;
use crate::source::{Failed, Source};
use std::alloc::Global;
use std::io::{BufWriter, Read, Write};
use tect_ids::NoMemory;

/// The most bytes that a [`StdSink`] holds.
const ROOM: usize = 65_536;

/// A reader of std with a count of its failures. It tells the bytes left where the reader does.
#[derive(Drop)]
pub struct StdSource<R: Read> {
    inner: R,
    calls: u64,
    faults: u64,
}

impl<R: Read> StdSource<R> {
    /// The reader as a source that was not called and has no fault.
    pub fn new(inner: R) -> StdSource<R>
        ensures left { ⟦<StdSource<R> as Source>⟧.left result ≡ R.remaining inner }
        ensures calls { ⟦<StdSource<R> as Source>⟧.calls result ≡ 0 }
        ensures faults { ⟦<StdSource<R> as Source>⟧.faults result ≡ 0 }
    {
        StdSource {
            inner,
            calls: 0,
            faults: 0,
        }
    }

    /// How often the reader failed, by a count that stays at its last value.
    pub fn faults(&self) -> u64
        ensures { result ≡ ⟦<StdSource<R> as Source>⟧.faults self.now }
    {
        self.faults
    }
}

impl<R: Read> Source for StdSource<R> {
    ghost left = { λ s. R.remaining s.inner };

    ghost faults = { λ s. s.faults };

    ghost calls = { λ s. s.calls };

    /// Fails where the reader does, and then counts one fault more, up to the count's last value.
    fn take(&mut self, into: &mut [u8]) -> Result<usize, Failed>
        ensures bound { ReadsAtMost result into.new }
        ensures bytes { ReadConsumes (R.remaining self.old.inner) (R.remaining self.new.inner) result into.new }
        ensures cause { HasCause self.old.faults self.new.faults result }
        ensures call { self.new.calls ≡ next_count self.old.calls }

        ensures counted { OnErr result (self.new.faults ≡ next_count self.old.faults) }
    {
        self.calls = self.calls.saturating_add(1);
        match self.inner.read(into) {
            Ok(count) => Ok(count),
            Err(_) => {
                self.faults = self.faults.saturating_add(1);
                Err(Failed)
            }
        }
    }
}

/// A writer of std with a count of its failures, and up to 65,536 bytes that it is still to be given. It tells the bytes that
/// the writer holds, where the writer tells them, and those that are held here behind them.
/// A call of the writer that takes nothing is a failure. A sink that is dropped tries to write out what it holds, and nobody
/// hears whether that failed: call `flush` before.
#[derive(Drop)]
pub struct StdSink<W: Write + Drop> {
    gathered: BufWriter<W>,
    faults: u64,
}

impl<W: Write + Drop> StdSink<W> {
    /// The writer as a sink with no fault. It takes the room for all that it may hold now, and fails only for want of it.
    pub fn new(alloc: Global, writer: W) -> Result<StdSink<W>, NoMemory>
        ensures writer { IfOk result (λ sink. sink_writer sink ≡ writer) }
        ensures written { IfOk result (λ sink. ⟦<StdSink<W> as Sink>⟧.written sink ≡ W.contents writer) }
        ensures faults { IfOk result (λ sink. ⟦<StdSink<W> as Sink>⟧.faults sink ≡ 0) }
    {
        match BufWriter::with_capacity(alloc, ROOM, writer) {
            Ok(gathered) => Ok(StdSink {
                gathered,
                faults: 0,
            }),
            Err(_) => Err(NoMemory),
        }
    }

    /// How often the writer failed, by a count that stays at its last value.
    pub fn faults(&self) -> u64
        ensures { result ≡ ⟦<StdSink<W> as Sink>⟧.faults self.now }
    {
        self.faults
    }

    /// The writer, which has none of the bytes that are held.
    pub fn writer(&self) -> &W
        ensures { result.now ≡ sink_writer self.now }
    {
        self.gathered.get_ref()
    }

    /// Writes out what is held, so that the writer holds all that was put, and flushes the writer. It takes no memory.
    ///
    /// After `Failed`, what the writer did not take is still held, and one fault more is counted, up to the count's last value.
    pub fn flush(&mut self) -> Result<(), Failed>
        ensures whole { OnOk result (⟦<StdSink<W> as Sink>⟧.written self.new ≡ W.contents (sink_writer self.new)) }
        ensures bytes { Keeps (⟦<StdSink<W> as Sink>⟧.written self.old) (⟦<StdSink<W> as Sink>⟧.written self.new) }
        ensures cause { HasCause (⟦<StdSink<W> as Sink>⟧.faults self.old) (⟦<StdSink<W> as Sink>⟧.faults self.new) result }
        ensures counted { OnErr result
            (⟦<StdSink<W> as Sink>⟧.faults self.new ≡ next_count (⟦<StdSink<W> as Sink>⟧.faults self.old)) }
    {
        match self.gathered.flush() {
            Ok(()) => Ok(()),
            Err(_) => {
                self.faults = self.faults.saturating_add(1);
                Err(Failed)
            }
        }
    }
}

impl<W: Write + Drop> Sink for StdSink<W> {
    ghost written = { λ s. writer_contents W.contents s.gathered };

    ghost faults = { λ s. s.faults };

    /// Holds the piece. Where there is no room for it, what is held is written out first; a piece as long as the whole room then
    /// goes to the writer itself. It takes no memory.
    ///
    /// Fails where the writer does or takes none of a nonempty piece, and then counts one fault more, up to the count's last
    /// value: nothing of the piece was taken, and nothing that was held is lost. An empty piece is taken without a call of the
    /// writer.
    fn put(&mut self, piece: &[u8]) -> Result<usize, Failed>
        ensures bound { WritesAtMost result piece.now }
        ensures some { 0 < length piece.now → IfOk result (λ n. 0 < n) }
        ensures bytes { WriteAppends (writer_contents W.contents self.old.gathered) (writer_contents W.contents self.new.gathered)
            result piece.now }
        ensures cause { HasCause self.old.faults self.new.faults result }

        ensures counted { OnErr result (self.new.faults ≡ next_count self.old.faults) }
        ensures empty { piece.now ≡ [] → result ≡ Ok 0 }
    {
        if piece.is_empty() {
            return Ok(0);
        }
        match self.gathered.write(piece) {
            Ok(count) if 0 < count => Ok(count),
            _ => {
                self.faults = self.faults.saturating_add(1);
                Err(Failed)
            }
        }
    }
}
