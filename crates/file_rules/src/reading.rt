ghost use Rattle.std.specs.Prelude.{◌≡◌, ◌+◌, ◌++◌, [], IfOk, IfErr, option_map};
ghost use Rattle.std.specs.List.{slice_get};
ghost use Rattle.file_rules.specs.Stages as stages;
ghost use Rattle.file_rules.specs.Read as rules;

use crate::gathered::Gathered;
use crate::states::Read;
use program_parts::Next;
use std::alloc::Global;
use std::marker::Model;
use tect_ids::{Answer, BlkId, Bytes, ChunkKey, Items, NoMemory, Place, Row, RowPart};

/// What a read has from the file's list of blocks on: the list, which of its blocks is read now, and the bytes of those before it.
#[derive(Drop)]
pub struct Reading {
    parts: Items<RowPart>,
    at: usize,
    bytes: Gathered<u8>,
}

impl Model for Reading {
    ghost use Rattle.std.specs.Prelude.{◌<◌, length};
    ghost use Rattle.file_rules.specs.Stages as stages;

    ghost Value = { stages.Reading };

    ghost view = { λ reading. record { parts = reading.parts; at = reading.at; bytes = reading.bytes } };

    ghost invariant = { λ reading. reading.at < length reading.parts };
}

/// The chunks of the block that is read now, and the one of them that is asked for, after those before it were asked for in vain.
#[derive(Drop)]
pub struct Fetching {
    chunks: Gathered<ChunkKey>,
    tried: usize,
    chunk: ChunkKey,
}

impl Model for Fetching {
    ghost use Rattle.std.specs.Prelude.{◌<◌, length};
    ghost use Rattle.file_rules.specs.Stages as stages;

    ghost Value = { stages.Fetching };

    ghost view = { λ fetching. record { chunks = fetching.chunks; tried = fetching.tried; chunk = fetching.chunk } };

    ghost invariant = { λ fetching. fetching.tried < length fetching.chunks };
}

// The block of the row with that index.
fn block_at(parts: &[RowPart], at: usize) -> Option<BlkId>
    ensures { result ≡ option_map (λ part. part.blk) (slice_get parts.now at) }
{
    let part = parts.get(at)?;
    Some(part.blk)
}

impl Reading {
    /// Where a read goes on once it has the file's blocks: none is read yet, and of a file without blocks it has all bytes. It takes no
    /// memory.
    pub fn begin(alloc: Global, parts: Items<RowPart>) -> Next<Read, Answer>
        ensures { result ≡ rules.read_on record { parts = parts; at = 0; bytes = [] } }
    {
        match block_at(parts.as_slice(), 0) {
            None => Next::Comes {
                result: Answer::Read {
                    bytes: Items::new(),
                },
            },
            Some(blk) => Next::Goes {
                state: Read::Locate {
                    reading: Reading {
                        parts,
                        at: 0,
                        bytes: Gathered::new(alloc),
                    },
                    blk,
                },
            },
        }
    }

    /// Where a read goes on with the bytes of the block that it reads now: at the next block, or it has all bytes. For want of memory it is
    /// as before.
    pub fn add(self, alloc: Global, bytes: Bytes) -> Result<Next<Read, Answer>, Reading>
        ensures ok { IfOk result (λ next. next
            ≡ rules.read_on record { parts = self.parts; at = self.at + 1; bytes = self.bytes ++ bytes }) }
        ensures err { IfErr result (λ same. same ≡ self) }
    {
        match block_at(self.parts.as_slice(), self.at + 1) {
            Some(blk) => self.go_on(blk, bytes),
            None => match self.all_with(alloc, bytes) {
                Ok(bytes) => Ok(Next::Comes {
                    result: Answer::Read { bytes },
                }),
                Err(NoMemory) => Err(self),
            },
        }
    }

    // At the next block, which is this one.
    fn go_on(self, blk: BlkId, bytes: Bytes) -> Result<Next<Read, Answer>, Reading>
        requires { option_map (λ part. part.blk) (slice_get self.parts (self.at + 1)) ≡ Some blk }
        ensures ok { IfOk result (λ next. next
            ≡ rules.read_on record { parts = self.parts; at = self.at + 1; bytes = self.bytes ++ bytes }) }
        ensures err { IfErr result (λ same. same ≡ self) }
    {
        let Reading {
            parts,
            at,
            bytes: before,
        } = self;
        let mut all = before;
        match all.extend(bytes.as_slice()) {
            Ok(()) => Ok(Next::Goes {
                state: Read::Locate {
                    reading: Reading {
                        parts,
                        at: at + 1,
                        bytes: all,
                    },
                    blk,
                },
            }),
            Err(NoMemory) => Err(Reading {
                parts,
                at,
                bytes: all,
            }),
        }
    }

    // The bytes so far and these. Where there are none so far, these are shared.
    fn all_with(&self, alloc: Global, bytes: Bytes) -> Result<Bytes, NoMemory>
        ensures { IfOk result (λ all. all ≡ self.now.bytes ++ bytes) }
    {
        let before = self.bytes.as_slice();
        if before.is_empty() {
            return Ok(bytes);
        }
        let mut all = Vec::new(alloc);
        all.reserve_exact(before.len() + bytes.len())?;
        all.extend_from_slice(before)?;
        all.extend_from_slice(bytes.as_slice())?;
        Items::from_vec(all)
    }
}

/// The chunks of a block's rows that are placed, in the order of the rows.
pub fn placed_chunks(
    alloc: Global,
    blk: BlkId,
    rows: &[Row],
) -> Result<Gathered<ChunkKey>, NoMemory>
    ensures { IfOk result (λ chunks. chunks ≡ rules.placed_chunks blk rows.now) }
{
    let mut chunks = Gathered::new(alloc);
    for row in rows {
        if row.placed {
            chunks.push(ChunkKey {
                disk: row.disk,
                blk,
                tag: row.tag,
            })?;
        }
    }
    Ok(chunks)
}

// The chunk with that index is asked for next. That there is none left is odd.
fn fetch_on(
    place: Place,
    reading: Reading,
    chunks: Gathered<ChunkKey>,
    tried: usize,
) -> Next<Read, Answer>
    ensures { result ≡ rules.fetch_on place reading chunks tried }
{
    match chunks.as_slice().get(tried) {
        None => Next::Comes {
            result: Answer::Odd { place },
        },
        Some(chunk) => {
            let chunk = *chunk;
            Next::Goes {
                state: Read::Fetch {
                    reading,
                    fetching: Fetching {
                        chunks,
                        tried,
                        chunk,
                    },
                },
            }
        }
    }
}

impl Fetching {
    /// Where a read goes on with these chunks of a block: it asks for the first. The reply came from that place; that there is no chunk is
    /// odd. It takes no memory.
    pub fn begin(place: Place, reading: Reading, chunks: Gathered<ChunkKey>) -> Next<Read, Answer>
        ensures { result ≡ rules.fetch_on place reading chunks 0 }
    {
        fetch_on(place, reading, chunks, 0)
    }

    /// The chunk that is asked for.
    pub fn chunk(&self) -> ChunkKey
        ensures { result ≡ self.now.chunk }
    {
        self.chunk
    }

    /// Where a read goes on after the chunk was asked for in vain: it asks for the next one. The reply came from that place; that there is
    /// no further one is odd. It takes no memory.
    pub fn fetch_next(self, place: Place, reading: Reading) -> Next<Read, Answer>
        ensures { result ≡ rules.fetch_on place reading self.chunks (self.tried + 1) }
    {
        let tried = self.tried + 1;
        fetch_on(place, reading, self.chunks, tried)
    }
}
