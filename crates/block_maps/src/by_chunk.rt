ghost use Rattle.std.specs.Prelude.{◌≡◌, ◌==◌, Some, None, IsSome, IsOk, IfOk, IfErr, OnOk, OnErr};
ghost use Rattle.std.specs.Option.{option_copied, option_copied_mut};
ghost use Rattle.std.specs.FinMap.{empty, get, len, entries};
ghost use Rattle.std.specs.Borrow.{LendsIf, sem};
ghost use Rattle.map_words.specs.Pairs.{left};
ghost use Rattle.map_words.specs.Maps.{set_at};
ghost use Rattle.block_maps.specs.Chunks.{on_disk};
ghost use Rattle.block_maps.specs.contracts.by_chunk.ChunkMap.{the_row};

use crate::on_disk::DiskCursor;
use ordered_rows::{Cursor, Rows};
use std::alloc::Global;
use std::marker::Model;
use tect_ids::{ChunkKey, DiskId};

/// Rows by chunk, seen as a finite map.
#[derive(Drop)]
pub struct ChunkMap<V> {
    rows: Rows<ChunkKey, V>,
}

impl<V> Model for ChunkMap<V> {
    ghost use Rattle.std.specs.FinMap as map;
    ghost use Rattle.ordered_rows.specs.Pairs.{pairs};
    ghost use Rattle.tect_ids.specs.Keys.{chunk_cmp};
    ghost use Rattle.tect_ids.specs.Codes.{chunk_code};

    ghost Value = { map.FinMap chunk_cmp V };

    ghost coded = { map.code chunk_code V.code };

    ghost view = { λ m. map.from_sorted (pairs m.rows) };
}

#[tactic(auto, using(crate::proofs::MapRows::chunk_rows))]
impl<V> ChunkMap<V> {
    /// An empty map. It takes no memory.
    pub fn new(alloc: Global) -> Self
        ensures { result ≡ empty }
    {
        ChunkMap {
            rows: Rows::new(alloc),
        }
    }

    /// How many chunks have a value. It takes no memory.
    pub fn len(&self) -> usize
        ensures { result ≡ len self.now }
    {
        self.rows.len()
    }

    pub fn is_empty(&self) -> bool
        ensures { result ≡ (len self.now == 0) }
    {
        self.rows.is_empty()
    }

    /// The value of the chunk. It takes no memory.
    pub fn get(&self, chunk: ChunkKey) -> Option<&V>
        ensures { option_copied result ≡ get self.now chunk }
    {
        self.rows.get(&chunk)
    }

    /// The value of the chunk, for writing. It takes no memory.
    pub fn get_mut(&mut self, chunk: ChunkKey) -> Option<&mut V>
        ensures* writes_back { sem 𝓛 (LendsIf (the_row V.row) V.row self.entry result (λ w. set_at self.old chunk (Some w)) self.old) }
        ensures value { option_copied_mut result ≡ get self.old chunk }
    {
        self.rows.get_mut(&chunk)
    }

    /// Gives the chunk that value, and returns the one that it replaced.
    /// Where the chunk is new and memory is wanting, both come back and the map is unchanged.
    pub fn put(&mut self, chunk: ChunkKey, value: V) -> Result<Option<V>, (ChunkKey, V)>
        ensures stored { OnOk result (self.new ≡ set_at self.old chunk (Some value)) }
        ensures replaced { IfOk result (λ was. was ≡ get self.old chunk) }
        ensures handed_back { IfErr result (λ pair. pair ≡ (chunk, value)) }
        ensures unchanged { OnErr result (self.new ≡ self.old) }
        ensures overwrite_succeeds { IsSome (get self.old chunk) → IsOk result }
    {
        self.rows.put(chunk, value)
    }

    /// Takes the value of the chunk away, and returns it. It takes no memory.
    pub fn take(&mut self, chunk: ChunkKey) -> Option<V>
        ensures value { result ≡ get self.old chunk }
        ensures others { self.new ≡ set_at self.old chunk None }
    {
        self.rows.take(&chunk)
    }

    /// Goes over the chunks by disk, block and tag, with their values. It takes no memory.
    pub fn iter(&self) -> Cursor<'_, ChunkKey, V>
        ensures { left result ≡ entries self.now }
    {
        self.rows.iter()
    }

    /// Goes over the chunks of one disk by block and tag. It looks at no chunk of another disk but the one that follows, and
    /// takes no memory.
    pub fn on_disk(&self, disk: DiskId) -> DiskCursor<'_, V>
        ensures { left result ≡ entries (on_disk self.now disk) }
    {
        DiskCursor::new(disk, self.rows.seek_past(|chunk| chunk.disk < disk))
    }
}
