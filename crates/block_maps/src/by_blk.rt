ghost use Rattle.std.specs.Prelude.{◌≡◌, ◌==◌, Some, None, IsSome, IsOk, IfOk, IfErr, OnOk, OnErr};
ghost use Rattle.std.specs.Option.{option_copied, option_copied_mut};
ghost use Rattle.std.specs.FinMap.{empty, get, len, entries};
ghost use Rattle.std.specs.Borrow.{LendsIf, sem};
ghost use Rattle.map_words.specs.Pairs.{left};
ghost use Rattle.map_words.specs.Maps.{set_at};
ghost use Rattle.block_maps.specs.contracts.by_blk.BlkMap.{the_row};

use ordered_rows::{Cursor, Rows};
use std::alloc::Global;
use std::marker::Model;
use tect_ids::BlkId;

/// Rows by block, seen as a finite map.
#[derive(Drop)]
pub struct BlkMap<V> {
    rows: Rows<BlkId, V>,
}

impl<V> Model for BlkMap<V> {
    ghost use Rattle.std.specs.FinMap as map;
    ghost use Rattle.ordered_rows.specs.Pairs.{pairs};
    ghost use Rattle.tect_ids.specs.Keys.{blk_cmp};
    ghost use Rattle.tect_ids.specs.Codes.{blk_code};

    ghost Value = { map.FinMap blk_cmp V };

    ghost coded = { map.code blk_code V.code };

    ghost view = { λ m. map.from_sorted (pairs m.rows) };
}

#[tactic(auto, using(crate::proofs::MapRows::blk_rows))]
impl<V> BlkMap<V> {
    /// An empty map. It takes no memory.
    pub fn new(alloc: Global) -> Self
        ensures { result ≡ empty }
    {
        BlkMap {
            rows: Rows::new(alloc),
        }
    }

    /// How many blocks have a value. It takes no memory.
    pub fn len(&self) -> usize
        ensures { result ≡ len self.now }
    {
        self.rows.len()
    }

    pub fn is_empty(&self) -> bool
        ensures { result ≡ (len self.now == 0) }
    {
        self.rows.is_empty()
    }

    /// The value of the block. It takes no memory.
    pub fn get(&self, blk: BlkId) -> Option<&V>
        ensures { option_copied result ≡ get self.now blk }
    {
        self.rows.get(&blk)
    }

    /// The value of the block, for writing. It takes no memory.
    pub fn get_mut(&mut self, blk: BlkId) -> Option<&mut V>
        ensures* writes_back { sem 𝓛 (LendsIf (the_row V.row) V.row self.entry result (λ w. set_at self.old blk (Some w)) self.old) }
        ensures value { option_copied_mut result ≡ get self.old blk }
    {
        self.rows.get_mut(&blk)
    }

    /// Gives the block that value, and returns the one that it replaced.
    /// Where the block is new and memory is wanting, both come back and the map is unchanged.
    pub fn put(&mut self, blk: BlkId, value: V) -> Result<Option<V>, (BlkId, V)>
        ensures stored { OnOk result (self.new ≡ set_at self.old blk (Some value)) }
        ensures replaced { IfOk result (λ was. was ≡ get self.old blk) }
        ensures handed_back { IfErr result (λ pair. pair ≡ (blk, value)) }
        ensures unchanged { OnErr result (self.new ≡ self.old) }
        ensures overwrite_succeeds { IsSome (get self.old blk) → IsOk result }
    {
        self.rows.put(blk, value)
    }

    /// Takes the value of the block away, and returns it. It takes no memory.
    pub fn take(&mut self, blk: BlkId) -> Option<V>
        ensures value { result ≡ get self.old blk }
        ensures others { self.new ≡ set_at self.old blk None }
    {
        self.rows.take(&blk)
    }

    /// Goes over the blocks in their order, with their values. It takes no memory.
    pub fn iter(&self) -> Cursor<'_, BlkId, V>
        ensures { left result ≡ entries self.now }
    {
        self.rows.iter()
    }
}
