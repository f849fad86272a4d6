ghost use Rattle.std.specs.Prelude.{◌≡◌, ◌==◌, OnOk, OnErr, Some, None, IsSome, IsOk};
ghost use Rattle.std.specs.FinMap.{empty, get, len, entries};
ghost use Rattle.map_words.specs.Pairs.{left};
ghost use Rattle.map_words.specs.Maps.{set_at};
ghost use Rattle.small_maps.specs.RowsOfBlocks.{all_placed, placed_row};

use sorted_vec::{Pairs, SortedVec};
use std::alloc::Global;
use std::marker::Model;
use tect_ids::{BlockRow, DiskId, NoMemory};

/// The rows of a block, by disk. Contracts see a finite map.
#[derive(Drop)]
pub struct BlockRows {
    rows: SortedVec<DiskId, BlockRow>,
}

impl Model for BlockRows {
    ghost use Rattle.std.specs.FinMap as map;
    ghost use Rattle.tect_ids.specs.Keys.{disk_cmp};
    ghost use Rattle.tect_ids.specs.declared.values.BlockRow.{BlockRow as AnyRow};
    ghost use Rattle.tect_ids.specs.Codes.{disk_code, block_row_code};

    ghost Value = { map.FinMap disk_cmp AnyRow };

    ghost coded = { map.code disk_code block_row_code };

    ghost view = { λ list. map.from_sorted list.rows };
}

#[tactic(auto, using(crate::proofs::RowsOfBlocks::block_rows))]
impl BlockRows {
    /// No rows. It takes no memory.
    pub fn new(alloc: Global) -> BlockRows
        ensures { result ≡ empty }
    {
        BlockRows {
            rows: SortedVec::new(alloc),
        }
    }

    /// How many rows there are. It takes no memory.
    pub fn len(&self) -> usize
        ensures { result ≡ len self.now }
    {
        self.rows.len()
    }

    pub fn is_empty(&self) -> bool
        ensures { result ≡ (len self.now == 0) }
    {
        self.rows.is_empty()
    }

    /// The row on the disk. It takes no memory.
    pub fn get(&self, disk: DiskId) -> Option<BlockRow>
        ensures { result ≡ get self.now disk }
    {
        self.rows.get(&disk).copied()
    }

    /// Puts the row on the disk, which replaces the one that is there; that takes no memory.
    pub fn put(&mut self, disk: DiskId, row: BlockRow) -> Result<(), NoMemory>
        ensures ok { OnOk result (self.new ≡ set_at self.old disk (Some row)) }
        ensures err { OnErr result (self.new ≡ self.old) }
        ensures there_succeeds { IsSome (get self.old disk) → IsOk result }
    {
        match self.rows.put(disk, row) {
            Ok(_) => Ok(()),
            Err(_) => Err(NoMemory),
        }
    }

    /// Takes the row of the disk away, and returns it. It takes no memory.
    pub fn take(&mut self, disk: DiskId) -> Option<BlockRow>
        ensures value { result ≡ get self.old disk }
        ensures others { self.new ≡ set_at self.old disk None }
    {
        self.rows.take(&disk)
    }

    /// Goes over the rows, in the order of their disks. It takes no memory.
    pub fn iter(&self) -> Pairs<'_, DiskId, BlockRow>
        ensures { left result ≡ entries self.now }
    {
        self.rows.iter()
    }

    /// Says of each row that its chunk stands on its disk. It takes no memory.
    pub fn place_all(&mut self)
        ensures { self.new ≡ all_placed self.old }
    {
        self.rows.map_values(
            |row|
                ensures { result ≡ placed_row row.now }
            {
                BlockRow {
                    placed: true,
                    ..*row
                }
            },
        );
    }
}
