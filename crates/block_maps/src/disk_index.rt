ghost use Rattle.std.specs.Prelude.{◌≡◌, OnOk, OnErr, Some, None, IsSome, IsOk};
ghost use Rattle.std.specs.FinMap.{empty, get};
ghost use Rattle.map_words.specs.Maps.{set_at};
ghost use Rattle.block_maps.specs.DiskIndexes.{blks_on, blks_left};

use crate::blks_on_disk::BlksOnDisk;
use crate::disk_blk::DiskBlk;
use ordered_rows::Rows;
use std::alloc::Global;
use std::marker::Model;
use tect_ids::{DiskId, NoMemory};

/// Which blocks have a row on which disk. Contracts see a finite map, with an entry at each disk and block for which that is so.
#[derive(Drop)]
pub struct DiskIndex {
    rows: Rows<DiskBlk, ()>,
}

impl Model for DiskIndex {
    ghost use Rattle.std.specs.FinMap as map;
    ghost use Rattle.ordered_rows.specs.Pairs.{pairs};
    ghost use Rattle.block_maps.specs.DiskIndexes.{disk_blk_cmp, disk_blk_code, unit_code};

    ghost Value = { map.FinMap disk_blk_cmp (Unit {0}) };

    ghost coded = { map.code disk_blk_code unit_code };

    ghost view = { λ index. map.from_sorted (pairs index.rows) };
}

#[tactic(auto, using(crate::proofs::DiskIndexes::disk_blk_rows))]
impl DiskIndex {
    /// An index in which no block has a row. It takes no memory.
    pub fn new(alloc: Global) -> DiskIndex
        ensures { result ≡ empty }
    {
        DiskIndex {
            rows: Rows::new(alloc),
        }
    }

    /// Lists the block under the disk. It takes no memory where it is listed there already.
    pub fn put(&mut self, at: DiskBlk) -> Result<(), NoMemory>
        ensures listed { OnOk result (self.new ≡ set_at self.old at (Some tt)) }
        ensures unchanged { OnErr result (self.new ≡ self.old) }
        ensures there_succeeds { IsSome (get self.old at) → IsOk result }
    {
        match self.rows.put(at, ()) {
            Ok(_) => Ok(()),
            Err(_) => Err(NoMemory),
        }
    }

    /// Takes the block off the list of the disk. It takes no memory.
    pub fn take(&mut self, at: DiskBlk)
        ensures { self.new ≡ set_at self.old at None }
    {
        let _ = self.rows.take(&at);
    }

    /// Goes over the blocks that have a row on the disk, in the order of their numbers. It looks at no block of another disk
    /// but the one that follows, and takes no memory.
    pub fn on(&self, disk: DiskId) -> BlksOnDisk<'_>
        ensures { blks_left result ≡ blks_on self.now disk }
    {
        BlksOnDisk::new(disk, self.rows.seek_past(|at| at.disk < disk))
    }
}
