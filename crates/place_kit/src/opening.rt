ghost use Rattle.std.specs.Prelude.{◌≡◌, [], IfOk, false};
ghost use Rattle.std.specs.FinMap.{empty};
ghost use Rattle.tect_ids.specs.declared.ids.Layer.TheVariants as layers;
ghost use Rattle.place_kit.specs.Machines.{name_opening};

use crate::kept::Kept;
use block_shard::BlockShard;
use disk_store::Disk;
use file_shard::FileShard;
use name_shard::NameShard;
use std::alloc::Global;
use tect_ids::{NoMemory, Place};

impl Kept<NameShard> {
    /// A name shard with the root directory or with none, at its place, with nothing done.
    pub fn open_names(
        alloc: Global,
        place: Place,
        has_root: bool,
    ) -> Result<Kept<NameShard>, NoMemory>
        ensures label { IfOk result (λ kept. kept.label ≡ record
            { place = place; layer = layers.Names; rooted = has_root; folded = false }) }
        ensures state { IfOk result (λ kept. kept.machine ≡ name_opening has_root) }
        ensures history { IfOk result (λ kept. (kept.history ≡ record { items = []; spare = 0 }) × (kept.clock ≡ 0)) }
    {
        let shard = NameShard::new(alloc, has_root)?;
        Ok(Kept::start(alloc, place, shard))
    }
}

impl Kept<FileShard> {
    /// A file shard with no file, at its place, with nothing done. It takes no memory.
    pub fn open_files(alloc: Global, place: Place) -> Kept<FileShard>
        ensures label { result.label ≡ record { place = place; layer = layers.Files; rooted = false; folded = false } }
        ensures state { result.machine ≡ empty }
        ensures history { (result.history ≡ record { items = []; spare = 0 }) × (result.clock ≡ 0) }
    {
        Kept::start(alloc, place, FileShard::new(alloc))
    }
}

impl Kept<BlockShard> {
    /// A block shard with no block, at its place, with nothing done. It takes no memory.
    pub fn open_blocks(alloc: Global, place: Place) -> Kept<BlockShard>
        ensures label { result.label ≡ record { place = place; layer = layers.Blocks; rooted = false; folded = false } }
        ensures state { result.machine ≡ empty }
        ensures history { (result.history ≡ record { items = []; spare = 0 }) × (result.clock ≡ 0) }
    {
        Kept::start(alloc, place, BlockShard::new(alloc))
    }
}

impl Kept<Disk> {
    /// A disk with no chunk, at its place, with nothing done. It takes no memory.
    pub fn open_disk(alloc: Global, place: Place) -> Kept<Disk>
        ensures label { result.label ≡ record { place = place; layer = layers.Disks; rooted = false; folded = false } }
        ensures state { result.machine ≡ empty }
        ensures history { (result.history ≡ record { items = []; spare = 0 }) × (result.clock ≡ 0) }
    {
        Kept::start(alloc, place, Disk::new(alloc))
    }
}
