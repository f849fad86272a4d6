ghost use Rattle.std.specs.Prelude.{◌≡◌};
ghost use Rattle.op_files.specs.Shards.{dir_shard, file_shard, blk_shard, disk_place};

use memories::Memory;
use tect_ids::{BlkId, DirId, DiskId, FileId, Layer, Place, place_of};

/// The shard of a directory.
pub fn place_of_dir(memory: &Memory, dir: DirId) -> Place
    ensures { result ≡ dir_shard memory.now.counts dir }
{
    place_of(Layer::Names, dir.0, &memory.counts())
}

/// The shard of a file.
pub fn place_of_file(memory: &Memory, file: FileId) -> Place
    ensures { result ≡ file_shard memory.now.counts file }
{
    place_of(Layer::Files, file.0, &memory.counts())
}

/// The shard of a block.
pub fn place_of_blk(memory: &Memory, blk: BlkId) -> Place
    ensures { result ≡ blk_shard memory.now.counts blk }
{
    place_of(Layer::Blocks, blk.0, &memory.counts())
}

/// The place of a disk.
pub fn place_of_disk(memory: &Memory, disk: DiskId) -> Place
    ensures { result ≡ disk_place memory.now.counts disk }
{
    place_of(Layer::Disks, u64::from(disk.0), &memory.counts())
}
