ghost use Rattle.std.specs.Prelude.{◌≡◌, ◌≢◌, ◌++◌, map, MatchOption, OnOk};
ghost use Rattle.std.specs.List.{All};
ghost use Rattle.std.specs.FinMap.{keys};
ghost use Rattle.name_shard.specs.DirDumps.{dir_dump};
ghost use Rattle.disk_store.specs.Dumps.{disk_dump, disks_of};
ghost use Rattle.layers.specs.Dumps.{block_dump, file_dump, ids_of, lines_of};
ghost use Rattle.layers.specs.Machines.{alone, lent_as};

use block_shard::BlockShard;
use disk_store::Disk;
use file_shard::FileShard;
use name_shard::NameShard;
use tect_ids::{BlkId, DirId, DiskId, DumpLine, FileId, Layer, NoMemory};

/// A shard of any layer, lent by whoever keeps it.
#[derive(Drop)]
pub enum LentMachine<'a> {
    Name(&'a NameShard),
    File(&'a FileShard),
    Block(&'a BlockShard),
    Disk(&'a Disk),
}

impl LentMachine<'_> {
    /// Adds the identifiers of what the shard has of a layer, rising: of its directories, its files or its blocks, or of the
    /// disks whose chunks it has. A shard of another layer has none. For want of memory some of them may have been added, behind
    /// what was there.
    pub fn add_ids(&self, layer: Layer, ids: &mut Vec<u64>) -> Result<(), NoMemory>
        ensures { OnOk result (ids.new.items ≡ ids.old.items ++ ids_of layer (alone (lent_as self.now))) }
    {
        match self {
            LentMachine::Name(shard) => match layer {
                Layer::Names => add_dirs(shard, ids),
                _ => Ok(()),
            },
            LentMachine::File(shard) => match layer {
                Layer::Files => add_files(shard, ids),
                _ => Ok(()),
            },
            LentMachine::Block(shard) => match layer {
                Layer::Blocks => add_blocks(shard, ids),
                _ => Ok(()),
            },
            LentMachine::Disk(disk) => match layer {
                Layer::Disks => add_disks(disk, ids),
                _ => Ok(()),
            },
        }
    }

    /// Adds the lines that a dump shows of what has that identifier in that layer: none where the shard does not have it. For
    /// want of memory some of them may have been added, behind what was there.
    pub fn add_lines(
        &self,
        layer: Layer,
        id: u64,
        lines: &mut Vec<DumpLine>,
    ) -> Result<(), NoMemory>
        ensures { OnOk result (lines.new.items ≡ lines.old.items ++ lines_of layer (alone (lent_as self.now)) id) }
    {
        match self {
            LentMachine::Name(shard) => match layer {
                Layer::Names => add_dir_lines(shard, DirId(id), lines),
                _ => Ok(()),
            },
            LentMachine::File(shard) => match layer {
                Layer::Files => add_file_line(shard, FileId(id), lines),
                _ => Ok(()),
            },
            LentMachine::Block(shard) => match layer {
                Layer::Blocks => add_block_line(shard, BlkId(id), lines),
                _ => Ok(()),
            },
            LentMachine::Disk(disk) => match layer {
                Layer::Disks => add_disk_lines(disk, id, lines),
                _ => Ok(()),
            },
        }
    }
}

fn add_dirs(shard: &NameShard, ids: &mut Vec<u64>) -> Result<(), NoMemory>
    ensures { OnOk result (ids.new.items ≡ ids.old.items ++ map (λ d. d.0) (keys shard.now.dirs)) }
{
    let dirs = shard.dirs()?;
    for dir in &dirs {
        ids.push(dir.0)?;
    }
    Ok(())
}

fn add_files(shard: &FileShard, ids: &mut Vec<u64>) -> Result<(), NoMemory>
    ensures { OnOk result (ids.new.items ≡ ids.old.items ++ map (λ f. f.0) (keys shard.now)) }
{
    let files = shard.files()?;
    for file in &files {
        ids.push(file.0)?;
    }
    Ok(())
}

fn add_blocks(shard: &BlockShard, ids: &mut Vec<u64>) -> Result<(), NoMemory>
    ensures { OnOk result (ids.new.items ≡ ids.old.items ++ map (λ b. b.0) (keys shard.now)) }
{
    let blocks = shard.blocks()?;
    for blk in &blocks {
        ids.push(blk.0)?;
    }
    Ok(())
}

fn add_disks(disk: &Disk, ids: &mut Vec<u64>) -> Result<(), NoMemory>
    ensures { OnOk result (ids.new.items ≡ ids.old.items ++ map (λ d. d.0) (disks_of disk.now)) }
{
    let disks = disk.disks()?;
    for one in &disks {
        ids.push(u64::from(one.0))?;
    }
    Ok(())
}

fn add_dir_lines(shard: &NameShard, dir: DirId, lines: &mut Vec<DumpLine>) -> Result<(), NoMemory>
    ensures { OnOk result (lines.new.items ≡ lines.old.items ++ dir_dump shard.now dir) }
{
    let mut own = shard.dump_one(dir)?;
    lines.append(&mut own)?;
    Ok(())
}

fn add_file_line(shard: &FileShard, file: FileId, lines: &mut Vec<DumpLine>) -> Result<(), NoMemory>
    ensures { OnOk result (lines.new.items ≡ lines.old.items ++ file_dump shard.now file) }
{
    match shard.dump_one(file)? {
        None => Ok(()),
        Some(line) => Ok(lines.push(line)?),
    }
}

fn add_block_line(shard: &BlockShard, blk: BlkId, lines: &mut Vec<DumpLine>) -> Result<(), NoMemory>
    ensures { OnOk result (lines.new.items ≡ lines.old.items ++ block_dump shard.now blk) }
{
    match shard.dump_one(blk)? {
        None => Ok(()),
        Some(line) => Ok(lines.push(line)?),
    }
}

fn add_disk_lines(disk: &Disk, number: u64, lines: &mut Vec<DumpLine>) -> Result<(), NoMemory>
    ensures { OnOk result (lines.new.items ≡ lines.old.items ++ disk_dump disk.now (record { 0 = number })) }
{
    let disks = disk.disks()?;
    let Some(one) = numbered(&disks, number) else {
        return Ok(());
    };
    let mut own = disk.dump_disk(one)?;
    lines.append(&mut own)?;
    Ok(())
}

// The one of these disks that has that number.
fn numbered(disks: &[DiskId], number: u64) -> Option<DiskId>
    ensures { MatchOption result (All (λ d. d.0 ≢ number) disks.now) (λ d. d.0 ≡ number) }
{
    disks.iter().copied().find(|one| u64::from(one.0) == number)
}
