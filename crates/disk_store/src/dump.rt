ghost use Rattle.std.specs.Prelude.{◌≡◌, IfOk};
ghost use Rattle.store_rules.specs.Dumps.{chunk_line, chunks_dump};
ghost use Rattle.disk_store.specs.Dumps.{disk_dump, disks_of};

use crate::shard::Disk;
use tect_ids::{Bytes, ChunkKey, DiskId, DumpLine, NoMemory};

impl Disk {
    /// The lines that a dump shows: one of each chunk, by disk, block and tag.
    pub fn dump(&self) -> Result<Vec<DumpLine>, NoMemory>
        ensures { IfOk result (λ lines. lines.items ≡ chunks_dump self.now) }
    {
        let mut lines = Vec::new(self.alloc);
        for (chunk, bytes) in self.chunks.iter() {
            lines.push(chunk_line(*chunk, bytes)?)?;
        }
        Ok(lines)
    }

    /// The disks that have a chunk here, in the order of their numbers, each once.
    pub fn disks(&self) -> Result<Vec<DiskId>, NoMemory>
        ensures { IfOk result (λ disks. disks.items ≡ disks_of self.now) }
    {
        let mut disks = Vec::new(self.alloc);
        let mut last = None;
        for (chunk, _bytes) in self.chunks.iter() {
            if last != Some(chunk.disk) {
                disks.push(chunk.disk)?;
                last = Some(chunk.disk);
            }
        }
        Ok(disks)
    }

    /// The lines that a dump shows of one disk's chunks, by block and tag. It goes over no chunk of another disk.
    pub fn dump_disk(&self, disk: DiskId) -> Result<Vec<DumpLine>, NoMemory>
        ensures { IfOk result (λ lines. lines.items ≡ disk_dump self.now disk) }
    {
        let mut lines = Vec::new(self.alloc);
        for (chunk, bytes) in self.chunks.on_disk(disk) {
            lines.push(chunk_line(*chunk, bytes)?)?;
        }
        Ok(lines)
    }
}

fn chunk_line(chunk: ChunkKey, bytes: &Bytes) -> Result<DumpLine, NoMemory>
    ensures { IfOk result (λ line. line ≡ chunk_line (chunk, bytes.now)) }
{
    Ok(DumpLine::Chunk {
        disk: chunk.disk,
        blk: chunk.blk,
        tag: chunk.tag,
        // No block is longer than that.
        len: u32::try_from(bytes.len()).or(Err(NoMemory))?,
    })
}
