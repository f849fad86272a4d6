ghost use Rattle.std.specs.Prelude.{◌≡◌, true, IsTrue, IsOk, IfOk, OnOk, OnErr};
ghost use Rattle.std.specs.FinMap.{empty};
ghost use Rattle.store_rules.specs.Outcomes.{changes, reply};
ghost use Rattle.store_rules.specs.Disks.{disk_answer, disk_change, disk_rule, disk_step};
ghost use Rattle.store_rules.specs.Disks.{get_answer, put_answer, put_change};

use block_maps::ChunkMap;
use std::alloc::Global;
use std::marker::Model;
use store_rules::{DiskReply, DiskReq, Outcome};
use tect_ids::{Bytes, ChunkKey, NoMemory};

/// Chunks of blocks, by disk, block and tag: what some of the disks hold.
#[derive(Drop)]
pub struct Disk {
    pub(crate) alloc: Global,
    pub(crate) chunks: ChunkMap<Bytes>,
}

impl Model for Disk {
    ghost use Rattle.store_rules.specs.Disks.{Chunks};
    ghost use Rattle.disk_store.specs.Codes.{chunks_code};

    ghost Value = { Chunks };

    ghost coded = { chunks_code };

    ghost view = { λ s. s.chunks };
}

impl Disk {
    /// Disks with no chunk. They take no memory.
    pub fn new(alloc: Global) -> Disk
        ensures { result ≡ empty }
    {
        Disk {
            alloc,
            chunks: ChunkMap::new(alloc),
        }
    }

    /// Answers the request by its rule, and makes the rule's change where it is not refused.
    ///
    /// A refusal is an answer like others, and changes nothing. Nor does want of memory, which may come at any request. No byte
    /// is copied: what was put and what is answered share their bytes. Chunks are found in logarithmic time.
    pub fn step(&mut self, req: &DiskReq) -> Result<DiskReply, NoMemory>
        ensures answers { IfOk result (λ x. x ≡ reply (disk_answer self.old req.now)) }
        ensures steps { OnOk result (self.new ≡ disk_step self.old req.now) }
        ensures err { OnErr result (self.new ≡ self.old) }

        // What wants no memory is always answered.
        ensures sure { IsTrue (disk_rule req.now).free → IsOk result }
    {
        let outcome = self.decide(req)?;
        if outcome.changes() {
            self.apply(req)?;
        }
        Ok(outcome.into_reply())
    }

    /// What `step` would answer. It changes nothing.
    pub fn reply(&self, req: &DiskReq) -> Result<DiskReply, NoMemory>
        ensures answers { IfOk result (λ x. x ≡ reply (disk_answer self.now req.now)) }
        ensures sure { IsTrue (disk_rule req.now).free → IsOk result }
    {
        Ok(self.decide(req)?.into_reply())
    }

    /// What `step` would answer, and whether it would change a disk. It changes nothing. `Get` may be refused for want of memory,
    /// where the count of owners of its bytes is full; `Put` takes none here.
    pub fn decide(&self, req: &DiskReq) -> Result<Outcome<DiskReply>, NoMemory>
        ensures answers { IfOk result (λ x. x ≡ disk_answer self.now req.now) }
        ensures sure { IsTrue (disk_rule req.now).free → IsOk result }
    {
        match req {
            DiskReq::Put { chunk, .. } => Ok(self.put_outcome(*chunk)),
            DiskReq::Get { chunk } => self.get(*chunk),
        }
    }

    /// Makes the change of a request that was decided to change a disk. For want of memory nothing is changed.
    pub fn apply(&mut self, req: &DiskReq) -> Result<(), NoMemory>
        requires { changes (disk_answer self.old req.now) ≡ true }
        ensures ok { OnOk result (self.new ≡ disk_change self.old req.now) }
        ensures err { OnErr result (self.new ≡ self.old) }
        ensures sure { IsTrue (disk_rule req.now).free → IsOk result }
    {
        match req {
            DiskReq::Put { chunk, bytes } => self.put(*chunk, bytes),
            DiskReq::Get { .. } => Ok(()),
        }
    }

    fn put_outcome(&self, chunk: ChunkKey) -> Outcome<DiskReply>
        ensures { result ≡ put_answer self.now chunk }
    {
        if self.chunks.get(chunk).is_some() {
            return Outcome::Leaves(DiskReply::HasChunk);
        }
        Outcome::Changes(DiskReply::Stored)
    }

    // Keeps the bytes as a further owner of them.
    fn put(&mut self, chunk: ChunkKey, bytes: &Bytes) -> Result<(), NoMemory>
        ensures ok { OnOk result (self.new ≡ put_change self.old chunk bytes.now) }
        ensures err { OnErr result (self.new ≡ self.old) }
    {
        match self.chunks.put(chunk, bytes.clone()?) {
            Ok(_) => Ok(()),
            Err(_) => Err(NoMemory),
        }
    }

    fn get(&self, chunk: ChunkKey) -> Result<Outcome<DiskReply>, NoMemory>
        ensures { IfOk result (λ x. x ≡ get_answer self.now chunk) }
    {
        let Some(bytes) = self.chunks.get(chunk) else {
            return Ok(Outcome::Leaves(DiskReply::NoChunk));
        };
        Ok(Outcome::Leaves(DiskReply::Got {
            bytes: bytes.clone()?,
        }))
    }
}
