ghost use Rattle.std.specs.Prelude.{◌≡◌, Some, IfOk, OnOk, OnErr, map, take};
ghost use Rattle.std.specs.List.{flat_map};
ghost use Rattle.std.specs.FinMap.{get};
ghost use Rattle.map_words.specs.Maps.{set_at};
ghost use Rattle.tree_model.specs.Tree.{open_reply, attach_reply, blocks_reply, read_reply, block_part, holds_token};
ghost use Rattle.tree_model.specs.Tree.{opened, attached, file_with_token, file_with_block};

use crate::blocks::TreeBlock;
use crate::step::{StepValue, TreeFile, TreeReply};
use crate::tree::{Tree, refuses, shows};
use key_maps::FileMap;
use std::alloc::Global;
use tect_ids::{BlkId, Bytes, FileId, Items, NoMemory, Refusal, RowPart, Token};

// How many blocks a file may have.
const BLOCK_LIMIT: usize = 4_096;

impl Tree {
    pub(crate) fn open(&self, file: FileId) -> TreeReply
        ensures { result ≡ open_reply self.now file }
    {
        match self.files.get(file) {
            None => refuses(Refusal::NoFile),
            Some(found) if found.sealed => refuses(Refusal::Sealed),
            Some(_) => shows(StepValue::Done),
        }
    }

    // Refused as `NoFile`, `Sealed`, `TokenChanged` or `Full`, whichever comes first.
    pub(crate) fn attach(&self, file: FileId, token: Token) -> TreeReply
        ensures { result ≡ attach_reply self.now file token }
    {
        let Some(found) = self.files.get(file) else {
            return refuses(Refusal::NoFile);
        };
        if found.sealed {
            return refuses(Refusal::Sealed);
        }
        if !holds_token(found.token, token) {
            return refuses(Refusal::TokenChanged { now: found.token });
        }
        let index = found.blocks.as_slice().len();
        if index >= BLOCK_LIMIT {
            return refuses(Refusal::Full);
        }
        shows(StepValue::Attached {
            index: index as u32,
        })
    }

    pub(crate) fn blocks(&self, file: FileId) -> Result<TreeReply, NoMemory>
        ensures { IfOk result (λ x. x ≡ blocks_reply self.now file) }
    {
        let Some(found) = self.files.get(file) else {
            return Ok(refuses(Refusal::NoFile));
        };
        Ok(shows(StepValue::Blocks {
            sealed: found.sealed,
            rows: Items::from_vec(block_parts(self.alloc, found.blocks.as_slice())?)?,
        }))
    }

    // Refused as `NoFile` where the file has not so many blocks, too.
    pub(crate) fn read(&self, file: FileId, count: u32) -> Result<TreeReply, NoMemory>
        ensures { IfOk result (λ x. x ≡ read_reply self.now file count) }
    {
        let Some(found) = self.files.get(file) else {
            return Ok(refuses(Refusal::NoFile));
        };
        let blocks = found.blocks.as_slice();
        let count = count as usize;
        if blocks.len() < count {
            return Ok(refuses(Refusal::NoFile));
        }
        Ok(shows(StepValue::Bytes {
            bytes: joined(self.alloc, &blocks[..count])?,
        }))
    }

    pub(crate) fn set_token(&mut self, file: FileId, token: Token)
        ensures { self.new ≡ opened self.old file token }
    {
        write_token(&mut self.files, file, token);
    }

    pub(crate) fn add_block(
        &mut self,
        file: FileId,
        blk: BlkId,
        bytes: &Bytes,
    ) -> Result<(), NoMemory>
        ensures ok { OnOk result (self.new ≡ attached self.old file (record { blk = blk; bytes = bytes.now })) }
        ensures err { OnErr result (self.new ≡ self.old) }
    {
        let block = TreeBlock {
            blk,
            bytes: bytes.clone()?,
        };
        push_block(&mut self.files, file, block)
    }
}

// Whether that is the token which the file has.
fn holds_token(now: Option<Token>, token: Token) -> bool
    ensures { result ≡ holds_token now token }
{
    match now {
        None => false,
        Some(now) => now == token,
    }
}

// Writes the token into the file where it stands.
fn write_token(files: &mut FileMap<TreeFile>, file: FileId, token: Token)
    ensures { files.new ≡ set_at files.old file (file_with_token (get files.old file) token) }
{
    if let Some(found) = files.get_mut(file) {
        found.token = Some(token);
    }
}

// Adds the block at the file's end where the file stands.
fn push_block(files: &mut FileMap<TreeFile>, file: FileId, block: TreeBlock) -> Result<(), NoMemory>
    ensures added { OnOk result (files.new ≡ set_at files.old file (file_with_block (get files.old file) block)) }
    ensures unchanged { OnErr result (files.new ≡ files.old) }
{
    match files.get_mut(file) {
        None => Ok(()),
        Some(found) => found.blocks.push(block),
    }
}

// What a listing shows of each block.
fn block_parts(alloc: Global, blocks: &[TreeBlock]) -> Result<Vec<RowPart>, NoMemory>
    ensures { IfOk result (λ parts. parts.items ≡ map block_part blocks.now) }
{
    let mut parts = Vec::with_capacity(alloc, blocks.len())?;
    for block in blocks {
        parts.push(RowPart {
            blk: block.blk,
            // No block is longer than that.
            len: u32::try_from(block.bytes.len()).or(Err(NoMemory))?,
        })?;
    }
    Ok(parts)
}

// The bytes of the blocks, one after another.
fn joined(alloc: Global, blocks: &[TreeBlock]) -> Result<Bytes, NoMemory>
    ensures { IfOk result (λ bytes. bytes ≡ flat_map (λ b. b.bytes) blocks.now) }
{
    let mut bytes = Vec::new(alloc);
    for block in blocks {
        bytes.extend_from_slice(block.bytes.as_slice())?;
    }
    Items::from_vec(bytes)
}
