ghost use Rattle.std.specs.Prelude.{◌≡◌, Some, None, IfOk, OnOk, OnErr, is_some, map};
ghost use Rattle.std.specs.FinMap.{get, entries};
ghost use Rattle.map_words.specs.Maps.{set_at};
ghost use Rattle.store_rules.specs.Blocks.{rows_from, new_block, make_block_answer, seal_block_answer, seal_block_change, sealed_block};
ghost use Rattle.store_rules.specs.Blocks.{get_block_answer, shown_row, grant_block_answer, grant_block_change, block_with_hold};
ghost use Rattle.store_rules.specs.Blocks.{release_block_answer, release_block_change, block_lists};

use crate::indexed::{list_rows, take_rows};
use crate::shard::BlockShard;
use block_maps::BlkMap;
use small_maps::{BlockRows, HoldList};
use std::alloc::Global;
use store_rules::{Block, BlockReply, Outcome};
use tect_ids::{BlkId, BlockRow, Class, FileId, Hold, Items, NewRow, NoMemory, Row, Upper};

impl BlockShard {
    pub(crate) fn make_block_outcome(&self, blk: BlkId) -> Outcome<BlockReply>
        ensures { result ≡ make_block_answer self.now blk }
    {
        if self.blocks.get(blk).is_some() {
            return Outcome::Leaves(BlockReply::HasId);
        }
        Outcome::Changes(BlockReply::Made)
    }

    // A block as it is made.
    pub(crate) fn new_block(
        &self,
        class: Class,
        len: u32,
        file: FileId,
        hold: Hold,
        rows: &[NewRow],
    ) -> Result<Block, NoMemory>
        ensures { IfOk result (λ block. block ≡ new_block class len file hold rows.now) }
    {
        let mut holds = HoldList::new(self.alloc);
        holds.grant(hold, Upper::Row(file))?;
        Ok(Block {
            class,
            len,
            sealed: false,
            version: 0,
            holds,
            rows: rows_from(self.alloc, rows)?,
        })
    }

    // Adds a block with these rows, which is listed under their disks too.
    pub(crate) fn add_block(
        &mut self,
        blk: BlkId,
        block: Block,
        rows: &[NewRow],
    ) -> Result<(), NoMemory>
        requires new { get self.old blk ≡ None }
        requires rows { block.rows ≡ rows_from rows.now }
        ensures ok { OnOk result (self.new ≡ set_at self.old blk (Some block)) }
        ensures err { OnErr result (self.new ≡ self.old) }
    {
        list_rows(&mut self.index, blk, rows)?;
        if self.blocks.put(blk, block).is_err() {
            take_rows(&mut self.index, blk, rows);
            return Err(NoMemory);
        }
        Ok(())
    }

    pub(crate) fn seal_block_outcome(&self, blk: BlkId) -> Outcome<BlockReply>
        ensures { result ≡ seal_block_answer self.now blk }
    {
        match self.blocks.get(blk) {
            None => Outcome::Leaves(BlockReply::NoBlock),
            Some(block) if block.sealed => Outcome::Leaves(BlockReply::Sealed),
            Some(_) => Outcome::Changes(BlockReply::SealedNow),
        }
    }

    pub(crate) fn seal_block(&mut self, blk: BlkId)
        ensures { self.new ≡ seal_block_change self.old blk }
    {
        seal(&mut self.blocks, blk);
    }

    pub(crate) fn get_block(&self, blk: BlkId) -> Result<Outcome<BlockReply>, NoMemory>
        ensures { IfOk result (λ x. x ≡ get_block_answer self.now blk) }
    {
        let Some(block) = self.blocks.get(blk) else {
            return Ok(Outcome::Leaves(BlockReply::NoBlock));
        };
        Ok(Outcome::Leaves(BlockReply::BlockIs {
            class: block.class,
            len: block.len,
            sealed: block.sealed,
            version: block.version,
            rows: shown_rows(self.alloc, &block.rows)?,
        }))
    }

    pub(crate) fn grant_outcome(&self, blk: BlkId) -> Outcome<BlockReply>
        ensures { result ≡ grant_block_answer self.now blk }
    {
        match self.blocks.get(blk) {
            None => Outcome::Leaves(BlockReply::NoBlock),
            Some(block) if block.sealed => Outcome::Changes(BlockReply::Granted),
            Some(_) => Outcome::Leaves(BlockReply::NotSealed),
        }
    }

    pub(crate) fn grant(&mut self, blk: BlkId, hold: Hold, file: FileId) -> Result<(), NoMemory>
        ensures ok { OnOk result (self.new ≡ grant_block_change self.old blk hold file) }
        ensures err { OnErr result (self.new ≡ self.old) }
    {
        grant_hold(&mut self.blocks, blk, hold, Upper::Row(file))
    }

    pub(crate) fn release_outcome(&self, blk: BlkId, hold: Hold) -> Outcome<BlockReply>
        ensures { result ≡ release_block_answer self.now blk hold }
    {
        let was = self.lists(blk, hold);
        if was {
            Outcome::Changes(BlockReply::Released { was })
        } else {
            Outcome::Leaves(BlockReply::Released { was })
        }
    }

    // Whether the block lists the hold.
    fn lists(&self, blk: BlkId, hold: Hold) -> bool
        ensures { result ≡ is_some (block_lists (get self.now blk) hold) }
    {
        match self.blocks.get(blk) {
            None => false,
            Some(block) => block.holds.has(hold),
        }
    }

    pub(crate) fn release(&mut self, blk: BlkId, hold: Hold)
        ensures { self.new ≡ release_block_change self.old blk hold }
    {
        release_hold(&mut self.blocks, blk, hold);
    }
}

// The rows that a block is made with. Where a disk stands in two of them, the first counts.
fn rows_from(alloc: Global, rows: &[NewRow]) -> Result<BlockRows, NoMemory>
    ensures { IfOk result (λ made. made ≡ rows_from rows.now) }
{
    let mut made = BlockRows::new(alloc);
    for row in rows.iter().rev() {
        let new = BlockRow {
            tag: row.tag,
            placed: false,
        };
        made.put(row.disk, new)?;
    }
    Ok(made)
}

// The rows as a reply shows them, by disk.
fn shown_rows(alloc: Global, rows: &BlockRows) -> Result<Items<Row>, NoMemory>
    ensures { IfOk result (λ items. items ≡ map shown_row (entries rows.now)) }
{
    let mut items = Vec::with_capacity(alloc, rows.len())?;
    for (disk, row) in rows.iter() {
        items.push(Row {
            disk: *disk,
            tag: row.tag,
            placed: row.placed,
        })?;
    }
    Items::from_vec(items)
}

// Seals the block where it stands.
fn seal(blocks: &mut BlkMap<Block>, blk: BlkId)
    ensures { blocks.new ≡ set_at blocks.old blk (sealed_block (get blocks.old blk)) }
{
    if let Some(block) = blocks.get_mut(blk) {
        block.sealed = true;
        block.version = 1;
        block.rows.place_all();
    }
}

// Lists the hold with that upper where the block stands.
fn grant_hold(
    blocks: &mut BlkMap<Block>,
    blk: BlkId,
    hold: Hold,
    upper: Upper,
) -> Result<(), NoMemory>
    ensures listed { OnOk result (blocks.new ≡ set_at blocks.old blk (block_with_hold (get blocks.old blk) hold (Some upper))) }
    ensures unchanged { OnErr result (blocks.new ≡ blocks.old) }
{
    match blocks.get_mut(blk) {
        None => Ok(()),
        Some(block) => block.holds.grant(hold, upper),
    }
}

// Takes the hold off the block's list where the block stands.
fn release_hold(blocks: &mut BlkMap<Block>, blk: BlkId, hold: Hold)
    ensures { blocks.new ≡ set_at blocks.old blk (block_with_hold (get blocks.old blk) hold None) }
{
    if let Some(block) = blocks.get_mut(blk) {
        let _ = block.holds.release(hold);
    }
}
