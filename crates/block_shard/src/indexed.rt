ghost use Rattle.std.specs.Prelude.{◌≡◌, false, Some, None, OnOk, OnErr, if◌then◌else◌};
ghost use Rattle.std.specs.FinMap.{get};
ghost use Rattle.tect_ids.specs.declared.ids.DiskId.{DiskId};
ghost use Rattle.block_shard.specs.Index.{pair, is_row_of};
ghost use Rattle.block_maps.specs.declared.disk_blk.DiskBlk.{DiskBlk as Pair};

use block_maps::{DiskBlk, DiskIndex};
use tect_ids::{BlkId, NewRow, NoMemory};

// Lists the block under the disks of these rows. For want of memory it is listed nowhere, as before.
pub(crate) fn list_rows(index: &mut DiskIndex, blk: BlkId, rows: &[NewRow]) -> Result<(), NoMemory>
    requires { (d : DiskId) → get index.old (pair d blk) ≡ None }
    ensures listed { OnOk result ((at : Pair) → get index.new at ≡ (if is_row_of blk rows.now at then Some tt else get index.old at)) }
    ensures unchanged { OnErr result ((at : Pair) → get index.new at ≡ get index.old at) }
{
    if put_rows(index, blk, rows).is_err() {
        take_rows(index, blk, rows);
        return Err(NoMemory);
    }
    Ok(())
}

// Where memory is wanting, the block is listed under some of the disks.
fn put_rows(index: &mut DiskIndex, blk: BlkId, rows: &[NewRow]) -> Result<(), NoMemory>
    ensures listed { OnOk result ((at : Pair) → get index.new at ≡ (if is_row_of blk rows.now at then Some tt else get index.old at)) }
    ensures others { (at : Pair) → is_row_of blk rows.now at ≡ false → get index.new at ≡ get index.old at }
{
    for row in rows {
        index.put(DiskBlk {
            disk: row.disk,
            blk,
        })?;
    }
    Ok(())
}

// Takes the block off the lists of the disks of these rows.
pub(crate) fn take_rows(index: &mut DiskIndex, blk: BlkId, rows: &[NewRow])
    ensures { (at : Pair) → get index.new at ≡ (if is_row_of blk rows.now at then None else get index.old at) }
{
    for row in rows {
        index.take(DiskBlk {
            disk: row.disk,
            blk,
        });
    }
}
