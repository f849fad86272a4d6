ghost use Rattle.std.specs.Prelude.{◌≡◌, length};
ghost use Rattle.std.specs.Iterator.{YieldsFirst, at_most};
ghost use Rattle.map_words.specs.Pairs.{left};
ghost use Rattle.block_maps.specs.DiskIndexes.{blks_left, blks_of_front};

use crate::disk_blk::DiskBlk;
use ordered_rows::Cursor;
use std::iter::Iterator;
use std::marker::Model;
use tect_ids::{BlkId, DiskId};

/// What is left of a way over the blocks that have a row on one disk, in the order of their numbers.
#[derive(Drop)]
pub struct BlksOnDisk<'a> {
    disk: DiskId,
    rest: Cursor<'a, DiskBlk, ()>,
    ended: bool,
}

impl<'a> Model for BlksOnDisk<'a> {
    ghost use Rattle.std.specs.Prelude.{List, [], if◌then◌else◌};
    ghost use Rattle.std.specs.Coded.{coded_list};
    ghost use Rattle.block_maps.specs.DiskIndexes.{blks_of_front};
    ghost use Rattle.tect_ids.specs.declared.ids.BlkId.{BlkId as AnyBlk};
    ghost use Rattle.tect_ids.specs.Codes.{blk_code};

    ghost Value = { List AnyBlk };

    ghost coded = { coded_list blk_code };

    ghost view = { λ c. if c.ended then [] else blks_of_front c.disk c.rest };
}

impl<'a> BlksOnDisk<'a> {
    // Over the pairs at the front that are of that disk.
    pub(crate) fn new(disk: DiskId, rest: Cursor<'a, DiskBlk, ()>) -> Self
        ensures { blks_left result ≡ blks_of_front disk (left rest.entry) }
    {
        BlksOnDisk {
            disk,
            rest,
            ended: false,
        }
    }
}

impl<'a> Iterator for BlksOnDisk<'a> {
    type Item = BlkId;

    ghost next_gives = { YieldsFirst blks_left };

    ghost remaining = { λ c. at_most (length (blks_left c)) };

    #[tactic(auto, using(crate::proofs::DiskIndexes::blk_fronts))]
    fn next(&mut self) -> Option<BlkId> {
        if self.ended {
            return None;
        }
        match self.rest.next() {
            Some((at, _)) if at.disk == self.disk => Some(at.blk),
            _ => {
                self.ended = true;
                None
            }
        }
    }
}
