ghost use Rattle.std.specs.Prelude.{◌≡◌, length};
ghost use Rattle.std.specs.Iterator.{YieldsFirstBy, at_most};
ghost use Rattle.map_words.specs.Pairs.{left, pair_of};
ghost use Rattle.block_maps.specs.Chunks.{front_on};

use ordered_rows::Cursor;
use std::iter::Iterator;
use std::marker::Model;
use tect_ids::{ChunkKey, DiskId};

/// What is left of a way over the chunks of one disk, by block and tag.
#[derive(Drop)]
pub struct DiskCursor<'a, V> {
    disk: DiskId,
    rest: Cursor<'a, ChunkKey, V>,
    ended: bool,
}

impl<'a, V> Model for DiskCursor<'a, V> {
    ghost use Rattle.std.specs.Prelude.{List, [], if◌then◌else◌};
    ghost use Rattle.block_maps.specs.Chunks.{front_on};
    ghost use Rattle.tect_ids.specs.declared.key.ChunkKey.{ChunkKey as AnyChunk};
    ghost use Rattle.tect_ids.specs.Codes.{chunk_code};
    ghost use Rattle.std.specs.Coded.{coded_list, coded×};

    ghost Value = { List (AnyChunk × V) };

    ghost coded = { coded_list (coded× chunk_code V.code) };

    ghost view = { λ c. if c.ended then [] else front_on c.disk c.rest };
}

impl<'a, V> DiskCursor<'a, V> {
    // Over the chunks at the front that are of that disk.
    pub(crate) fn new(disk: DiskId, rest: Cursor<'a, ChunkKey, V>) -> Self
        ensures { left result ≡ front_on disk (left rest.entry) }
    {
        DiskCursor {
            disk,
            rest,
            ended: false,
        }
    }
}

impl<'a, V> Iterator for DiskCursor<'a, V> {
    type Item = (&'a ChunkKey, &'a V);

    ghost next_gives = { YieldsFirstBy pair_of left };

    ghost remaining = { λ c. at_most (length (left c)) };

    #[tactic(auto, using(crate::proofs::ChunkFront::chunk_fronts))]
    fn next(&mut self) -> Option<(&'a ChunkKey, &'a V)> {
        if self.ended {
            return None;
        }
        match self.rest.next() {
            Some((chunk, value)) if chunk.disk == self.disk => Some((chunk, value)),
            _ => {
                self.ended = true;
                None
            }
        }
    }
}
