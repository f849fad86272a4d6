//! Look-ups that lend nothing out of the cache.
ghost use Rattle.std.specs.Prelude.{◌≡◌, None, IfOk, IsOk, option_map};
ghost use Rattle.tect_ids.specs.Keys.{blk_eq, dir_eq, file_eq};
ghost use Rattle.sealed_cache.specs.Caches.{use_listing, use_blocks, use_location};
ghost use Rattle.sealed_cache.specs.Lists.{found};
ghost use Rattle.sealed_cache.specs.Sealed.{node_in};

use crate::cache::SealedCache;
use tect_ids::{BlkId, DirId, FileId, Items, Listed, Location, Name, NoMemory, Node, RowPart};

impl SealedCache {
    /// The node that has the name in the listing kept for the directory, which is now the latest used one. None where no listing is kept
    /// for it, and `Some(None)` where one is that has no such name. It takes no memory.
    pub fn node_in(&mut self, dir: DirId, name: &Name) -> Option<Option<Node>>
        ensures value { result ≡ option_map (λ items. node_in items name.now) (found dir_eq dir self.old.listings) }
        ensures used { self.new ≡ use_listing dir self.old }
    {
        match self.listing(dir) {
            Some(listing) => Some(listing.find(name)),
            None => None,
        }
    }

    /// The entries kept for the directory, as one more owner of them, and they are now the latest used ones. It takes no memory; it is
    /// refused only where some are kept and the count of owners is full, and they are the latest used ones then too.
    pub fn share_listing(&mut self, dir: DirId) -> Result<Option<Items<Listed>>, NoMemory>
        ensures value { IfOk result (λ items. items ≡ found dir_eq dir self.old.listings) }
        ensures used { self.new ≡ use_listing dir self.old }
        ensures not_kept { found dir_eq dir self.old.listings ≡ None → IsOk result }
    {
        match self.listing(dir) {
            Some(listing) => Ok(Some(listing.items().clone()?)),
            None => Ok(None),
        }
    }

    /// The blocks kept for the file, as one more owner of them, and they are now the latest used ones. It takes no memory; it is refused
    /// only where some are kept and the count of owners is full, and they are the latest used ones then too.
    pub fn share_blocks(&mut self, file: FileId) -> Result<Option<Items<RowPart>>, NoMemory>
        ensures value { IfOk result (λ rows. rows ≡ found file_eq file self.old.blocks) }
        ensures used { self.new ≡ use_blocks file self.old }
        ensures not_kept { found file_eq file self.old.blocks ≡ None → IsOk result }
    {
        match self.blocks(file) {
            Some(blocks) => Ok(Some(blocks.rows().clone()?)),
            None => Ok(None),
        }
    }

    /// The location kept for the block, as one more owner of its rows, and it is now the latest used one. It takes no memory; it is
    /// refused only where one is kept and the count of owners is full, and it is the latest used one then too.
    pub fn share_location(&mut self, blk: BlkId) -> Result<Option<Location>, NoMemory>
        ensures value { IfOk result (λ location. location ≡ found blk_eq blk self.old.locations) }
        ensures used { self.new ≡ use_location blk self.old }
        ensures not_kept { found blk_eq blk self.old.locations ≡ None → IsOk result }
    {
        match self.location(blk) {
            Some(location) => Ok(Some(same_location(location)?)),
            None => Ok(None),
        }
    }
}

fn same_location(location: &Location) -> Result<Location, NoMemory>
    ensures { IfOk result (λ same. same ≡ location.now) }
{
    Ok(Location {
        class: location.class,
        len: location.len,
        sealed: location.sealed,
        version: location.version,
        rows: location.rows.clone()?,
    })
}
