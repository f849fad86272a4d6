ghost use Rattle.std.specs.Prelude.{◌≡◌, IfOk, OnOk, OnErr, IsSome, IsOk};
ghost use Rattle.std.specs.Borrow.{sem};
ghost use Rattle.std.specs.Option.{option_copied};
ghost use Rattle.tect_ids.specs.Keys.{blk_eq, dir_eq, file_eq};
ghost use Rattle.sealed_cache.specs.Caches.{no_caches, use_listing, use_blocks, use_location, keep_listing, keep_blocks, keep_location};
ghost use Rattle.sealed_cache.specs.Lists.{found};

use crate::blocks::SealedBlocks;
use crate::listing::SealedListing;
use lru::LruCache;
use std::alloc::Global;
use std::marker::Model;
use std::num::NonZeroUsize;
use tect_ids::{BlkId, DirId, FileId, Location, NoMemory};

const MOST_LISTINGS: usize = 64;

const MOST_BLOCK_LISTS: usize = 256;

const MOST_LOCATIONS: usize = 1024;

/// What a client keeps of sealed objects, by the numbers of their ids. Contracts see three lists, in each the latest used first.
#[derive(Drop)]
pub struct SealedCache {
    listings: LruCache<u64, SealedListing>,
    block_lists: LruCache<u64, SealedBlocks>,
    locations: LruCache<u64, Location>,
}

impl Model for SealedCache {
    ghost use Rattle.std.specs.Prelude.{◌≡◌};
    ghost use Rattle.sealed_cache.specs.Caches.{Caches, listing_bound, block_list_bound, location_bound};
    ghost use Rattle.sealed_cache.specs.Codes.{caches_code};
    ghost use Rattle.sealed_cache.specs.Numbered.{by_ids, blk_of, dir_of, file_of};

    ghost Value = { Caches };

    ghost coded = { caches_code };

    ghost view = { λ c. record {
      listings = by_ids dir_of c.listings.entries;
      blocks = by_ids file_of c.block_lists.entries;
      locations = by_ids blk_of c.locations.entries;
    } };

    ghost invariant = { λ c.
        (c.listings.cap ≡ listing_bound) × (c.block_lists.cap ≡ block_list_bound) × (c.locations.cap ≡ location_bound) };
}

impl SealedCache {
    ghost use Rattle.sealed_cache.specs.Lent.{ends_as};

    /// Nothing is kept yet.
    pub fn start(alloc: Global) -> Result<SealedCache, NoMemory>
        ensures { IfOk result (λ cache. cache ≡ no_caches) }
    {
        let listings = LruCache::sparse(alloc, NonZeroUsize::new(MOST_LISTINGS).unwrap())?;
        let block_lists = LruCache::sparse(alloc, NonZeroUsize::new(MOST_BLOCK_LISTS).unwrap())?;
        let locations = LruCache::sparse(alloc, NonZeroUsize::new(MOST_LOCATIONS).unwrap())?;
        Ok(SealedCache {
            listings,
            block_lists,
            locations,
        })
    }

    /// The listing kept for the directory, which is now the latest used one. It takes no memory.
    pub fn listing(&mut self, dir: DirId) -> Option<&SealedListing>
        ensures* used { sem 𝓛 (ends_as self.entry (use_listing dir self.old)) }
        ensures value { option_copied result ≡ found dir_eq dir self.old.listings }
    {
        self.listings.get(&dir.0)
    }

    /// The blocks kept for the file, which are now the latest used ones. It takes no memory.
    pub fn blocks(&mut self, file: FileId) -> Option<&SealedBlocks>
        ensures* used { sem 𝓛 (ends_as self.entry (use_blocks file self.old)) }
        ensures value { option_copied result ≡ found file_eq file self.old.blocks }
    {
        self.block_lists.get(&file.0)
    }

    /// The location kept for the block, which is now the latest used one. It takes no memory.
    pub fn location(&mut self, blk: BlkId) -> Option<&Location>
        ensures* used { sem 𝓛 (ends_as self.entry (use_location blk self.old)) }
        ensures value { option_copied result ≡ found blk_eq blk self.old.locations }
    {
        self.locations.get(&blk.0)
    }

    /// Keeps the listing for the directory as the latest used one, in place of one that was kept for it; beyond 64 the last is dropped.
    /// For want of memory, which never comes where one is kept for the directory, it is not kept and nothing changes.
    #[tactic(auto, using(crate::proofs::ByNumber::found_dir))]
    pub fn keep_listing(&mut self, dir: DirId, listing: SealedListing) -> Result<(), NoMemory>
        ensures kept { OnOk result (self.new ≡ keep_listing dir listing self.old) }
        ensures unchanged { OnErr result (self.new ≡ self.old) }
        ensures replacing_succeeds { IsSome (found dir_eq dir self.old.listings) → IsOk result }
    {
        // It tells that no more are kept than may be.
        let _count = self.listings.len();
        self.listings.put(dir.0, listing)?;
        Ok(())
    }

    /// Keeps the blocks for the file as the latest used ones, in place of those that were kept for it; beyond 256 the last are dropped.
    /// For want of memory, which never comes where some are kept for the file, they are not kept and nothing changes.
    #[tactic(auto, using(crate::proofs::ByNumber::found_file))]
    pub fn keep_blocks(&mut self, file: FileId, blocks: SealedBlocks) -> Result<(), NoMemory>
        ensures kept { OnOk result (self.new ≡ keep_blocks file blocks self.old) }
        ensures unchanged { OnErr result (self.new ≡ self.old) }
        ensures replacing_succeeds { IsSome (found file_eq file self.old.blocks) → IsOk result }
    {
        // It tells that no more are kept than may be.
        let _count = self.block_lists.len();
        self.block_lists.put(file.0, blocks)?;
        Ok(())
    }

    /// Keeps the location for the block as the latest used one, in place of one that was kept for it; beyond 1,024 the last is dropped.
    /// For want of memory, which never comes where one is kept for the block, it is not kept and nothing changes.
    #[tactic(auto, using(crate::proofs::ByNumber::found_blk))]
    pub fn keep_location(&mut self, blk: BlkId, location: Location) -> Result<(), NoMemory>
        ensures kept { OnOk result (self.new ≡ keep_location blk location self.old) }
        ensures unchanged { OnErr result (self.new ≡ self.old) }
        ensures replacing_succeeds { IsSome (found blk_eq blk self.old.locations) → IsOk result }
    {
        // It tells that no more are kept than may be.
        let _count = self.locations.len();
        self.locations.put(blk.0, location)?;
        Ok(())
    }
}
