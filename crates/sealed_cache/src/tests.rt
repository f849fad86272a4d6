use crate::{SealedBlocks, SealedCache, SealedListing};
use std::alloc::Global;
use std::test::Fail;
use std::thread;
use tect_ids::{
    BlkId, Class, DirId, DiskId, FileId, Items, Listed, Location, Name, Node, OpId, Row, RowPart,
    Tag,
};

/// Entries with these names, in this order, each of the file with its place as number.
fn entries(alloc: Global, names: &[&str]) -> Result<Items<Listed>, Fail> {
    let mut items = Vec::new(alloc);
    for (number, name) in names.iter().enumerate() {
        items.push(Listed {
            name: Name::new(alloc, name.as_bytes())?,
            node: Node::File(FileId(number as u64)),
        })?;
    }
    Ok(Items::from_vec(items)?)
}

fn keep_entries(
    alloc: Global,
    cache: &mut SealedCache,
    dir: DirId,
    names: &[&str],
) -> Result<(), Fail> {
    if let Some(listing) = SealedListing::of(true, entries(alloc, names)?) {
        cache.keep_listing(dir, listing)?;
    }
    Ok(())
}

#[test]
fn of_65_listings_the_one_used_longest_ago_is_dropped(rt: HostRuntime) -> Result<(), Fail> {
    let alloc = rt.alloc();
    let mut cache = SealedCache::start(alloc)?;
    let name = Name::new(alloc, b"a")?;
    for number in 1..65 {
        keep_entries(alloc, &mut cache, DirId(number), &["a"])?;
    }
    let found = Some(Some(Node::File(FileId(0))));
    assert_eq!(rt; cache.node_in(DirId(1), &name), found);
    keep_entries(alloc, &mut cache, DirId(65), &["a"])?;
    assert_eq!(rt; cache.node_in(DirId(2), &name), None);
    for number in [1, 3, 64, 65] {
        assert_eq!(rt; cache.node_in(DirId(number), &name), found);
    }
    Ok(())
}

#[test]
fn names_are_found_where_a_listing_is_kept(rt: HostRuntime) -> Result<(), Fail> {
    let alloc = rt.alloc();
    assert!(rt; SealedListing::of(false, entries(alloc, &["a"])?).is_none());
    assert!(rt; SealedListing::of(true, entries(alloc, &["b", "a"])?).is_none());
    assert!(rt; SealedListing::of(true, entries(alloc, &["a", "a"])?).is_none());
    let mut cache = SealedCache::start(alloc)?;
    keep_entries(alloc, &mut cache, DirId(1), &["B", "a", "aa", "b"])?;
    for (name, file) in [
        ("B", Some(0)),
        ("a", Some(1)),
        ("aa", Some(2)),
        ("b", Some(3)),
        ("A", None),
        ("ab", None),
        ("c", None),
    ] {
        let name = Name::new(alloc, name.as_bytes())?;
        assert_eq!(rt;
            cache.node_in(DirId(1), &name),
            Some(file.map(|number| Node::File(FileId(number))))
        );
    }
    // In another thread.
    let (shared, _) = thread::join(&rt, move || cache.share_listing(DirId(1)), || ());
    assert!(rt; shared? == Some(entries(alloc, &["B", "a", "aa", "b"])?));
    Ok(())
}

#[test]
fn blocks_and_locations_are_kept(rt: HostRuntime) -> Result<(), Fail> {
    let alloc = rt.alloc();
    let part = RowPart {
        blk: BlkId(7),
        len: 5,
    };
    let tag = Tag {
        op: OpId {
            actor: 1,
            number: 2,
        },
        part: 3,
    };
    let row = Row {
        disk: DiskId(4),
        tag,
        placed: true,
    };
    let mut cache = SealedCache::start(alloc)?;
    assert!(rt; SealedBlocks::of(false, Items::new()).is_none());
    if let Some(blocks) = SealedBlocks::of(true, Items::from_vec(vec![in alloc; part]?)?) {
        cache.keep_blocks(FileId(9), blocks)?;
    }
    let rows = Items::from_vec(vec![in alloc; row]?)?;
    let location = Location {
        class: Class::Copies,
        len: 5,
        sealed: true,
        version: 1,
        rows,
    };
    cache.keep_location(BlkId(7), location)?;
    let Some(rows) = cache.share_blocks(FileId(9))? else {
        return Err(Fail::new("no blocks"));
    };
    assert_eq!(rt; rows.as_slice(), [part].as_slice());
    let Some(location) = cache.share_location(BlkId(7))? else {
        return Err(Fail::new("no location"));
    };
    assert_eq!(rt; location.rows.as_slice(), [row].as_slice());
    assert_eq!(rt; location.version, 1);
    assert!(rt; cache.share_listing(DirId(7))?.is_none());
    Ok(())
}
