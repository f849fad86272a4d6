ghost use Rattle.std.specs.Prelude.{◌≡◌};

use crate::KeptShards;
use entry_words::Refused;
use passes::Pass;
use std::process::Abort;
use std::test::Fail;
use tect_calls::name_check_dir;
use tect_ids::{Counts, ROOT};

const COUNTS: Counts = Counts {
    names: 2,
    files: 3,
    blocks: 1,
    disks: 1,
    copies: 1,
};

/// A request at the root's place.
fn check_root(shards: &mut KeptShards, pass: &mut Pass) -> Result<(), Refused> {
    match shards.commit(pass, name_check_dir(ROOT)) {
        Ok(_) => Ok(()),
        Err(refused) => Err(refused),
    }
}

/// How many entries all places have together.
fn count_entries(rt: &impl Abort, shards: KeptShards) -> Result<usize, Fail> {
    let kepts = shards.into_kepts();
    assert_eq!(rt; kepts.len(), 7);
    let mut count: usize = 0;
    for kept in &kepts {
        count = count.saturating_add(kept.history().len());
    }
    Ok(count)
}

#[test]
fn a_request_is_kept_at_one_place(rt: HostRuntime) -> Result<(), Fail> {
    let alloc = rt.alloc();
    let mut shards = KeptShards::start(alloc, COUNTS)?;
    let mut pass = Pass::start(alloc, 7);
    assert_eq!(&rt; check_root(&mut shards, &mut pass), Ok(()));
    assert_eq!(&rt; shards.counts(), COUNTS);
    assert_eq!(&rt; shards.dump()?.len(), 1);
    assert_eq!(&rt; pass.moments().len(), 1);
    assert_eq!(&rt; count_entries(&rt, shards)?, 1);
    Ok(())
}
