ghost use Rattle.std.specs.Prelude.{◌≡◌, OnOk};

use crate::Kept;
use entry_words::Refused;
use name_shard::NameShard;
use passes::{MOST_MOMENTS, Pass};
use std::alloc::Global;
use std::test::Fail;
use store_rules::{NameReply, NameReq};
use tect_ids::{Key, Name, Place, ROOT, Refusal};

const ACTOR: u32 = 7;

/// A request that takes no memory.
fn check_root(kept: &mut Kept<NameShard>, pass: &mut Pass) -> Result<(), Refused> {
    match kept.commit(pass, NameReq::CheckDir { dir: ROOT }) {
        Ok(_) => Ok(()),
        Err(refused) => Err(refused),
    }
}

/// A look at a name that is not there.
fn look(alloc: Global, kept: &mut Kept<NameShard>, pass: &mut Pass) -> Result<(), Fail>
    ensures { OnOk result ((pass.new.running ≡ pass.old.running) × (pass.new.actor ≡ pass.old.actor)) }
{
    let key = Key {
        dir: ROOT,
        name: Name::new(alloc, b"gone")?,
    };
    match kept.commit(pass, NameReq::Look { key })? {
        NameReply::Refused {
            why: Refusal::NoName,
        } => Ok(()),
        reply => Err(Fail::new(format_args!("{reply:?}"))),
    }
}

fn fill(alloc: Global, kept: &mut Kept<NameShard>, pass: &mut Pass) -> Result<(), Fail> {
    for _ in 0..MOST_MOMENTS {
        look(alloc, kept, pass)?;
    }
    Ok(())
}

#[test]
fn a_full_pass_does_not_fill_the_place(rt: HostRuntime) -> Result<(), Fail> {
    let alloc = rt.alloc();
    let mut kept = Kept::open_names(alloc, Place(3), true)?;
    let mut pass = Pass::start(alloc, ACTOR);
    fill(alloc, &mut kept, &mut pass)?;
    let full = Err(Refused::HistoryFull { place: Place(3) });
    assert!(&rt; pass.is_full());
    assert_eq!(&rt; check_root(&mut kept, &mut pass), full);
    assert_eq!(&rt; kept.history().len(), 65_536);
    let mut fresh = Pass::start(alloc, 8);
    assert_eq!(&rt; check_root(&mut kept, &mut fresh), Ok(()));
    assert_eq!(&rt; kept.history().len(), 65_537);
    Ok(())
}
