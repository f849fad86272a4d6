//! One history of all places and passes.
ghost use Rattle.std.specs.Prelude.{◌≡◌, IfOk, IfErr, OnOk, OnErr, IsPermutation, All, Err, map};
ghost use Rattle.std.specs.List.{flat_map};
ghost use Rattle.merge_runs.specs.Merged.{moments_of, trails, Agree, IsInOrder, HaveDifferentActors, StandInOrder};
ghost use Rattle.merge_runs.specs.Merged.{RestrictsToTrails, RestrictsToHistories, IsStored};
ghost use Rattle.merge_runs.specs.Keyed.{moment_in, IsAt};
ghost use Rattle.merge_runs.specs.Splits.{IsFault};
ghost use Rattle.merge_runs.specs.MergedRuns.{IsOneHistory, IsSpot, moment_at};

use crate::agree::first_apart;
use crate::fault::GatherFault;
use crate::keyed::Keyed;
use crate::merged::Merged;
use crate::sorted::{moments, sorted_keyed, spots_of};
use crate::split::split;
use crate::spot::Spot;
use entry_words::Moment;
use passes::Pass;
use place_kit::AnyKept;
use std::alloc::Global;
use tect_ids::NoMemory;

/// Makes one history of all places and all passes, and hands them back with it. No entry is copied. The places are numbered from 0
/// on, in order, and no two passes are of one actor.
///
/// It is answered only where the trails of the passes and the histories of the places have the same entries, each once. Else
/// the answer is a `Split`, which names the actor and the step of an entry that not both of them have; or there was no
/// memory. Then places and passes are lost.
pub fn gather(kepts: Vec<AnyKept>, passes: Vec<Pass>) -> Result<Merged, GatherFault>
    requires places { StandInOrder 0 kepts.items }
    requires actors { HaveDifferentActors passes.items }
    ensures given { IfOk result (λ m. (m.places ≡ kepts.items) × (m.passes ≡ passes.items)) }
    ensures one { IfOk result (λ m. IsOneHistory kepts.items passes.items m.entries) }
    ensures split { IfErr result (IsFault kepts.items passes.items) }
    ensures memory { OnErr result (Agree kepts.items passes.items → result ≡ Err GatherFault.NoMemory) }
{
    let alloc = *passes.allocator();
    let order = gathered_order(alloc, kepts.as_slice(), passes.as_slice())?;
    Ok(Merged::new(kepts, passes, order))
}

// Where the moments of the one history stand.
fn gathered_order(
    alloc: Global,
    kepts: &[AnyKept],
    passes: &[Pass],
) -> Result<Vec<Spot>, GatherFault>
    requires places { StandInOrder 0 kepts.now }
    requires actors { HaveDifferentActors passes.now }
    ensures one { IfOk result (λ v. IsOneHistory kepts.now passes.now (map (moment_at passes.now) v.items)) }
    ensures spots { IfOk result (λ v. All (IsSpot passes.now) v.items) }
    ensures split { IfErr result (IsFault kepts.now passes.now) }
    ensures memory { OnErr result (Agree kepts.now passes.now → result ≡ Err GatherFault.NoMemory) }
{
    let order = agreed(alloc, kepts, passes)?;
    match spots_of(alloc, order.as_slice()) {
        Ok(spots) => Ok(spots),
        Err(NoMemory) => Err(GatherFault::NoMemory),
    }
}

/// Makes one history of all places and all passes, and lends its moments. The places are numbered from 0 on, in order, and no two
/// passes are of one actor. The history has the entries and the notes as the passes keep them, by stamp, then by place, then by actor;
/// a note's
/// place counts as 256.
///
/// It is answered only where the trails of the passes and the histories of the places have the same entries, each once. Else
/// the answer is a `Split`, which names the actor and the step of an entry that not both of them have; or there was no
/// memory.
pub fn gather_lent<'a>(
    alloc: Global,
    kepts: &[AnyKept],
    passes: &'a [Pass],
) -> Result<Vec<&'a Moment>, GatherFault>
    requires places { StandInOrder 0 kepts.now }
    requires actors { HaveDifferentActors passes.now }
    ensures agree { OnOk result (Agree kepts.now passes.now) }
    ensures whole { IfOk result (λ v. IsPermutation (flat_map moments_of passes.now) (map (λ m. m.now) v.items)) }
    ensures order { IfOk result (λ v. IsInOrder (map (λ m. m.now) v.items)) }
    ensures trails { IfOk result (λ v. RestrictsToTrails passes.now (map (λ m. m.now) v.items)) }
    ensures histories { IfOk result (λ v. RestrictsToHistories kepts.now (map (λ m. m.now) v.items)) }
    ensures stored { OnOk result (All (IsStored kepts.now) (trails passes.now)) }
    ensures split { IfErr result (IsFault kepts.now passes.now) }
    ensures memory { OnErr result (Agree kepts.now passes.now → result ≡ Err GatherFault.NoMemory) }
{
    let order = agreed(alloc, kepts, passes)?;
    match moments(alloc, order.as_slice()) {
        Ok(entries) => Ok(entries),
        Err(NoMemory) => Err(GatherFault::NoMemory),
    }
}

// All moments of the passes in order, where trails and histories have the same entries.
fn agreed<'a>(
    alloc: Global,
    kepts: &[AnyKept],
    passes: &'a [Pass],
) -> Result<Vec<Keyed<'a>>, GatherFault>
    requires places { StandInOrder 0 kepts.now }
    requires actors { HaveDifferentActors passes.now }
    ensures one { IfOk result (λ v. IsOneHistory kepts.now passes.now (map moment_in v.items)) }
    ensures spots { IfOk result (λ v. All (IsAt passes.now) v.items) }
    ensures split { IfErr result (IsFault kepts.now passes.now) }
    ensures memory { OnErr result (Agree kepts.now passes.now → result ≡ Err GatherFault.NoMemory) }
{
    let order = sorted_keyed(alloc, passes)?;
    match first_apart(alloc, kepts, order.as_slice())? {
        Some(apart) => Err(split(kepts, passes, apart)),
        None => Ok(order),
    }
}
