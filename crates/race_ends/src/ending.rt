ghost use Rattle.std.specs.Prelude.{◌≡◌, IfOk, IfErr, map};
ghost use Rattle.place_kit.specs.Started.{AreStarted};
ghost use Rattle.merge_runs.specs.Merged.{HaveDifferentActors, StandInOrder};
ghost use Rattle.race_ends.specs.Faults.{IsRaceFault, IsLossOf, IsSplitOf};
ghost use Rattle.race_ends.specs.HaveRun.{HaveRun};
ghost use Rattle.race_ends.specs.Raced.{IsGathered, IsRaced};

use crate::ended::EndedPart;
use crate::fault::RaceFault;
use crate::report::tell;
use entry_words::{Moment, Refused};
use merge_runs::{GatherFault, gather_lent};
use passes::Pass;
use place_kit::AnyKept;
use place_locks::Places;
use program_calls::Programs;
use std::alloc::Global;
use tect_ids::{Plan, ReportLine};

/// What a race came to: the report, and all that its places and its clients kept, which is one history.
#[derive(Drop)]
pub struct Raced {
    pub report: Vec<ReportLine>,
    pub places: Vec<AnyKept>,
    pub passes: Vec<Pass>,
}

/// Ends a race whose clients have done all lines of the plan. What they and the places kept is gathered to one history. The
/// report has the answers of each part, client by client in first-seen order, and behind them the lines of the dump that ended
/// the part: those of the store after the entries of the history that are stamped up to the dump's clock.
///
/// A race is split where what its clients kept and what its places kept are not the same transactions, and astray where at a place
/// another machine was found than the one that it was started with. There may be no memory.
pub fn finish<P: Programs>(
    alloc: Global,
    plan: &Plan,
    places: Places,
    passes: Vec<Pass>,
    ended: Vec<EndedPart>,
    last: Vec<ReportLine>,
) -> Result<Raced, RaceFault>
    requires places { places ≡ plan.now.counts }
    requires run { HaveRun P.rules plan.now.counts plan.now.clients plan.now.lines passes.items ended.items last.items }
    ensures raced { IfOk result (λ raced. IsRaced P.rules plan.now raced.places.items raced.passes.items raced.report.items) }
    ensures fault { IfErr result (IsRaceFault P.rules plan.now) }
{
    let kepts = take_kepts(places)?;
    let report = {
        let entries = gather_all(alloc, kepts.as_slice(), passes.as_slice())?;
        tell(alloc, plan.counts, entries.as_slice(), ended, last)?
    };
    Ok(Raced {
        report,
        places: kepts,
        passes,
    })
}

// All shards, in the order of their places.
fn take_kepts(places: Places) -> Result<Vec<AnyKept>, RaceFault>
    ensures all { IfOk result (λ kepts. AreStarted places kepts.items) }
    ensures lost { IfErr result (IsLossOf places) }
{
    match places.take_apart() {
        Ok(kepts) => Ok(kepts),
        Err(Refused::NoMemory) => Err(RaceFault::NoMemory),
        Err(Refused::Astray { want, found }) => Err(RaceFault::Astray { want, found }),
        Err(Refused::HistoryFull { .. }) => unreachable!(),
    }
}

// One history of all places and passes.
fn gather_all<'a>(
    alloc: Global,
    kepts: &[AnyKept],
    passes: &'a [Pass],
) -> Result<Vec<&'a Moment>, RaceFault>
    requires places { StandInOrder 0 kepts.now }
    requires actors { HaveDifferentActors passes.now }
    ensures gathered { IfOk result (λ v. IsGathered kepts.now passes.now (map (λ m. m.now) v.items)) }
    ensures split { IfErr result (IsSplitOf kepts.now passes.now) }
{
    match gather_lent(alloc, kepts, passes) {
        Ok(entries) => Ok(entries),
        Err(GatherFault::NoMemory) => Err(RaceFault::NoMemory),
        Err(
            GatherFault::Split {
                actor,
                step,
                in_pass,
                in_place,
            },
        ) => Err(RaceFault::Split {
            actor,
            step,
            in_pass,
            in_place,
        }),
    }
}
