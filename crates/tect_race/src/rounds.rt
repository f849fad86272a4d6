ghost use Rattle.std.specs.Prelude.{◌≡◌, ◌+◌, ◌<◌, ◌≤◌, Some, IfOk, IfErr, length, slice_get};
ghost use Rattle.tect_ids.specs.Places.{HasPlaces};
ghost use Rattle.race_ends.specs.Faults.{IsLossOf};
ghost use Rattle.race_ends.specs.HaveRun.{HaveRun};
ghost use Rattle.racer_stories.specs.Done.{AreNew, IsScript};
ghost use Rattle.tect_race.specs.Progress.{HasCome};
ghost use Rattle.std.specs.List.{AllZip};
ghost use Rattle.racer_stories.specs.Passes.{IsPassOf};

use crate::part_ends::end_part;
use crate::threads::run_part;
use crate::workers::Shared;
use clients::Client;
use passes::Pass;
use program_calls::Programs;
use race_ends::{EndedPart, RaceFault};
use racers::Racer;
use std::alloc::Global;
use std::sync::Wait;
use std::thread::Threads;
use tect_edge::Gate;
use tect_ids::{Counts, Line, NoMemory, ReportLine};

/// What the clients of a race did: their passes, the parts that dumps ended, and the answers of the last part.
#[derive(Drop)]
pub struct Run {
    pub passes: Vec<Pass>,
    pub ended: Vec<EndedPart>,
    pub last: Vec<ReportLine>,
}

/// How far a race has come: its clients, the parts that dumps ended, the number of the first line behind the last of these
/// dumps, and the clock at which it came.
#[derive(Drop)]
struct Progress<P: Programs> {
    racers: Vec<Racer<P>>,
    ended: Vec<EndedPart>,
    start: usize,
    clock: u64,
}

/// So many clients, before they did anything.
fn new_racers<P: Programs + Drop>(
    alloc: Global,
    counts: Counts,
    clients: usize,
) -> Result<Vec<Racer<P>>, NoMemory>
    requires places { HasPlaces counts }
    requires few { clients ≤ 64 }
    ensures { IfOk result (λ racers. AreNew counts clients racers.items) }
{
    let mut racers = Vec::new(alloc);
    'each: for number in 0..clients {
        racers.push(Racer {
            client: Client::start(alloc, number as u32 + 1, counts)?,
            answers: Vec::new(alloc),
        })?;
    }
    Ok(racers)
}

/// All clients do the lines up to the dump of that number, which ends the part when all of them have ended.
fn end_at_dump<P: Programs + Drop + Send, R: Threads + Wait + Sync, G: Gate + Sync>(
    shared: &Shared<'_, R, G>,
    progress: Progress<P>,
    dump: usize,
) -> Result<Progress<P>, RaceFault>
    requires places { HasPlaces shared.now.places.now }
    requires workers { 0 < shared.now.worker_count }
    requires dump { slice_get shared.now.lines.now dump ≡ Some Line.Dump }
    requires come { HasCome P.rules shared.now.places.now shared.now.clients.now shared.now.lines.now dump progress }
    ensures dumped { IfOk result (HasCome P.rules shared.now.places.now shared.now.clients.now shared.now.lines.now (dump + 1)) }
    ensures fault { IfErr result (IsLossOf shared.now.places.now) }
{
    let Progress {
        racers,
        mut ended,
        start,
        clock,
    } = progress;
    let mut racers = run_part(shared, racers, start, dump)?;
    let part = end_part(shared.alloc, &mut racers, clock)?;
    let clock = part.clock;
    let Ok(()) = ended.push(part) else {
        return Err(RaceFault::NoMemory);
    };
    Ok(Progress {
        racers,
        ended,
        start: dump + 1,
        clock,
    })
}

/// The passes of the clients, in their order.
fn take_passes<P: Programs + Drop>(
    alloc: Global,
    racers: Vec<Racer<P>>,
) -> Result<Vec<Pass>, NoMemory>
    ensures { IfOk result (λ passes. AllZip IsPassOf racers.items passes.items) }
{
    let mut passes = Vec::new(alloc);
    'racers: for racer in racers {
        let Racer { client, .. } = racer;
        let (pass, _refused) = client.into_pass();
        passes.push(pass)?;
    }
    Ok(passes)
}

/// All clients do the lines behind the last dump, and the script ends when all of them have ended.
fn end_script<P: Programs + Drop + Send, R: Threads + Wait + Sync, G: Gate + Sync>(
    shared: &Shared<'_, R, G>,
    progress: Progress<P>,
) -> Result<Run, RaceFault>
    requires places { HasPlaces shared.now.places.now }
    requires workers { 0 < shared.now.worker_count }
    requires script { IsScript P.rules (length shared.now.clients.now) shared.now.lines.now }
    requires come { HasCome P.rules shared.now.places.now shared.now.clients.now shared.now.lines.now (length shared.now.lines.now)
        progress }
    ensures run { IfOk result
        (λ run. HaveRun P.rules shared.now.places.now shared.now.clients.now shared.now.lines.now run.passes.items run.ended.items
        run.last.items) }
    ensures fault { IfErr result (IsLossOf shared.now.places.now) }
{
    let Progress {
        racers,
        ended,
        start,
        clock,
    } = progress;
    let mut racers = run_part(shared, racers, start, shared.lines.len())?;
    let part = end_part(shared.alloc, &mut racers, clock)?;
    let passes = take_passes(shared.alloc, racers)?;
    Ok(Run {
        passes,
        ended,
        last: part.answers,
    })
}

/// Does all lines: those between two dumps by all workers, and each dump when all of them have ended.
pub fn run_script<P: Programs + Drop + Send, R: Threads + Wait + Sync, G: Gate + Sync>(
    shared: &Shared<'_, R, G>,
    counts: Counts,
) -> Result<Run, RaceFault>
    requires counts { counts ≡ shared.now.places.now }
    requires places { HasPlaces counts }
    requires workers { 0 < shared.now.worker_count }
    requires clients { length shared.now.clients.now ≤ 64 }
    requires script { IsScript P.rules (length shared.now.clients.now) shared.now.lines.now }
    ensures run { IfOk result
        (λ run. HaveRun P.rules counts shared.now.clients.now shared.now.lines.now run.passes.items run.ended.items run.last.items) }
    ensures fault { IfErr result (IsLossOf shared.now.places.now) }
{
    let mut progress: Progress<P> = Progress {
        racers: new_racers(shared.alloc, counts, shared.clients.len())?,
        ended: Vec::new(shared.alloc),
        start: 0,
        clock: 0,
    };
    'lines: for (number, line) in shared.lines.iter().enumerate() {
        if matches!(line, Line::Dump) {
            progress = end_at_dump(shared, progress, number)?;
        }
    }
    end_script(shared, progress)
}
