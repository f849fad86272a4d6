ghost use Rattle.std.specs.Prelude.{◌≡◌, ◌<◌, ◌≤◌, List, [], ◌∷◌, IfOk, IfErr, OnOk, length, drop, slice_range};
ghost use Rattle.tect_race.specs.Ready.{AreAssigned, CanBeCollected, IsWorker};
ghost use Rattle.racer_stories.specs.Ready.{IsOfClient};
ghost use Rattle.std.specs.List.{All};
ghost use Rattle.tect_ids.specs.declared.script.Line.{Line as ScriptLine};
ghost use Rattle.tect_race.specs.Workers.{WorkerPlays, WorkerCame};
ghost use Rattle.tect_ids.specs.Places.{HasPlaces};
ghost use Rattle.race_ends.specs.Faults.{IsLossOf};
ghost use Rattle.tect_race.specs.Faults.{race_result};

use place_locks::{Locked, Places};
use players::RacerFault;
use program_calls::Programs;
use race_ends::RaceFault;
use racers::{Racer, play_act};
use std::alloc::Global;
use std::sync::Wait;
use tect_edge::Gate;
use tect_ids::{Line, Name, NoMemory};

/// What all workers of a race share.
#[derive(Drop)]
pub struct Shared<'a, R: Wait, G: Gate> {
    pub rt: &'a R,
    pub alloc: Global,
    pub places: &'a Places,
    pub clients: &'a [Name],
    pub lines: &'a [Line],
    pub worker_count: u32,
    pub gate: &'a G,
}

/// A worker, and the clients that it runs: client number i, from 0, is of the worker `i % worker_count`, and stands at
/// `i / worker_count`.
#[derive(Drop)]
pub struct Worker<P: Programs> {
    pub number: u32,
    pub racers: Vec<Racer<P>>,
}

/// So many workers, with no client.
fn idle_workers<P: Programs + Drop>(
    alloc: Global,
    worker_count: u32,
) -> Result<Vec<Worker<P>>, NoMemory>
    ensures { IfOk result (λ workers. AreAssigned worker_count [] workers.items) }
{
    let mut workers = Vec::new(alloc);
    'each: for number in 0..worker_count {
        workers.push(Worker {
            number,
            racers: Vec::new(alloc),
        })?;
    }
    Ok(workers)
}

/// Gives each client to its worker.
pub fn assign<P: Programs + Drop>(
    alloc: Global,
    racers: Vec<Racer<P>>,
    worker_count: u32,
) -> Result<Vec<Worker<P>>, NoMemory>
    requires { 0 < worker_count }
    ensures { IfOk result (λ workers. AreAssigned worker_count racers.items workers.items) }
{
    let mut workers = idle_workers(alloc, worker_count)?;
    let count = worker_count as usize;
    let mut assigned: usize = 0;
    'racers: for racer in racers {
        workers[assigned % count].racers.push(racer)?;
        assigned += 1;
    }
    Ok(workers)
}

/// Takes the clients of all workers together again, in their order.
pub fn collect<P: Programs + Drop>(
    alloc: Global,
    workers: Vec<Worker<P>>,
    clients: usize,
) -> Result<Vec<Racer<P>>, NoMemory>
    requires some { 0 < length workers.items }
    requires can { CanBeCollected clients workers.items }
    ensures all { IfOk result (λ all. length all.items ≡ clients) }
    ensures assigned { IfOk result (λ all. AreAssigned (length workers.items) all.items workers.items) }
{
    let mut workers = workers;
    let mut racers = Vec::new(alloc);
    let count = workers.len();
    'clients: for client in (0..clients).rev() {
        let Some(racer) = workers[client % count].racers.pop() else {
            unreachable!()
        };
        racers.push(racer)?;
    }
    racers.reverse();
    Ok(racers)
}

/// A client's fault is that of the race.
fn raced(played: Result<(), RacerFault>) -> Result<(), RaceFault>
    ensures { result ≡ race_result played }
{
    match played {
        Ok(()) => Ok(()),
        Err(RacerFault::NoMemory) => Err(RaceFault::NoMemory),
        Err(RacerFault::Astray { want, found }) => Err(RaceFault::Astray { want, found }),
    }
}

/// Does the line of a client, if the client is the worker's.
fn play_line<P: Programs + Drop, R: Wait, G: Gate>(
    shared: &Shared<'_, R, G>,
    worker: &mut Worker<P>,
    line: &Line,
) -> Result<(), RaceFault>
    requires places { HasPlaces shared.now.places.now }
    requires client { IsOfClient (length shared.now.clients.now) line.now }
    requires ready { (later : List ScriptLine)
        × IsWorker P.rules shared.now.places.now (length shared.now.clients.now) shared.now.worker_count (line.now ∷ later) worker.old }
    ensures plays { OnOk result (WorkerPlays P.rules shared.now.clients.now line.now worker.old worker.new) }
    ensures fault { IfErr result (IsLossOf shared.now.places.now) }
{
    let Line::Client { actor, act, .. } = line else {
        unreachable!()
    };
    let number = *actor - 1;
    if number % shared.worker_count != worker.number {
        return Ok(());
    }
    let slot = (number / shared.worker_count) as usize;
    let mut at = Locked {
        rt: shared.rt,
        places: shared.places,
        worker: worker.number,
        gate: shared.gate,
    };
    let played = play_act(
        &mut at,
        shared.alloc,
        shared.clients,
        &mut worker.racers[slot],
        act,
    );
    raced(played)
}

/// Does the lines of the worker's clients among those from `start` up to `end`.
pub fn run_worker<P: Programs + Drop, R: Wait, G: Gate>(
    shared: &Shared<'_, R, G>,
    worker: Worker<P>,
    start: usize,
    end: usize,
) -> Result<Worker<P>, RaceFault>
    requires places { HasPlaces shared.now.places.now }
    requires part { (start ≤ end) × (end ≤ length shared.now.lines.now) }
    requires clients { All (IsOfClient (length shared.now.clients.now)) (slice_range shared.now.lines.now start end) }
    requires ready { IsWorker P.rules shared.now.places.now (length shared.now.clients.now) shared.now.worker_count
        (drop start shared.now.lines.now) worker }
    ensures { WorkerCame P.rules shared.now.places.now shared.now.clients.now shared.now.worker_count
        (slice_range shared.now.lines.now start end) (drop end shared.now.lines.now) worker result }
{
    let mut worker = worker;
    let part = &shared.lines[start..end];
    'lines: for line in part {
        play_line(shared, &mut worker, line)?;
    }
    Ok(worker)
}
