ghost use Rattle.std.specs.Prelude.{◌≡◌, ◌<◌, ◌≤◌, IfOk, IfErr, IsOk, length, drop, slice_range};
ghost use Rattle.std.specs.List.{All, flat_map};
ghost use Rattle.tect_ids.specs.Places.{HasPlaces};
ghost use Rattle.tect_race.specs.Batches.{is_of_worker, has_line, AreBatches, BatchCame, ended_workers};
ghost use Rattle.tect_race.specs.Ready.{IsWorker, AreWorkers};
ghost use Rattle.racer_stories.specs.Ready.{IsOfClient, AreRacers};
ghost use Rattle.tect_race.specs.Workers.{WorkersRan};
ghost use Rattle.racer_stories.specs.Lines.{RacersRan};
ghost use Rattle.race_ends.specs.Faults.{IsLossOf};

use crate::workers::{Shared, Worker, assign, collect, run_worker};
use program_calls::Programs;
use race_ends::RaceFault;
use racers::Racer;
use std::alloc::Global;
use std::sync::Wait;
use std::thread;
use std::thread::Threads;
use tect_edge::Gate;
use tect_ids::{Line, NoMemory};

/// Whether the line is of a client of that worker.
fn is_of(line: &Line, worker: u32, worker_count: u32) -> bool
    requires { worker < worker_count }
    ensures { result ≡ is_of_worker worker_count worker line.now }
{
    match line {
        Line::Client { actor, .. } => actor.saturating_sub(1) % worker_count == worker,
        _ => false,
    }
}

/// Whether one of the worker's clients has a line in the part.
fn is_busy<P: Programs + Drop>(worker: &Worker<P>, part: &[Line], worker_count: u32) -> bool
    requires { worker.now.number < worker_count }
    ensures { result ≡ has_line worker_count part.now worker.now }
{
    'lines: for line in part {
        if is_of(line, worker.number, worker_count) {
            return true;
        }
    }
    false
}

/// Puts the workers, in their order, into batches, one for each thread: as many as there are workers with a line in the part, and
/// one if there is none.
fn into_batches<P: Programs + Drop>(
    alloc: Global,
    workers: Vec<Worker<P>>,
    part: &[Line],
    worker_count: u32,
) -> Result<Vec<Vec<Worker<P>>>, NoMemory>
    requires { All (λ worker. worker.number < worker_count) workers.items }
    ensures { IfOk result (λ batches. AreBatches worker_count part.now workers.items batches.items) }
{
    let mut batches = Vec::new(alloc);
    let mut batch = Vec::new(alloc);
    let mut has_busy = false;
    'workers: for worker in workers {
        let busy = is_busy(&worker, part, worker_count);
        if busy && has_busy {
            batches.push(batch)?;
            batch = Vec::new(alloc);
        }
        has_busy = has_busy || busy;
        batch.push(worker)?;
    }
    batches.push(batch)?;
    Ok(batches)
}

/// The workers of a batch, one after another, do their lines among those from `start` up to `end`.
fn run_batch<P: Programs + Drop, R: Wait, G: Gate>(
    shared: &Shared<'_, R, G>,
    batch: Vec<Worker<P>>,
    start: usize,
    end: usize,
) -> Result<Vec<Worker<P>>, RaceFault>
    requires places { HasPlaces shared.now.places.now }
    requires part { (start ≤ end) × (end ≤ length shared.now.lines.now) }
    requires clients { All (IsOfClient (length shared.now.clients.now)) (slice_range shared.now.lines.now start end) }
    requires ready { All
        (IsWorker P.rules shared.now.places.now (length shared.now.clients.now) shared.now.worker_count (drop start shared.now.lines.now))
        batch.items }
    ensures { BatchCame P.rules shared.now.places.now shared.now.clients.now shared.now.worker_count
        (slice_range shared.now.lines.now start end) (drop end shared.now.lines.now) batch.items result }
{
    let mut done = Vec::new(shared.alloc);
    'workers: for worker in batch {
        let ran = run_worker(shared, worker, start, end)?;
        let Ok(()) = done.push(ran) else {
            return Err(RaceFault::NoMemory);
        };
    }
    Ok(done)
}

/// The workers of all batches, in order, that came to the end, or the fault of the first batch that did not.
fn all_ended<P: Programs + Drop, R: Wait, G: Gate>(
    shared: &Shared<'_, R, G>,
    ran: Vec<Result<Vec<Worker<P>>, RaceFault>>,
) -> Result<Vec<Worker<P>>, RaceFault>
    requires { All (λ batch. IfErr batch (IsLossOf shared.now.places.now)) ran.items }
    ensures ended { IfOk result (λ workers. All (λ batch. IsOk batch) ran.items) }
    ensures joined { IfOk result (λ workers. workers.items ≡ flat_map ended_workers ran.items) }
    ensures fault { IfErr result (IsLossOf shared.now.places.now) }
{
    let mut workers = Vec::new(shared.alloc);
    'batches: for batch in ran {
        let mut ended = batch?;
        let Ok(()) = workers.append(&mut ended) else {
            return Err(RaceFault::NoMemory);
        };
    }
    Ok(workers)
}

/// All workers do their lines among those from `start` up to `end`, each that has one in a thread of its own. All have ended then.
fn run_workers<P: Programs + Drop + Send, R: Threads + Wait + Sync, G: Gate + Sync>(
    shared: &Shared<'_, R, G>,
    workers: Vec<Worker<P>>,
    start: usize,
    end: usize,
) -> Result<Vec<Worker<P>>, RaceFault>
    requires places { HasPlaces shared.now.places.now }
    requires part { (start ≤ end) × (end ≤ length shared.now.lines.now) }
    requires clients { All (IsOfClient (length shared.now.clients.now)) (slice_range shared.now.lines.now start end) }
    requires ready { AreWorkers P.rules shared.now.places.now (length shared.now.clients.now) shared.now.worker_count
        (drop start shared.now.lines.now) workers.items }
    ensures ran { IfOk result
        (λ now. WorkersRan P.rules shared.now.clients.now (slice_range shared.now.lines.now start end) workers.items now.items) }
    ensures ready { IfOk result
        (λ now. AreWorkers P.rules shared.now.places.now (length shared.now.clients.now) shared.now.worker_count
        (drop end shared.now.lines.now) now.items) }
    ensures fault { IfErr result (IsLossOf shared.now.places.now) }
{
    let rt = shared.rt;
    let alloc = shared.alloc;
    let places = shared.places;
    let clients = shared.clients;
    let lines = shared.lines;
    let worker_count = shared.worker_count;
    let gate = shared.gate;
    let batches = into_batches(alloc, workers, &lines[start..end], worker_count)?;
    let work = |batch: Vec<Worker<P>>| {
        let shared = Shared {
            rt,
            alloc,
            places,
            clients,
            lines,
            worker_count,
            gate,
        };
        run_batch(&shared, batch, start, end)
    };
    match thread::map_vec(rt, batches, &work) {
        Ok(ran) => all_ended(shared, ran),
        Err(_) => Err(RaceFault::NoMemory),
    }
}

/// All clients do their lines among those from `start` up to `end`.
pub fn run_part<P: Programs + Drop + Send, R: Threads + Wait + Sync, G: Gate + Sync>(
    shared: &Shared<'_, R, G>,
    racers: Vec<Racer<P>>,
    start: usize,
    end: usize,
) -> Result<Vec<Racer<P>>, RaceFault>
    requires places { HasPlaces shared.now.places.now }
    requires part { (start ≤ end) × (end ≤ length shared.now.lines.now) }
    requires workers { 0 < shared.now.worker_count }
    requires all { length racers.items ≡ length shared.now.clients.now }
    requires clients { All (IsOfClient (length shared.now.clients.now)) (slice_range shared.now.lines.now start end) }
    requires ready { AreRacers P.rules shared.now.places.now (drop start shared.now.lines.now) racers.items }
    ensures ran { IfOk result (λ now. RacersRan P.rules shared.now.clients.now (slice_range shared.now.lines.now start end) racers.items
        now.items) }
    ensures ready { IfOk result (λ now. AreRacers P.rules shared.now.places.now (drop end shared.now.lines.now) now.items) }
    ensures fault { IfErr result (IsLossOf shared.now.places.now) }
{
    let clients = racers.len();
    let assigned = assign(shared.alloc, racers, shared.worker_count)?;
    let done = run_workers(shared, assigned, start, end)?;
    let collected = collect(shared.alloc, done, clients)?;
    Ok(collected)
}
