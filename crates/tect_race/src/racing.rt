ghost use Rattle.std.specs.Prelude.{◌≤◌, IfOk, IfErr, length};
ghost use Rattle.race_ends.specs.Raced.{IsRaced};
ghost use Rattle.race_ends.specs.Faults.{IsRaceFault};
ghost use Rattle.whole_runs.specs.Playable.{IsPlayable};

use crate::rounds::{Run, run_script};
use crate::workers::Shared;
use place_locks::Places;
use program_calls::Programs;
use race_ends::{RaceFault, Raced, finish};
use std::alloc::Global;
use std::sync::Wait;
use std::thread::Threads;
use tect_edge::Gate;
use tect_ids::Plan;

/// Runs the script of a plan on so many workers, by the programs `P`. Client number i, from 0, is of the worker `i % workers`, which
/// does the lines of its clients in the order of the script. Between two dumps each worker that has a line there works in a thread
/// of its own, one of them in the caller's; for a worker that has none no thread is started. What a thread that could not start
/// would have done is done all the same. The gate is told of each commit, with the number of the worker.
///
/// At a dump, and at the end, all workers have ended. A dump comes at the greatest clock of all clients, and each client's clock is
/// raised to it, so that what is stamped up to it was done before the dump, and all else after it.
///
/// The report has the answers of the lines before each dump, client by client in first-seen order, and behind them the dump; last
/// come the answers of the lines behind the last dump. With it comes all that the places and the clients kept. That is one history,
/// which is claimed to be a run of the world that follows the script client by client, and the report to be its own.
///
/// There is no memory where memory is wanting, and where a client's clock has come to 2^63. A race is split where what its clients
/// kept and what its places kept are not the same transactions, and astray where at a place another machine was found than the one
/// that it was started with.
pub fn race<P: Programs + Drop + Send, R: Threads + Wait + Sync, G: Gate + Sync>(
    rt: &R,
    alloc: Global,
    plan: &Plan,
    workers: u32,
    gate: &G,
) -> Result<Raced, RaceFault>
    requires plan { IsPlayable P.rules plan.now }
    requires clients { length plan.now.clients ≤ 64 }
    requires workers { (1 ≤ workers) × (workers ≤ 64) }
    ensures raced { IfOk result (λ raced. IsRaced P.rules plan.now raced.places.items raced.passes.items raced.report.items) }
    ensures fault { IfErr result (IsRaceFault P.rules plan.now) }
{
    let places = Places::start(alloc, plan.counts)?;
    let run = {
        let shared = Shared {
            rt,
            alloc,
            places: &places,
            clients: plan.clients.as_slice(),
            lines: plan.lines.as_slice(),
            worker_count: workers,
            gate,
        };
        run_script::<P, R, G>(&shared, plan.counts)?
    };
    let Run {
        passes,
        ended,
        last,
    } = run;
    finish::<P>(alloc, plan, places, passes, ended, last)
}
