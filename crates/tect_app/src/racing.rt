ghost use Rattle.std.specs.Prelude.{◌≡◌, ◌≢◌, ◌≤◌, ◌⊎◌, ◌++◌, [], ℕ, List, IfOk, IfSome, length, string_bytes};
ghost use Rattle.std.specs.Io.KnownBytes.{Appends};
ghost use Rattle.tect_edge.specs.Counts.{Rose};
ghost use Rattle.tect_edge.specs.Prefixes.{AppendsProperPrefix};
ghost use Rattle.program_rules.specs.Served.{programs};
ghost use Rattle.whole_runs.specs.Playable.{IsPlayable};
ghost use Rattle.replay_stories.specs.Output.{lines_text, end_text};
ghost use Rattle.tect_app.specs.RaceEnds.{split_text, astray_text, IsNamedBy, IsSplitLine, IsRaceShown, IsRaceCut};
ghost use Rattle.tect_app.specs.Statuses.{IsReportStatus, IsRaceStatus};

use crate::refusal::close;
use crate::status::Status;
use op_names::Running;
use std::alloc::{AllocError, Global};
use std::mem::forget;
use std::sync::Wait;
use std::thread::Threads;
use tect_edge::{Gate, Sink};
use tect_ids::{Place, Plan};
use tect_race::{RaceFault, Raced, race};
use tect_replay::{ReplayFault, write_report};

/// Writes the report of a race, and answers with which status that ended. All that the race kept is left to the end of the
/// process.
fn show<K: Sink>(alloc: Global, raced: Raced, sink: &mut K) -> Status
    ensures only { IsReportStatus result }
    ensures whole { result ≡ Status.Ok
        → Appends (K.written sink.old) (K.written sink.new) (lines_text raced.report.items ++ end_text) }
    ensures cut { result ≢ Status.Ok
        → AppendsProperPrefix (K.written sink.old) (K.written sink.new) (lines_text raced.report.items ++ end_text) }
    ensures kept { result ≢ Status.WriteFault → K.faults sink.new ≡ K.faults sink.old }
    ensures failed { result ≡ Status.WriteFault → Rose (K.faults sink.old) (K.faults sink.new) }
{
    let ended = write_report(alloc, raced.report.as_slice(), sink);
    forget(raced);
    match ended {
        Ok(()) => Status::Ok,
        Err(ReplayFault::NoMemory) => Status::NoMemory,
        Err(ReplayFault::Failed) => Status::WriteFault,
    }
}

fn split_line(alloc: Global, actor: u32, step: u32) -> Result<String, AllocError>
    ensures { IfOk result (λ text. string_bytes text ≡ split_text actor step) }
{
    let text = format!(in alloc; "split {actor} {step}\n")?;
    Ok(text)
}

fn astray_line(alloc: Global, place: Place) -> Result<String, AllocError>
    ensures { IfOk result (λ text. string_bytes text ≡ astray_text place) }
{
    let number = place.0;
    format!(in alloc; "astray {number}\n")
}

/// The line that names what differs; `None` for want of memory.
fn fault_line(alloc: Global, fault: &RaceFault) -> Option<String>
    ensures { IfSome result (λ line. IsNamedBy fault.now (string_bytes line)) }
{
    match fault {
        RaceFault::NoMemory => None,
        RaceFault::Split { actor, step, .. } => split_line(alloc, *actor, *step).ok(),
        RaceFault::Astray { want, .. } => astray_line(alloc, want.place).ok(),
    }
}

/// Writes the line of a race that came to no report.
fn refuse_race<K: Sink>(alloc: Global, fault: &RaceFault, sink: &mut K) -> Status
    ensures only { (result ≡ Status.Split) ⊎ ((result ≡ Status.NoMemory) ⊎ (result ≡ Status.WriteFault)) }
    ensures whole { result ≡ Status.Split → (line : List ℕ) × IsNamedBy fault.now line
        × Appends (K.written sink.old) (K.written sink.new) line }
    ensures part { result ≡ Status.WriteFault → (line : List ℕ) × IsNamedBy fault.now line
        × AppendsProperPrefix (K.written sink.old) (K.written sink.new) line }
    ensures starved { result ≡ Status.NoMemory → Appends (K.written sink.old) (K.written sink.new) [] }
    ensures kept { result ≢ Status.WriteFault → K.faults sink.new ≡ K.faults sink.old }
    ensures failed { result ≡ Status.WriteFault → Rose (K.faults sink.old) (K.faults sink.new) }
{
    match fault_line(alloc, fault) {
        Some(line) => close(sink, line.as_bytes(), Status::Split),
        None => Status::NoMemory,
    }
}

/// Races a plan, writes its report or the line of what differs, and answers with which status that ended.
pub fn race_plan<R: Threads + Wait + Sync, K: Sink, G: Gate + Sync>(
    rt: &R,
    alloc: Global,
    plan: &Plan,
    workers: u32,
    sink: &mut K,
    gate: &G,
) -> Status
    requires plan { IsPlayable programs plan.now }
    requires clients { length plan.now.clients ≤ 64 }
    requires workers { (1 ≤ workers) × (workers ≤ 64) }
    ensures only { IsRaceStatus result }
    ensures whole { result ≡ Status.Ok → IsRaceShown plan.now (K.written sink.old) (K.written sink.new) }
    ensures split { result ≡ Status.Split → (line : List ℕ) × IsSplitLine plan.now line
        × Appends (K.written sink.old) (K.written sink.new) line }
    ensures cut { result ≡ Status.WriteFault → IsRaceCut plan.now (K.written sink.old) (K.written sink.new)
        ⊎ ((line : List ℕ) × IsSplitLine plan.now line × AppendsProperPrefix (K.written sink.old) (K.written sink.new) line) }
    ensures starved { result ≡ Status.NoMemory → Appends (K.written sink.old) (K.written sink.new) []
        ⊎ IsRaceCut plan.now (K.written sink.old) (K.written sink.new) }
    ensures kept { result ≢ Status.WriteFault → K.faults sink.new ≡ K.faults sink.old }
    ensures failed { result ≡ Status.WriteFault → Rose (K.faults sink.old) (K.faults sink.new) }
{
    match race::<Running, R, G>(rt, alloc, plan, workers, gate) {
        Ok(raced) => show(alloc, raced, sink),
        Err(fault) => refuse_race(alloc, &fault, sink),
    }
}
