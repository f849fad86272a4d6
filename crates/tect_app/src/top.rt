ghost use Rattle.std.specs.Prelude.{◌≡◌, ◌≢◌, ◌≤◌, ◌⊎◌, ℕ, map, string_bytes};
ghost use Rattle.tect_edge.specs.Counts.{Rose};
ghost use Rattle.tect_app.specs.Modes.{SpellsNone, SpellsRace};
ghost use Rattle.tect_app.specs.Headline.{InMode, IsReadWithin, IsReported, IsUsage, IsRefused, IsReadFault, IsCut, IsCutOff, IsStarved};
ghost use Rattle.tect_app.specs.Headline.{IsSplitEnd};
ghost use Rattle.tect_app.specs.Statuses.{IsReportStatus};
ghost use Rattle.program_rules.specs.Served.{programs};
ghost use Rattle.whole_runs.specs.Playable.{IsPlayable};
ghost use Rattle.replay_claims.specs.Claimed.{IsReplayShown, IsReplayCut};

use crate::input::{InputFault, read_plan};
use crate::mode::{Mode, read_mode};
use crate::racing::race_plan;
use crate::refusal::{close, refuse};
use crate::status::Status;
use op_names::Running;
use std::alloc::Global;
use std::mem::forget;
use std::sync::Wait;
use std::thread::Threads;
use tect_edge::{Gate, Sink, Source};
use tect_ids::Plan;
use tect_replay::{ReplayFault, replay};

/// Plays a plan, and answers with which status that ended.
fn play<K: Sink>(alloc: Global, plan: &Plan, sink: &mut K) -> Status
    requires { IsPlayable programs plan.now }
    ensures only { IsReportStatus result }
    ensures whole { result ≡ Status.Ok → IsReplayShown plan.now (K.written sink.old) (K.written sink.new) }
    ensures cut { result ≢ Status.Ok → IsReplayCut plan.now (K.written sink.old) (K.written sink.new) }
    ensures kept { result ≢ Status.WriteFault → K.faults sink.new ≡ K.faults sink.old }
    ensures failed { result ≡ Status.WriteFault → Rose (K.faults sink.old) (K.faults sink.new) }
{
    match replay::<Running, K>(alloc, plan, sink) {
        Ok(()) => Status::Ok,
        Err(ReplayFault::NoMemory) => Status::NoMemory,
        Err(ReplayFault::Failed) => Status::WriteFault,
    }
}

/// Reads the input, a script of one or more clients, plays its lines over a new store on one thread, and writes the answer
/// of each command, each dump, and `end`.
///
/// `Ok` comes where all of this was done, `BadScript` where the input is no script, at its first wrong place, and `TooLarge`
/// where it passes a limit first; `ReadFault` and `WriteFault` where the source and the sink failed, and `NoMemory` for want
/// of memory.
///
/// The memory of what it played is left to the end of the process, as [`run`] says.
pub fn run_replay<S: Source, K: Sink>(alloc: Global, source: &mut S, sink: &mut K) -> Status
    ensures no_others { (result ≢ Status.Usage) × (result ≢ Status.Split) }
    ensures reported { result ≡ Status.Ok → IsReported Mode.Replay (S.left source.old) (S.left source.new) (K.written sink.old)
        (K.written sink.new) }
    ensures refused { result ≡ Status.BadScript → IsRefused (S.left source.old) (K.written sink.old) (K.written sink.new) Status.BadScript }
    ensures too_large { result ≡ Status.TooLarge → IsRefused (S.left source.old) (K.written sink.old) (K.written sink.new) Status.TooLarge }
    ensures read_fault { result ≡ Status.ReadFault
        → IsReadFault (Rose (S.faults source.old) (S.faults source.new)) (K.written sink.old) (K.written sink.new) }
    ensures write_fault { result ≡ Status.WriteFault → Rose (K.faults sink.old) (K.faults sink.new)
        × IsCut Mode.Replay (Rose (S.faults source.old) (S.faults source.new)) (S.left source.old) (K.written sink.old)
        (K.written sink.new) }
    ensures no_memory { result ≡ Status.NoMemory → IsStarved Mode.Replay (S.left source.old) (K.written sink.old) (K.written sink.new) }
    ensures taken { IsReadWithin 67108864 (S.left source.old) (S.left source.new) (S.calls source.old) (S.calls source.new) }
    ensures source_kept { result ≢ Status.ReadFault → result ≢ Status.WriteFault → S.faults source.new ≡ S.faults source.old }
    ensures sink_kept { result ≢ Status.WriteFault → K.faults sink.new ≡ K.faults sink.old }
{
    match read_plan(alloc, source) {
        Ok(plan) => {
            let status = play(alloc, &plan, sink);
            forget(plan);
            status
        }
        Err(InputFault::Failed) => close(sink, b"read fault\n", Status::ReadFault),
        Err(InputFault::Script(fault)) => refuse(alloc, fault, sink),
    }
}

/// Reads the input, a script, plays each client's lines one after another over a new store, the clients side by side on so
/// many threads and the lines of the whole store when all lines before them are done, and writes the report: between two such
/// lines the answers of each client in order, client by client; each dump; and `end`.
///
/// The statuses are those of [`run_replay`], and `Split` where what the workers kept of the race is not what its places kept:
/// then no report is written, but a line that names the actor and the step, or the place, where they differ.
///
/// The memory of what it played is left to the end of the process, as [`run`] says.
pub fn run_race<R: Threads + Wait + Sync, S: Source, K: Sink, G: Gate + Sync>(
    rt: &R,
    alloc: Global,
    workers: u32,
    source: &mut S,
    sink: &mut K,
    gate: &G,
) -> Status
    requires { (1 ≤ workers) × (workers ≤ 64) }
    ensures no_others { result ≢ Status.Usage }
    ensures reported { result ≡ Status.Ok
        → IsReported (Mode.Race workers) (S.left source.old) (S.left source.new) (K.written sink.old) (K.written sink.new) }
    ensures split { result ≡ Status.Split → IsSplitEnd (S.left source.old) (S.left source.new) (K.written sink.old) (K.written sink.new) }
    ensures refused { result ≡ Status.BadScript → IsRefused (S.left source.old) (K.written sink.old) (K.written sink.new) Status.BadScript }
    ensures too_large { result ≡ Status.TooLarge → IsRefused (S.left source.old) (K.written sink.old) (K.written sink.new) Status.TooLarge }
    ensures read_fault { result ≡ Status.ReadFault
        → IsReadFault (Rose (S.faults source.old) (S.faults source.new)) (K.written sink.old) (K.written sink.new) }
    ensures write_fault { result ≡ Status.WriteFault → Rose (K.faults sink.old) (K.faults sink.new)
        × IsCut (Mode.Race workers) (Rose (S.faults source.old) (S.faults source.new)) (S.left source.old) (K.written sink.old)
        (K.written sink.new) }
    ensures no_memory { result ≡ Status.NoMemory → IsStarved (Mode.Race workers) (S.left source.old) (K.written sink.old)
        (K.written sink.new) }
    ensures taken { IsReadWithin 67108864 (S.left source.old) (S.left source.new) (S.calls source.old) (S.calls source.new) }
    ensures source_kept { result ≢ Status.ReadFault → result ≢ Status.WriteFault → S.faults source.new ≡ S.faults source.old }
    ensures sink_kept { result ≢ Status.WriteFault → K.faults sink.new ≡ K.faults sink.old }
{
    match read_plan(alloc, source) {
        Ok(plan) => {
            let status = race_plan(rt, alloc, &plan, workers, sink, gate);
            forget(plan);
            status
        }
        Err(InputFault::Failed) => close(sink, b"read fault\n", Status::ReadFault),
        Err(InputFault::Script(fault)) => refuse(alloc, fault, sink),
    }
}

/// The program: the words of the command line, the input and the output. The words `replay` alone ask for [`run_replay`], and
/// `race --workers N`, N from 1 to 64 in decimal digits without a leading zero, for [`run_race`]. At any others nothing is
/// read, and the answer is `Usage` with a line that names the modes.
///
/// What is written is what the sink took: one that gathers, as `tect_edge::StdSink`, is to be flushed behind the call.
///
/// It is a whole program, to be called once: the memory of the plan, and of the store and its history, is left to the end of the
/// process, since to give it back piece by piece takes time and gains nothing there.
pub fn run<R: Threads + Wait + Sync, S: Source, K: Sink, G: Gate + Sync>(
    rt: &R,
    alloc: Global,
    words: &[String],
    source: &mut S,
    sink: &mut K,
    gate: &G,
) -> Status
    // 0: the whole input was read. It spells a plan, and what was written is the output of a history of that plan. In a replay
    // that is a run of the world that follows the script line by line, in a race one that follows it client by client; it is
    // sound at each moment, and each of its answers is the tree's at the command's point.
    ensures reported { result ≡ Status.Ok → InMode (map string_bytes words.now)
        (λ mode. IsReported mode (S.left source.old) (S.left source.new) (K.written sink.old) (K.written sink.new)) }

    // 2 comes exactly by the words, and then nothing is read.
    ensures usage { result ≡ Status.Usage → IsUsage (map string_bytes words.now) (K.written sink.old) (K.written sink.new) }
    ensures no_other { SpellsNone (map string_bytes words.now) → (result ≡ Status.Usage) ⊎ (result ≡ Status.WriteFault) }
    ensures unread { SpellsNone (map string_bytes words.now) → source.new ≡ source.old }

    // 3 and 8 come only for an input that spells no plan, with its first fault.
    ensures refused { result ≡ Status.BadScript → InMode (map string_bytes words.now)
        (λ _. IsRefused (S.left source.old) (K.written sink.old) (K.written sink.new) Status.BadScript) }
    ensures too_large { result ≡ Status.TooLarge → InMode (map string_bytes words.now)
        (λ _. IsRefused (S.left source.old) (K.written sink.old) (K.written sink.new) Status.TooLarge) }

    // 4 and 5 come only where a fault came, and then a line or a front of one, or of a report, was written.
    ensures read_fault { result ≡ Status.ReadFault → InMode (map string_bytes words.now)
        (λ _. IsReadFault (Rose (S.faults source.old) (S.faults source.new)) (K.written sink.old) (K.written sink.new)) }
    ensures write_fault { result ≡ Status.WriteFault → Rose (K.faults sink.old) (K.faults sink.new)
        × IsCutOff (map string_bytes words.now) (Rose (S.faults source.old) (S.faults source.new)) (S.left source.old) (K.written sink.old)
        (K.written sink.new) }

    // 6 leaves nothing, or a front of a report.
    ensures no_memory { result ≡ Status.NoMemory → InMode (map string_bytes words.now)
        (λ mode. IsStarved mode (S.left source.old) (K.written sink.old) (K.written sink.new)) }

    // 7 comes in a race alone, where two kept entries differ or two labels do, with the line that names them.
    ensures split { result ≡ Status.Split → (workers : ℕ) × SpellsRace (map string_bytes words.now) workers
        × IsSplitEnd (S.left source.old) (S.left source.new) (K.written sink.old) (K.written sink.new) }

    // No more than the limit and one byte is read, at least one byte a turn; other faults than these were not met.
    ensures taken { IsReadWithin 67108864 (S.left source.old) (S.left source.new) (S.calls source.old) (S.calls source.new) }
    ensures source_kept { result ≢ Status.ReadFault → result ≢ Status.WriteFault → S.faults source.new ≡ S.faults source.old }
    ensures sink_kept { result ≢ Status.WriteFault → K.faults sink.new ≡ K.faults sink.old }
{
    match read_mode(words) {
        Some(Mode::Replay) => run_replay(alloc, source, sink),
        Some(Mode::Race { workers }) => run_race(rt, alloc, workers, source, sink, gate),
        None => close(
            sink,
            b"usage: tect replay, race, make or judge\n",
            Status::Usage,
        ),
    }
}
