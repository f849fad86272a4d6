ghost use Rattle.std.specs.Prelude.{◌≡◌, IsErrOf, OnOk, OnErr};
ghost use Rattle.tect_edge.specs.Counts.{Rose};
ghost use Rattle.whole_runs.specs.Playable.{IsPlayable};
ghost use Rattle.replay_stories.specs.Replays.{IsReplayed as Replayed, IsCutReplay};

use crate::fault::ReplayFault;
use crate::lines::play_line;
use crate::writing::{write_piece, write_shown};
use program_calls::Programs;
use std::alloc::Global;
use std::mem::forget;
use tect_edge::Sink;
use tect_ids::Plan;
use tect_world::World;

/// Plays the lines of a plan's script over a new world, by the programs `P`, and writes the report: the line of each answer,
/// of each command that is stopped or finds no memory, and the lines of each dump, and then `end`; each line by one piece.
///
/// `NoMemory` comes for want of memory, and `Failed` where the sink failed. What was written is then a front of a report.
///
/// A world whose script was played to its end is not taken apart: its memory is left to the end of the process.
pub fn replay<P: Programs + Drop, K: Sink>(
    alloc: Global,
    plan: &Plan,
    sink: &mut K,
) -> Result<(), ReplayFault>
    requires { IsPlayable P.rules plan.now }
    ensures whole { OnOk result (Replayed P.rules plan.now (K.written sink.old) (K.written sink.new)) }
    ensures cut { OnErr result (IsCutReplay P.rules plan.now (K.written sink.old) (K.written sink.new)) }
    ensures kept { ¬ IsErrOf result ReplayFault.Failed → K.faults sink.new ≡ K.faults sink.old }
    ensures failed { IsErrOf result ReplayFault.Failed → Rose (K.faults sink.old) (K.faults sink.new) }
{
    let mut world: World<P> = World::start(alloc, plan.counts)?;
    let mut buffer = Vec::new(alloc);
    let lines = plan.lines.as_slice();
    'lines: for line in lines {
        let shown = play_line(alloc, plan.clients.as_slice(), &mut world, line)?;
        write_shown(&shown, &mut buffer, sink)?;
    }
    forget(world);
    write_piece(sink, b"end\n")
}
