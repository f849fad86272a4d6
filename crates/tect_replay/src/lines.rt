ghost use Rattle.std.specs.Prelude.{ℕ, ◌≤◌, List, length, IfOk};
ghost use Rattle.world_lives.specs.Life.{present};
ghost use Rattle.replay_stories.specs.Plays.{CanDo, CanPlay, PlaysLine};
ghost use Rattle.tect_replay.specs.Shown.{shown_lines};

use crate::seat::Seat;
use players::{RacerFault, play};
use program_calls::Programs;
use std::alloc::Global;
use tect_ids::{Act, DumpLine, Line, Name, NoMemory, ReportLine};
use tect_world::World;

/// What a line of a script has to show.
#[derive(Drop)]
pub enum LineOutput {
    Nothing,
    Answer(ReportLine),
    Dump(Vec<DumpLine>),
}

/// Plays a client's line.
fn play_act<P: Programs + Drop>(
    alloc: Global,
    clients: &[Name],
    world: &mut World<P>,
    actor: u32,
    act: &Act,
) -> Result<LineOutput, NoMemory>
    requires actor { (1 ≤ actor) × (actor ≤ 64) × (actor ≤ length clients.now) }
    requires can { CanDo P.rules ((present P.rules world.old).actors actor) act.now }
    ensures { (name : List ℕ)
        → IfOk result
        (λ shown. PlaysLine P.rules clients.now (Line.Client name actor act.now) world.old world.new (shown_lines shown)) }
{
    // What is so of each world.
    let _running = world.is_running(actor);
    let mut seat = Seat { actor };
    match play(&mut seat, world, alloc, clients, act) {
        Ok(None) => Ok(LineOutput::Nothing),
        Ok(Some(line)) => Ok(LineOutput::Answer(line)),
        Err(RacerFault::NoMemory) => Err(NoMemory),
        // No request goes astray here.
        Err(RacerFault::Astray { .. }) => unreachable!(),
    }
}

/// Plays a line of a script.
pub fn play_line<P: Programs + Drop>(
    alloc: Global,
    clients: &[Name],
    world: &mut World<P>,
    line: &Line,
) -> Result<LineOutput, NoMemory>
    requires { CanPlay P.rules (length clients.now) world.old line.now }
    ensures { IfOk result (λ shown. PlaysLine P.rules clients.now line.now world.old world.new (shown_lines shown)) }
{
    match line {
        Line::Client { actor, act, .. } => play_act(alloc, clients, world, *actor, act),
        Line::Dump => Ok(LineOutput::Dump(world.dump()?)),
        // No line in turn is one of these.
        Line::Store(_) | Line::Sweep | Line::Lose(_) => unreachable!(),
    }
}
