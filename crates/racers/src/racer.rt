ghost use Rattle.std.specs.Prelude.{◌≡◌, ◌+◌, ◌<◌, ◌≤◌, ◌^◌, ◌++◌, [], ◌∷◌, IfErr, OnOk, length};
ghost use Rattle.whole_runs.specs.ClientStates.{ClientState, TakesAct};
ghost use Rattle.whole_runs.specs.Standing.{IsInState};
ghost use Rattle.clients.specs.Lives.{state_in};
ghost use Rattle.racers.specs.Lines.{Plays, IsFaultOf};
ghost use Rattle.players.specs.Players.{told_lines};

use clients::Client;
use passes::Commits;
use players::{RacerFault, play};
use program_calls::Programs;
use std::alloc::Global;
use tect_ids::{Act, Name, NoMemory, ReportLine};

/// A client of a race, and the lines of its answers.
#[derive(Drop)]
pub struct Racer<P: Programs> {
    pub client: Client<P>,
    pub answers: Vec<ReportLine>,
}

/// Adds the line that was told, if there is one.
fn tell<P: Programs>(racer: &mut Racer<P>, told: Option<ReportLine>) -> Result<(), NoMemory>
    ensures client { racer.new.client ≡ racer.old.client }
    ensures told { OnOk result (racer.new.answers.items ≡ racer.old.answers.items ++ told_lines told) }
{
    if let Some(line) = told {
        racer.answers.push(line)?;
    }
    Ok(())
}

/// Does what the line of a client asks: begins a command, does transactions of it, or stops for good. Where its command has
/// ended, `step`, `run` and `stop` do nothing. Each answer adds its line to the racer's.
///
/// `NoMemory` comes for want of memory to begin a command or to keep a line, and `Astray` where a commit found another machine
/// than the one that was looked for. Nothing is told of the racer then.
pub fn play_act<P: Programs + Drop, C: Commits>(
    at: &mut C,
    alloc: Global,
    names: &[Name],
    racer: &mut Racer<P>,
    act: &Act,
) -> Result<(), RacerFault>
    requires counts { racer.old.client.counts ≡ C.counts at.old }
    requires client { (1 ≤ racer.old.client.actor) × (racer.old.client.actor ≤ length names.now) }
    requires few { (state_in P.rules racer.old.client).number + 1 < 2 ^ 31 }
    requires takes { (turn : ClientState) × IsInState turn (state_in P.rules racer.old.client) × TakesAct P.rules turn act.now }
    ensures plays { OnOk result (Plays P.rules names.now act.now racer.old racer.new) }
    ensures fault { IfErr result (IsFaultOf C.counts C.done (C.counts at.old)) }
    ensures counts { C.counts at.new ≡ C.counts at.old }
{
    // What is so of each client.
    let _op = racer.client.op();
    let told = play(racer, at, alloc, names, act)?;
    tell(racer, told)?;
    Ok(())
}
