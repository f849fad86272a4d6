ghost use Rattle.std.specs.Prelude.{◌≡◌, ℕ, ◌+◌, ◌<◌, ◌≤◌, ◌^◌, List, None, Some, true, false, IsNone, IfOk, IfErr, OnOk, length};
ghost use Rattle.world_runs.specs.Report.{answer_line as line_of};
ghost use Rattle.whole_runs.specs.ClientStates.{ClientState, TakesAct};
ghost use Rattle.whole_runs.specs.Standing.{IsInState};
ghost use Rattle.players.specs.Players.{op_at, next_at, HasBegun, IsFault, Played};

use crate::fault::RacerFault;
use crate::player::Player;
use crate::stepping::{run_to_end, step_up_to};
use program_calls::Programs;
use std::alloc::Global;
use tect_ids::{Act, Answer, Command, Name, NoMemory, ReportLine};

/// The line of the player's last command, which came to this answer.
fn answer_line<P: Programs, L: Player<P, At>, At>(
    player: &L,
    at: &At,
    alloc: Global,
    names: &[Name],
    answer: Answer,
) -> Result<ReportLine, NoMemory>
    requires fits { L.fits player.now at.now }
    requires client { (1 ≤ L.actor player.now) × (L.actor player.now ≤ length names.now) }
    ensures { IfOk result
        (λ line. line ≡ line_of names.now (L.history player.now at.now) (op_at (L.actor player.now) (L.state player.now at.now)) answer) }
{
    Ok(ReportLine::Client {
        client: names[player.actor() as usize - 1].clone()?,
        op: player.number(at),
        steps: player.transactions(at),
        answer,
    })
}

#[tactic(auto, using(entry_words::proofs::WordClones::same_command))]
fn begin_command<P: Programs, L: Player<P, At>, At>(
    player: &mut L,
    at: &mut At,
    command: &Command,
) -> Result<(), NoMemory>
    requires fits { L.fits player.old at.old }
    requires idle { IsNone (L.state player.old at.old).running }
    requires goes_on { (L.state player.old at.old).stopped ≡ false }
    requires few { (L.state player.old at.old).number + 1 < 2 ^ 31 }
    requires served { P.rules.serves command.now ≡ true }
    ensures begins { OnOk result
        (HasBegun (L.grows player.old at.old player.new at.new) (next_at (L.actor player.old) (L.state player.old at.old)) command.now) }
    ensures fits { OnOk result (L.fits player.new at.new) }
    ensures counts { L.counts at.new ≡ L.counts at.old }
{
    player.begin(at, command.clone()?)
}

fn do_command<P: Programs, L: Player<P, At>, At>(
    player: &mut L,
    at: &mut At,
    alloc: Global,
    names: &[Name],
    command: &Command,
) -> Result<ReportLine, RacerFault>
    requires fits { L.fits player.old at.old }
    requires client { (1 ≤ L.actor player.old) × (L.actor player.old ≤ length names.now) }
    requires idle { IsNone (L.state player.old at.old).running }
    requires goes_on { (L.state player.old at.old).stopped ≡ false }
    requires few { (L.state player.old at.old).number + 1 < 2 ^ 31 }
    requires served { P.rules.serves command.now ≡ true }
    ensures plays { IfOk result
        (λ line. Played L.actor L.history L.state L.grows names.now (Act.Do command.now) player.old at.old player.new at.new
        (Some line)) }
    ensures fits { OnOk result (L.fits player.new at.new) }
    ensures counts { L.counts at.new ≡ L.counts at.old }
    ensures fault { IfErr result (IsFault L.astray (L.counts at.old)) }
{
    player.note_laws();
    begin_command(player, at, command)?;
    let answer = run_to_end(player, at)?;
    Ok(answer_line(player, at, alloc, names, answer)?)
}

fn begin<P: Programs, L: Player<P, At>, At>(
    player: &mut L,
    at: &mut At,
    command: &Command,
) -> Result<(), NoMemory>
    requires fits { L.fits player.old at.old }
    requires idle { IsNone (L.state player.old at.old).running }
    requires goes_on { (L.state player.old at.old).stopped ≡ false }
    requires few { (L.state player.old at.old).number + 1 < 2 ^ 31 }
    requires served { P.rules.serves command.now ≡ true }
    ensures plays { (names : List (List ℕ))
        → OnOk result
        (Played L.actor L.history L.state L.grows names (Act.Begin command.now) player.old at.old player.new at.new None) }
    ensures fits { OnOk result (L.fits player.new at.new) }
    ensures counts { L.counts at.new ≡ L.counts at.old }
{
    player.note_laws();
    begin_command(player, at, command)
}

fn step_on<P: Programs, L: Player<P, At>, At>(
    player: &mut L,
    at: &mut At,
    alloc: Global,
    names: &[Name],
    count: u32,
) -> Result<Option<ReportLine>, RacerFault>
    requires fits { L.fits player.old at.old }
    requires client { (1 ≤ L.actor player.old) × (L.actor player.old ≤ length names.now) }
    requires goes_on { (L.state player.old at.old).stopped ≡ false }
    ensures plays { IfOk result
        (Played L.actor L.history L.state L.grows names.now (Act.Step count) player.old at.old player.new at.new) }
    ensures fits { OnOk result (L.fits player.new at.new) }
    ensures counts { L.counts at.new ≡ L.counts at.old }
    ensures fault { IfErr result (IsFault L.astray (L.counts at.old)) }
{
    player.note_laws();
    if !player.is_running(at) {
        return Ok(None);
    }
    match step_up_to(player, at, count)? {
        None => Ok(None),
        Some(answer) => Ok(Some(answer_line(player, at, alloc, names, answer)?)),
    }
}

fn run_on<P: Programs, L: Player<P, At>, At>(
    player: &mut L,
    at: &mut At,
    alloc: Global,
    names: &[Name],
) -> Result<Option<ReportLine>, RacerFault>
    requires fits { L.fits player.old at.old }
    requires client { (1 ≤ L.actor player.old) × (L.actor player.old ≤ length names.now) }
    requires goes_on { (L.state player.old at.old).stopped ≡ false }
    ensures plays { IfOk result (Played L.actor L.history L.state L.grows names.now Act.Run player.old at.old player.new at.new) }
    ensures fits { OnOk result (L.fits player.new at.new) }
    ensures counts { L.counts at.new ≡ L.counts at.old }
    ensures fault { IfErr result (IsFault L.astray (L.counts at.old)) }
{
    player.note_laws();
    if !player.is_running(at) {
        return Ok(None);
    }
    let answer = run_to_end(player, at)?;
    Ok(Some(answer_line(player, at, alloc, names, answer)?))
}

fn stop<P: Programs, L: Player<P, At>, At>(
    player: &mut L,
    at: &mut At,
    alloc: Global,
    names: &[Name],
) -> Result<Option<ReportLine>, NoMemory>
    requires fits { L.fits player.old at.old }
    requires client { (1 ≤ L.actor player.old) × (L.actor player.old ≤ length names.now) }
    ensures plays { IfOk result (Played L.actor L.history L.state L.grows names.now Act.Stop player.old at.old player.new at.new) }
    ensures fits { OnOk result (L.fits player.new at.new) }
    ensures counts { L.counts at.new ≡ L.counts at.old }
{
    player.note_laws();
    if !player.is_running(at) {
        return Ok(None);
    }
    player.stop(at);
    Ok(Some(answer_line(player, at, alloc, names, Answer::Stopped)?))
}

/// Does what the line of a client asks: begins a command, does transactions of it, or stops for good. Where its command has
/// ended, `step`, `run` and `stop` do nothing. The line of the answer is told, if there is one.
///
/// `NoMemory` comes for want of memory, and `Astray` where a commit found another machine than the one that was looked for.
/// Nothing is told of the player then.
pub fn play<P: Programs, L: Player<P, At>, At>(
    player: &mut L,
    at: &mut At,
    alloc: Global,
    names: &[Name],
    act: &Act,
) -> Result<Option<ReportLine>, RacerFault>
    requires fits { L.fits player.old at.old }
    requires client { (1 ≤ L.actor player.old) × (L.actor player.old ≤ length names.now) }
    requires few { (L.state player.old at.old).number + 1 < 2 ^ 31 }
    requires takes { (turn : ClientState) × IsInState turn (L.state player.old at.old) × TakesAct P.rules turn act.now }
    ensures plays { IfOk result (Played L.actor L.history L.state L.grows names.now act.now player.old at.old player.new at.new) }
    ensures fits { OnOk result (L.fits player.new at.new) }
    ensures counts { L.counts at.new ≡ L.counts at.old }
    ensures fault { IfErr result (IsFault L.astray (L.counts at.old)) }
{
    match act {
        Act::Do(command) => Ok(Some(do_command(player, at, alloc, names, command)?)),
        Act::Begin(command) => {
            begin(player, at, command)?;
            Ok(None)
        }
        Act::Step(count) => step_on(player, at, alloc, names, *count),
        Act::Run => run_on(player, at, alloc, names),
        Act::Stop => Ok(stop(player, at, alloc, names)?),
    }
}
