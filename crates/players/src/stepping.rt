ghost use Rattle.std.specs.Prelude.{◌≡◌, IfOk, IfErr, OnOk, IsSome};
ghost use Rattle.players.specs.Players.{op_at, ComesToEnd, IsFault, StepsUpTo};

use crate::fault::RacerFault;
use crate::player::Player;
use program_calls::{Programs, Turned};
use tect_ids::Answer;

/// At most that many transactions of the player's command.
pub fn step_up_to<P: Programs, L: Player<P, At>, At>(
    player: &mut L,
    at: &mut At,
    count: u32,
) -> Result<Option<Answer>, RacerFault>
    requires fits { L.fits player.old at.old }
    requires running { IsSome (L.state player.old at.old).running }
    ensures steps { IfOk result
        (StepsUpTo (L.grows player.old at.old player.new at.new) (op_at (L.actor player.old) (L.state player.old at.old)) count) }
    ensures fits { OnOk result (L.fits player.new at.new) }
    ensures counts { L.counts at.new ≡ L.counts at.old }
    ensures fault { IfErr result (IsFault L.astray (L.counts at.old)) }
{
    player.note_laws();
    'steps: for _step in 0..count {
        match player.step(at)? {
            Turned::Going => {}
            Turned::Done(answer) => return Ok(Some(answer)),
        }
    }
    Ok(None)
}

/// The player's command to its end.
pub fn run_to_end<P: Programs, L: Player<P, At>, At>(
    player: &mut L,
    at: &mut At,
) -> Result<Answer, RacerFault>
    requires fits { L.fits player.old at.old }
    requires running { IsSome (L.state player.old at.old).running }
    ensures end { IfOk result
        (ComesToEnd (L.grows player.old at.old player.new at.new) (op_at (L.actor player.old) (L.state player.old at.old))) }
    ensures fits { OnOk result (L.fits player.new at.new) }
    ensures counts { L.counts at.new ≡ L.counts at.old }
    ensures fault { IfErr result (IsFault L.astray (L.counts at.old)) }
{
    player.note_laws();
    'steps: loop {
        match player.step(at)? {
            Turned::Going => {}
            Turned::Done(answer) => return Ok(answer),
        }
    }
}
