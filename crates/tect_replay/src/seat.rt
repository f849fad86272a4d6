ghost use Rattle.std.specs.Prelude.{◌≤◌};

use players::{Player, RacerFault};
use program_calls::Programs;
use tect_ids::{Command, NoMemory};
use tect_world::{Turned, World};

/// One actor of the world, which plays a client's lines there.
#[derive(Drop)]
pub struct Seat {
    pub actor: u32,
}

impl<P: Programs + Drop> Player<P, World<P>> for Seat {
    ghost use Rattle.world_lives.specs.Life.{present, room_at};
    ghost use Rattle.replay_stories.specs.Plays.{IsKeptRun};
    ghost use Rattle.tect_replay.specs.Seats.{SeatGrew};

    ghost counts = { λ w. w.counts };

    ghost fits = { λ s w. (1 ≤ s.actor) × (s.actor ≤ 64) × IsKeptRun P.rules w };

    ghost actor = { λ s. s.actor };

    ghost history = { λ s w. w.history };

    ghost state = { λ s w. (present P.rules w).actors s.actor };

    ghost grows = { SeatGrew P.rules };

    ghost left = { λ s w. room_at w s.actor };

    ghost astray = { λ counts want found. ⊥ };

    fn note_laws(&self) {}

    fn actor(&self) -> u32 {
        self.actor
    }

    fn is_running(&self, at: &World<P>) -> bool {
        at.is_running(self.actor)
    }

    fn number(&self, at: &World<P>) -> u32 {
        at.last_op(self.actor).number
    }

    fn transactions(&self, at: &World<P>) -> u32 {
        at.transactions(self.actor) as u32
    }

    fn begin(&mut self, at: &mut World<P>, command: Command) -> Result<(), NoMemory> {
        at.begin(self.actor, command)
    }

    fn step(&mut self, at: &mut World<P>) -> Result<Turned, RacerFault> {
        match at.step(self.actor) {
            Ok(turned) => Ok(turned),
            Err(NoMemory) => Err(RacerFault::NoMemory),
        }
    }

    fn stop(&mut self, at: &mut World<P>) {
        at.stop(self.actor);
    }
}
