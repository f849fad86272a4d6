use crate::racer::Racer;
use passes::{Astray, Commits};
use players::{Player, RacerFault};
use program_calls::{Programs, Turned};
use tect_ids::{Command, NoMemory};

/// Its client plays, wherever its requests are committed; the lines of its answers are its caller's to keep.
impl<P: Programs + Drop, C: Commits> Player<P, C> for Racer<P> {
    ghost use Rattle.std.specs.Prelude.{◌≡◌};
    ghost use Rattle.clients.specs.Lives.{events_in, state_in, left_in, IsLife};
    ghost use Rattle.racers.specs.Growing.{RacerGrew};
    ghost use Rattle.racers.specs.Steps.{FoundAstray};

    ghost counts = { C.counts };

    ghost fits = { λ r w. IsLife P.rules r.client × (C.counts w ≡ r.client.counts) };

    ghost actor = { λ r. r.client.actor };

    ghost history = { λ r w. events_in r.client };

    ghost state = { λ r w. state_in P.rules r.client };

    ghost grows = { RacerGrew P.rules C.counts };

    ghost left = { λ r w. left_in r.client };

    ghost astray = { FoundAstray C.counts C.done };

    fn note_laws(&self) {}

    fn actor(&self) -> u32 {
        self.client.actor()
    }

    fn is_running(&self, _at: &C) -> bool {
        self.client.is_running()
    }

    fn number(&self, _at: &C) -> u32 {
        self.client.op().number
    }

    fn transactions(&self, _at: &C) -> u32 {
        self.client.transactions() as u32
    }

    fn begin(&mut self, _at: &mut C, command: Command) -> Result<(), NoMemory> {
        self.client.begin(command)
    }

    fn step(&mut self, at: &mut C) -> Result<Turned, RacerFault> {
        match self.client.step(at) {
            Ok(turned) => Ok(turned),
            Err(Astray { want, found }) => Err(RacerFault::Astray { want, found }),
        }
    }

    fn stop(&mut self, _at: &mut C) {
        self.client.stop();
    }
}
