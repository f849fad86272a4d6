ghost use Rattle.std.specs.Prelude.{◌≡◌};

use crate::places::Places;
use entry_words::Refused;
use passes::{Commits, Pass};
use std::sync::Wait;
use store_rules::AnyReply;
use tect_calls::Asked;
use tect_edge::Gate;

/// Places behind locks, as one worker commits there.
#[derive(Drop)]
pub struct Locked<'a, R: Wait, G: Gate> {
    pub rt: &'a R,
    pub places: &'a Places,
    pub worker: u32,
    pub gate: &'a G,
}

impl<R: Wait, G: Gate> Commits for Locked<'_, R, G> {
    ghost use Rattle.std.specs.Prelude.{IfErr};
    ghost use Rattle.store_rules.specs.Places.{request_place};
    ghost use Rattle.place_locks.specs.Commits.{IsRefusalFor};
    ghost use Rattle.entry_words.specs.Labels.{label_at};

    ghost counts = { λ at. at.places.now };

    ghost done = { λ old new clock asked result. IfErr result
        (IsRefusalFor (label_at old.places.now (request_place old.places.now asked).0)) };

    fn commit(&mut self, pass: &mut Pass, asked: Asked) -> Result<AnyReply, Refused> {
        self.places
            .commit(self.rt, pass, asked, self.worker, self.gate)
    }
}
