use entry_words::{Entry, Label};
use tect_ids::NoMemory;

/// Why a race came to no end.
#[derive(Debug, Drop)]
pub enum RaceFault {
    NoMemory,
    /// What the actor kept of its transaction of that number is not what the places kept of it.
    Split {
        actor: u32,
        step: u32,
        /// The entry that the actor's pass has at that step.
        in_pass: Option<Entry>,
        /// The first entry of the places that names that actor and step and is not `in_pass`; where there is none,
        /// `in_pass` if a place has it.
        in_place: Option<Entry>,
    },
    /// At a place another machine was found than the one that it was started with.
    Astray {
        want: Label,
        found: Label,
    },
}

impl From<NoMemory> for RaceFault {
    ghost use Rattle.std.specs.Prelude.{◌≡◌};
    ghost use Rattle.race_ends.specs.declared.fault.RaceFault.TheVariants as faults;

    ghost from_gives = { λ _ fault. fault ≡ faults.NoMemory };

    fn from(_no_memory: NoMemory) -> RaceFault {
        RaceFault::NoMemory
    }
}
