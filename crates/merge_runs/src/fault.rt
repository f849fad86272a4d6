use entry_words::Entry;
use tect_ids::NoMemory;

/// Why there is no one history.
#[derive(Debug, Drop)]
pub enum GatherFault {
    NoMemory,
    /// The trails and the histories have not the same entries. At that step of that actor the pass has one entry, or none,
    /// and the places another one, or none.
    Split {
        actor: u32,
        step: u32,
        /// The entry that the actor's pass has at that step.
        in_pass: Option<Entry>,
        /// The first entry of the places that names that actor and step and is not `in_pass`; where there is none,
        /// `in_pass` if a history has it.
        in_place: Option<Entry>,
    },
}

impl From<NoMemory> for GatherFault {
    ghost use Rattle.std.specs.Prelude.{◌≡◌};
    ghost use Rattle.merge_runs.specs.declared.fault.GatherFault.TheVariants as faults;

    ghost from_gives = { λ _ fault. fault ≡ faults.NoMemory };

    fn from(_no_memory: NoMemory) -> GatherFault {
        GatherFault::NoMemory
    }
}
