use tect_ids::NoMemory;

/// Why a script was not replayed, or a report not written, to its end.
#[derive(Clone, Copy, Debug, PartialEq, Eq)]
pub enum ReplayFault {
    NoMemory,
    /// The sink failed.
    Failed,
}

impl From<NoMemory> for ReplayFault {
    ghost use Rattle.std.specs.Prelude.{◌≡◌};
    ghost use Rattle.tect_replay.specs.declared.fault.ReplayFault.TheVariants as faults;

    ghost from_gives = { λ _ fault. fault ≡ faults.NoMemory };

    fn from(_no_memory: NoMemory) -> ReplayFault {
        ReplayFault::NoMemory
    }
}
