use entry_words::Label;
use passes::Astray;
use tect_ids::NoMemory;

/// Why a client did not do its line.
#[derive(Clone, Copy, Debug, PartialEq, Eq)]
pub enum RacerFault {
    NoMemory,
    /// A request found another machine than the one that was looked for.
    Astray { want: Label, found: Label },
}

impl From<NoMemory> for RacerFault {
    ghost use Rattle.std.specs.Prelude.{◌≡◌};
    ghost use Rattle.players.specs.declared.fault.RacerFault.TheVariants as faults;

    ghost from_gives = { λ _ fault. fault ≡ faults.NoMemory };

    fn from(_no_memory: NoMemory) -> RacerFault {
        RacerFault::NoMemory
    }
}

impl From<Astray> for RacerFault {
    ghost use Rattle.std.specs.Prelude.{◌≡◌};
    ghost use Rattle.players.specs.declared.fault.RacerFault.TheVariants as faults;

    ghost from_gives = { λ astray fault. fault ≡ faults.Astray astray.want astray.found };

    fn from(astray: Astray) -> RacerFault {
        RacerFault::Astray {
            want: astray.want,
            found: astray.found,
        }
    }
}
