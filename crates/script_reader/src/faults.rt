use script_words::Limit;
use std::alloc::AllocError;
use tect_ids::NoMemory;

/// Why a line was not read.
#[derive(Clone, Copy, Debug, PartialEq, Eq)]
pub enum LineFault {
    NoMemory,
    /// The first wrong word begins so many bytes before the line's end; none where a word is missing.
    Wrong { left: usize },
    /// A word passes that limit.
    Large(Limit),
}

impl From<NoMemory> for LineFault {
    ghost use Rattle.std.specs.Prelude.{◌≡◌};
    ghost use Rattle.script_reader.specs.declared.faults.LineFault.TheVariants as faults;

    ghost from_gives = { λ _ fault. fault ≡ faults.NoMemory };

    fn from(_no_memory: NoMemory) -> LineFault {
        LineFault::NoMemory
    }
}

impl From<AllocError> for LineFault {
    ghost use Rattle.std.specs.Prelude.{◌≡◌};
    ghost use Rattle.script_reader.specs.declared.faults.LineFault.TheVariants as faults;

    ghost from_gives = { λ _ fault. fault ≡ faults.NoMemory };

    fn from(_error: AllocError) -> LineFault {
        LineFault::NoMemory
    }
}
