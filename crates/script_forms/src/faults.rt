use script_words::Limit;
use tect_ids::NoMemory;

/// Why a script was not read.
#[derive(Clone, Copy, Debug, PartialEq, Eq)]
pub enum ScriptFault {
    NoMemory,
    /// The first wrong place: the column of the first byte of a word, or behind the line where a word or the line feed is
    /// missing. Both count from 1.
    Bad { line: u32, column: u32 },
    /// The script passes that limit first.
    TooLarge { what: Limit, limit: u64 },
}

impl From<NoMemory> for ScriptFault {
    ghost use Rattle.std.specs.Prelude.{◌≡◌};
    ghost use Rattle.script_forms.specs.declared.faults.ScriptFault.TheVariants as script_faults;

    ghost from_gives = { λ _ fault. fault ≡ script_faults.NoMemory };

    fn from(_no_memory: NoMemory) -> ScriptFault {
        ScriptFault::NoMemory
    }
}
