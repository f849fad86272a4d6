//! What the programs of commands owe: so that the history explains each of their answers, and so that each takes few
//! transactions. Nothing here is called: each function's contract is a record of laws, from which the laws of all runs follow whatever
//! the programs.
#![tactic(auto)]

ghost use Rattle.tect_ids.specs.declared.ids.Counts.{Counts};
ghost use Rattle.program_rules.specs.Served.{programs};
ghost use Rattle.names_laws.specs.Known.{names_deciding};
ghost use Rattle.telling_laws.specs.Telling.{TellingLaws};
ghost use Rattle.fall_laws.specs.Bounding.{FallLaws};
ghost use Rattle.names_told.specs.NamesTelling.{names_telling, names_bounding, reading_bounding};

/// Before a command's answer is decided, the history tells how its walk went and what it saw; where the answer is decided, the history
/// explains it, and it stays so.
pub fn names_tell()
    ensures { (counts : Counts) → TellingLaws counts programs names_deciding (names_telling counts) }
{}

/// Each transaction leaves one less than was left before it, beside what it adds, and a command begins with few. What it adds is told in two
/// ways: each reading of a block or a chunk adds itself; or a listing of blocks, and of a block's rows, adds what it lists.
pub fn names_fall()
    ensures asked { FallLaws programs names_bounding }
    ensures listed { FallLaws programs reading_bounding }
{}
