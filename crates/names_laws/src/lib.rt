//! The commands on names keep the laws of programs. Nothing here is called: the function's contract is what they keep.
#![tactic(auto)]

ghost use Rattle.program_rules.specs.Served.{programs};
ghost use Rattle.program_laws.specs.Laws.{KindLaws, DecidedLaws, HoldLaws, ProgramLaws};
ghost use Rattle.names_laws.specs.Known.{names_deciding, names_known};

/// What a command on names knows keeps its requests safe, stays so while others act, and holds where it goes on, with its hold given up
/// where its answer is decided. A decided answer stays, and what it comes to was decided. While it has a hold that may still be bound,
/// only its own bind or swap decides its answer. Each command begins with what it has to know, and comes to no answer that a reply
/// was odd.
pub fn names_are_lawful()
    ensures laws { KindLaws (programs.kind) names_deciding names_known }
    ensures once { DecidedLaws (programs.kind) names_deciding names_known }
    ensures holds { HoldLaws (programs.kind) names_deciding names_known }
    ensures program { ProgramLaws programs names_deciding names_known }
{}
