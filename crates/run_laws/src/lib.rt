//! Laws of every run of any programs that keep the laws of programs: every moment is sound, no answer says that a reply was odd, what a
//! running command knows is so, each hold that was granted is listed until it is bound or given up, and the numbers of actors stay small.
//! They are lemmas over the programs and what their commands know; where programs are given, a law's contract says it of them. Nothing
//! here is called: this contract is the one law that no programs have to earn.
#![tactic(auto)]

ghost use Rattle.program_forms.specs.Kinds.{Programs};
ghost use Rattle.run_laws.specs.Laws.{RunningGoesOn};

/// A command that runs, and heard its last reply, has a next request or its answer.
pub fn running_goes_on<S>()
    ensures { (P : Programs S) → RunningGoesOn P }
{}
