//! Laws of scripts and runs of the world: how a run follows a script on, that each script in turn can be brought to its end
//! without a further transaction, and what a script fixes of its runs. They tell of the events alone, and not of what the store
//! keeps, whatever the programs, over any states S. Nothing here is called: each function's contract is a law.
#![tactic(auto)]

ghost use Rattle.program_forms.specs.Kinds.{Programs};
ghost use Rattle.script_runs.specs.Laws.{RunFollowsOn, StandsByState, EachScriptCanBeRunOut, EachCutLineCanBeRunOut, ScriptFixesRun};
ghost use Rattle.script_runs.specs.Laws.{ScriptFixesRunWithoutLooks, ScriptWithoutStepsFixesRun};

/// Where a run of the world follows some lines, and what comes after follows further lines from the ops that are then busy,
/// the whole follows all lines.
pub fn run_follows_on<S>()
    ensures { (P : Programs S) → RunFollowsOn P }
{}

/// Where a run of the world follows a script in turn, each actor stands as its client's state tells: an idle one has no running
/// command and may go on, a busy one may go on, and one that is gone has no running command. None began more commands than the
/// script has lines.
pub fn stands_by_state<S>()
    ensures { (P : Programs S) → StandsByState P }
{}

/// A run of the world that follows the front of a script in turn can be brought to the end of the whole script without a
/// further transaction: each command that is still to end fails for want of memory or ends with the answer that it has, and
/// each that is still to begin is refused or not, as a test of what happened so far says. So a report that was cut off is the
/// front of a whole one.
pub fn each_script_can_be_run_out<S>()
    ensures { (P : Programs S) → EachScriptCanBeRunOut P }
{}

/// The same of a run that stopped within a line of the script.
pub fn each_cut_line_can_be_run_out<S>()
    ensures { (P : Programs S) → EachCutLineCanBeRunOut P }
{}

/// Two runs of the world that follow one script are the same, where no memory is wanting in either, both keep the limits of their
/// actors' own histories, each command ends at once when its last reply gave its answer, and each step of the script is of one
/// transaction or more. A script fixes the rest: whose transactions come when, all replies and answers, and what is refused or
/// ends for want of room. An answer that a look-up gives behind the last transaction of a step must not count as that step's:
/// so both follow the script in time, or the programs come to no answer by a look-up. Where the script has no steps, commands
/// need not end at once.
pub fn script_fixes_run<S>()
    ensures smooth { (P : Programs S) → ScriptFixesRun P }
    ensures without_looks { (P : Programs S) → ScriptFixesRunWithoutLooks P }
    ensures no_steps { (P : Programs S) → ScriptWithoutStepsFixesRun P }
{}
