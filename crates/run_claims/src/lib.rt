//! What is claimed of every history that a program shows: that it is a run of the world within its limits, and what follows
//! from that, as how few transactions each command takes; and laws of every run of the world with the commands' own programs: each moment
//! is sound, each hold that was granted is listed until it is bound or given up, no command answers that a reply was odd, each running
//! command goes on, and the numbers of actors stay small. Nothing here is called: each function's contract is a law.
#![tactic(auto)]

ghost use Rattle.std.specs.Prelude.{◌≡◌, Some, None, List};
ghost use Rattle.tect_ids.specs.declared.ids.Counts.{Counts};
ghost use Rattle.tect_ids.specs.declared.ids.OpId.{OpId};
ghost use Rattle.tect_ids.specs.declared.command.Command.{Command};
ghost use Rattle.program_rules.specs.Served.{programs};
ghost use Rattle.world_runs.specs.declared.event.Event.{Event};
ghost use Rattle.world_runs.specs.Moments.{IsWorldRun};
ghost use Rattle.claim_words.specs.Headline.{command_of};
ghost use Rattle.world_runs.specs.Report.{transactions};
ghost use Rattle.run_laws.specs.Laws.{EveryMomentIsSound, EveryGrantedHoldIsListed, NoRunAnswersOdd, NumbersStaySmall};
ghost use Rattle.run_laws.specs.Laws.{RunningGoesOn, RunningIsLastBegun};
ghost use Rattle.run_claims.specs.Bounds.{IsShort};
ghost use Rattle.run_claims.specs.Claims.{EveryRunIsClaimed};

/// Of every run of the world that keeps the limits of its actors' histories all of it holds: the store is sound at each moment,
/// lists each hold that was granted and neither bound nor given up, and shows the small machine's tree; each block that was attached is
/// whole in all copies, and was attached to the file that its op's actor had opened at its path, with its file's last token, which is an
/// open; each answer is the one that the tree gives at the command's point, none says that a reply was odd, each command takes few
/// transactions, and one that met nothing that refused it has succeeded.
pub fn every_run_is_claimed()
    ensures { EveryRunIsClaimed }
{}

/// In every run of the world each command looks at no more names than its first path has, or once at the root where the
/// path has none, and takes few other transactions, in whatever order the actors' transactions come: an open or a listing of blocks one,
/// an append four and one for each copy, a read one and one for each block and each placed row that it is shown, and others at most four.
/// An op that began no command has no transaction.
pub fn each_command_is_short()
    ensures short { (counts : Counts) (history : List Event) → IsWorldRun programs counts history
        → (op : OpId) (c : Command) → command_of history op ≡ Some c → IsShort counts history op c }
    ensures idle { (counts : Counts) (history : List Event) → IsWorldRun programs counts history
        → (op : OpId) → command_of history op ≡ None → transactions history op ≡ 0 }
{}

/// At every moment of every run the store is sound.
pub fn every_moment_is_sound()
    ensures { EveryMomentIsSound programs }
{}

/// At every moment of every run a hold that was granted, and neither bound nor given up, is bound nowhere, and its object lists it with
/// its key, unless the key's directory stands no more.
pub fn every_granted_hold_is_listed()
    ensures { EveryGrantedHoldIsListed programs }
{}

/// No command of a run comes to the answer that a reply was odd.
pub fn no_run_answers_odd()
    ensures { NoRunAnswersOdd programs }
{}

/// A command that runs, and heard its last reply, has a next request or its answer.
pub fn running_goes_on()
    ensures { RunningGoesOn programs }
{}

/// An actor makes at most one object for each command that it begins, and begins fewer than 2^31 commands.
pub fn numbers_stay_small()
    ensures { NumbersStaySmall programs }
{}

/// The command that an actor runs is the last that it began, and actors are numbered from 1 to 65.
pub fn running_is_last_begun()
    ensures { RunningIsLastBegun programs }
{}
