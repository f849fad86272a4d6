//! Laws of what scripts can come to: a script in turn can be run on from any moment at which it stands, and a session of one
//! client prints what the tree alone gives. Nothing here is called: each function's contract is a law.
#![tactic(auto)]

ghost use Rattle.std.specs.Prelude.{◌≡◌, ◌<◌, ◌^◌, ℕ, List, length, true};
ghost use Rattle.std.specs.List.{AllByRecursion};
ghost use Rattle.tect_ids.specs.declared.command.Command.{Command};
ghost use Rattle.program_rules.specs.Served.{is_served, programs};
ghost use Rattle.world_runs.specs.Follows.{Follows, AllFindMemory};
ghost use Rattle.world_runs.specs.Report.{report};
ghost use Rattle.session_runs.specs.Session.{IsPlayed, session_lines, session_script};
ghost use Rattle.session_runs.specs.Well.{NoneFails};
ghost use Rattle.tect_ids.specs.declared.ids.Counts.{Counts};
ghost use Rattle.tree_model.specs.Tree.{opening_tree};
ghost use Rattle.world_runs.specs.declared.event.Event.{Event};
ghost use Rattle.world_runs.specs.Moments.{IsWorldRun};
ghost use Rattle.session_runs.specs.RunningOn.{EachScriptCanBeRunOn};

/// A run of the world that follows the front of a script in turn can go on to follow the whole script, and on the way no command
/// fails or is refused, no memory is wanting, and each command ends at once when it has come to its answer. That is so of a run
/// after which each running command has heard its last reply: one that has not fails next. So each script in turn can be run.
pub fn each_script_can_be_run_on()
    ensures { EachScriptCanBeRunOn }
{}

/// A run of the world that follows a script of one client, whose commands are done one after another, is reported by the
/// very lines that the tree alone gives, where no command fails for want of memory or is refused for want of room.
pub fn report_is_session()
    ensures { (counts : Counts) (clients : List (List ℕ)) (client : List ℕ) (commands : List Command) (history : List Event)
        → AllByRecursion IsPlayed commands → IsWorldRun programs counts history → NoneFails history
        → Follows (session_script client commands) history
        → report clients history ≡ session_lines clients opening_tree 1 0 commands }
{}

/// Each script of one client, whose commands are served and done one after another, is followed by some run of the world in
/// which none fails or is refused, and no memory is wanting.
pub fn each_session_can_be_run()
    ensures { (counts : Counts) (client : List ℕ) (commands : List Command) → AllByRecursion (λ c. is_served c ≡ true) commands
        → length commands < 2 ^ 31
        → (history : List Event) × IsWorldRun programs counts history × NoneFails history × AllFindMemory history
        × Follows (session_script client commands) history }
{}
