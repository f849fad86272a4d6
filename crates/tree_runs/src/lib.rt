//! What the tree has to do with the runs of the world: the store shows the tree after each step, and each answer is the one
//! that the tree gives at the command's point. Nothing here is called: each function's contract is a law.
#![tactic(auto)]

ghost use Rattle.std.specs.Prelude.{ℕ, List};
ghost use Rattle.claim_words.specs.Commands.{content_in};
ghost use Rattle.claim_words.specs.Headline.{Headline};
ghost use Rattle.store_rules.specs.Store.{Store};
ghost use Rattle.store_rules.specs.declared.any.AnyReq.{AnyReq};
ghost use Rattle.tect_ids.specs.declared.ids.BlkId.{BlkId};
ghost use Rattle.tect_ids.specs.declared.ids.Counts.{Counts};
ghost use Rattle.tect_ids.specs.declared.ids.OpId.{OpId};
ghost use Rattle.tree_model.specs.Tree.{opening_tree};
ghost use Rattle.program_rules.specs.Served.{programs};
ghost use Rattle.world_runs.specs.declared.event.Event.{Event};
ghost use Rattle.world_runs.specs.Moments.{IsWorldRun, moment};
ghost use Rattle.tree_runs.specs.Safe.{RunsAskSafely};
ghost use Rattle.claim_words.specs.TreeSteps.{tree_steps, tree_after, IsTreeRun};
ghost use Rattle.telling_laws.specs.View.{Made, Shows, AllMade, AllLong, MakesNew, StepShows};

/// Each request is no step of the tree, and then what the store shows stays; or it is a step to which the tree allows what
/// the store replied, and then what the store shows follows the tree. What blocks consist of is told beside: each row is as long as that.
pub fn store_shows_a_tree()
    ensures { (store : Store) (content : BlkId → List ℕ) (made : Made) (op : OpId) (req : AnyReq) → AllMade store made
        → AllLong store content → MakesNew content made req → StepShows store content made op req }
{}

/// In every run of the world what each running command asks next is safe: what it needs is so of the store and its past, and what it is to
/// make the tree has not made.
pub fn running_commands_ask_safely()
    ensures { RunsAskSafely programs }
{}

/// In every run of the world the tree allows what was said to each of its steps, and the store at the end shows the tree
/// after them.
pub fn every_run_follows_the_tree()
    ensures shown { (counts : Counts) (events : List Event) → IsWorldRun programs counts events
        → Shows (moment programs counts events).store (content_in events) (tree_after opening_tree (tree_steps events)) }
    ensures allowed { (counts : Counts) (events : List Event) → IsWorldRun programs counts events
        → IsTreeRun opening_tree (tree_steps events) }
{}

/// In every run of the world, whatever its actors ask in whatever order, each answer is the one that the tree gives at the
/// command's point, or says that there was no room to begin the command.
pub fn each_answer_is_the_trees()
    ensures { (counts : Counts) (events : List Event) → IsWorldRun programs counts events → Headline counts events }
{}
