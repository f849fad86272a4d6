//! The laws of races: what clients did side by side, each by its own story, and what the places kept of it, is one run of the
//! world that follows the script. Nothing here is called: each function's contract is a law.
#![tactic(auto)]

ghost use Rattle.program_forms.specs.Kinds.{Programs};
ghost use Rattle.race_runs.specs.Gathered.{GatheredStoriesAreRun};
ghost use Rattle.race_runs.specs.PlacesReply.{PlacesReply};

/// Where each client's story is a run of its own programs, and one list of all their moments says of each place what it keeps,
/// the history that is woven of them is a run of the world, in which each client ends a command at once when its last reply gave
/// the answer. It is so of any programs, over any states `S`.
pub fn gathered_stories_are_run<S>()
    ensures { (P : Programs S) → GatheredStoriesAreRun P }
{}

/// Where the moments at each place are the history of the machine that it keeps, each at the place of its request, the replies
/// are those of the whole store.
pub fn places_reply()
    ensures { PlacesReply }
{}
