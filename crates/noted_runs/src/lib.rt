//! What each actor notes of its own makes a run of the world: the laws that make one history of many, for any order of the
//! transactions, and whatever the programs, over any states `S`. Nothing here is called: each function's contract is a law.
#![tactic(auto)]

ghost use Rattle.program_forms.specs.Kinds.{Programs};
ghost use Rattle.noted_runs.specs.Laws.{ActorsAreTheirOwn, ClientsFollow, OwnLimitsMakeLimits, OwnRunsMakeRun, PromptIsOwnPrompt};
ghost use Rattle.noted_runs.specs.Laws.{RunIsOwnRuns, WovenConcerns, WovenReplies, WovenReports};

/// Where each actor's own events are a run of its programs, and each reply is the one that the store gives after the requests
/// before it, the whole is a run of the world.
pub fn own_runs_make_run<S>()
    ensures { (P : Programs S) → OwnRunsMakeRun P }
{}

/// In a run of the world each actor's own events are a run of its programs, and its state is the one after them; the replies
/// are the store's.
pub fn run_is_own_runs<S>()
    ensures runs { (P : Programs S) → RunIsOwnRuns P }
    ensures states { (P : Programs S) → ActorsAreTheirOwn P }
{}

/// Where each command of a history ends at once when its last reply gave the answer, or was not heard, it does so too in the
/// part of the history that concerns its actor: its own events and the dumps. The other way round it is not so: two actors'
/// events may stand between each other.
pub fn prompt_is_own_prompt<S>()
    ensures { (P : Programs S) → PromptIsOwnPrompt P }
{}

/// Where each actor's own events keep its limits, the whole history does.
pub fn own_limits_make_limits<S>()
    ensures { (P : Programs S) → OwnLimitsMakeLimits P }
{}

/// What concerns an actor of a history that is woven of moments, refusals and dumps, is woven of its own moments and refusals,
/// and of the dumps; and its replies are those of the moments alone.
pub fn woven_concerns()
    ensures concerns { WovenConcerns }
    ensures replies { WovenReplies }
{}

/// A history that is woven shows, part by part, what each actor's own events of the part show, client by client, and behind
/// each part but the last the dump of the store after the moments up to its stamp.
pub fn woven_reports()
    ensures { WovenReports }
{}

/// Where each client's own events and the dumps follow its own lines and those of the dumps, the whole history follows the
/// script by client.
pub fn clients_follow()
    ensures { ClientsFollow }
{}
