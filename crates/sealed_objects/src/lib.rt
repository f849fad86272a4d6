//! What is sealed stays as it is, in every run of the world: a directory's entries, and a file's blocks with their bytes. Nothing here is
//! called: the function's contract is a law.
#![tactic(auto)]

ghost use Rattle.std.specs.Prelude.{List};
ghost use Rattle.program_rules.specs.Served.{programs};
ghost use Rattle.sealed_objects.specs.Sealed.{SealedObjectsStay};
ghost use Rattle.tect_ids.specs.declared.ids.Counts.{Counts};
ghost use Rattle.world_runs.specs.declared.event.Event.{Event};
ghost use Rattle.world_runs.specs.Moments.{IsWorldRun};

/// In every run of the world, once a listing has shown that a directory is sealed, the small machine lists the same entries at the end; and
/// once a list of blocks has shown that a file is sealed, it lists the same blocks, and reads the same bytes.
pub fn sealed_objects_stay()
    ensures { (counts : Counts) (events : List Event) → IsWorldRun programs counts events → SealedObjectsStay events }
{}
