ghost use Rattle.std.specs.Prelude.{◌≡◌, ◌≤◌, IfOk, OnOk, drop, filter, length, map};
ghost use Rattle.entry_words.specs.Moments.{stamp_of};
ghost use Rattle.world_runs.specs.Events.{event_of};
ghost use Rattle.world_runs.specs.Events.{StampsRise};
ghost use Rattle.whole_runs.specs.Woven.{is_late};
ghost use Rattle.race_ends.specs.Told.{after_moment, stored_up_to};

use all_shards::Shards;
use entry_words::Moment;
use tect_ids::NoMemory;

// Does a moment's transaction again, if it is one.
fn redo(shards: &mut Shards, moment: &Moment) -> Result<(), NoMemory>
    ensures { OnOk result (shards.new ≡ record shards.old { store = after_moment shards.old.store moment.now }) }
{
    match moment {
        Moment::Act { entry, .. } => shards.redo(&entry.req),
        Moment::Local { .. } => Ok(()),
    }
}

/// Does the transactions again that are stamped up to the clock, and answers how many moments are stamped so.
pub(crate) fn redo_up_to(
    shards: &mut Shards,
    moments: &[&Moment],
    clock: u64,
) -> Result<usize, NoMemory>
    requires { StampsRise (map (λ m. m.now) moments.now) }
    ensures store { OnOk result
        (shards.new ≡ record shards.old { store = stored_up_to clock shards.old.store (map (λ m. m.now) moments.now) }) }
    ensures within { IfOk result (λ done. done ≤ length moments.now) }
    ensures later { IfOk result (λ done. drop done (map (λ m. m.now) moments.now) ≡ filter (is_late clock) (map (λ m. m.now) moments.now)) }
{
    for (done, moment) in moments.iter().enumerate() {
        if moment.stamp() > clock {
            return Ok(done);
        }
        redo(shards, moment)?;
    }
    Ok(moments.len())
}
