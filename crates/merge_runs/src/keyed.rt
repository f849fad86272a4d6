//! Moments with the numbers by which they are sorted.
ghost use Rattle.std.specs.Prelude.{◌≡◌};
ghost use Rattle.merge_runs.specs.IsKeyed.{IsKeyed, IsKeyed-prop};

use crate::spot::Spot;
use entry_words::Moment;

/// A moment, with the numbers by which it is sorted, and where it stands.
#[derive(Drop)]
pub struct Keyed<'a> {
    pub stamp: u64,
    pub place: u32,
    pub actor: u32,
    pub at: Spot,
    pub moment: &'a Moment,
    ghost known: { IsKeyed stamp place actor moment.now } by { IsKeyed-prop stamp place actor moment.now },
}

impl<'a> Keyed<'a> {
    pub fn of(moment: &'a Moment, at: Spot) -> Keyed<'a>
        ensures moment { result.moment.now ≡ moment.now }
        ensures at { result.at ≡ at }
    {
        match moment {
            Moment::Act { entry, .. } => Keyed {
                stamp: entry.stamp,
                place: entry.place.0,
                actor: entry.actor,
                at,
                moment,
            },
            Moment::Local { stamp, actor, .. } => Keyed {
                stamp: *stamp,
                place: 256,
                actor: *actor,
                at,
                moment,
            },
        }
    }
}
