ghost use Rattle.std.specs.Prelude.{◌≡◌};
ghost use Rattle.tect_ids.specs.Places.{HasPlaces};
ghost use Rattle.entry_words.specs.Labels.{label_at};

use crate::entry::Label;
use tect_ids::{Counts, Layer, Place, ROOT, layer_at, place_of};

/// The label that the shard of a place is started with, where each layer has 1 to 64 places. It takes no memory.
pub fn label_at(counts: &Counts, place: Place) -> Label
    requires { HasPlaces counts.now }
    ensures { result ≡ label_at counts.now place.0 }
{
    Label {
        place,
        layer: layer_at(counts, place),
        rooted: place == place_of(Layer::Names, ROOT.0, counts),
        folded: false,
    }
}
