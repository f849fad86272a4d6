ghost use Rattle.std.specs.Prelude.{◌≡◌};

use store_rules::{NameReply, Outcome};
use tect_ids::Refusal;

// A refusal, which leaves the shard as it is.
pub(crate) fn refused(why: Refusal) -> Outcome<NameReply>
    ensures { result ≡ Outcome.Leaves (NameReply.Refused why) }
{
    Outcome::Leaves(NameReply::Refused { why })
}
