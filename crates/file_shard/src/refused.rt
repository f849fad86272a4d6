ghost use Rattle.std.specs.Prelude.{◌≡◌};

use store_rules::{FileReply, Outcome};
use tect_ids::Refusal;

// A refusal, which leaves the shard as it is.
pub(crate) fn refused(why: Refusal) -> Outcome<FileReply>
    ensures { result ≡ Outcome.Leaves (FileReply.Refused why) }
{
    Outcome::Leaves(FileReply::Refused { why })
}
