ghost use Rattle.std.specs.Prelude.{◌≡◌};
ghost use Rattle.program_parts.specs.Refused.{refusal, dir_refusal};

use store_rules::{AnyReply, FileReply, NameReply};
use tect_ids::{Answer, Key, Place, Refusal};

/// The answer of a command whose request was refused: it was made at that place and concerned that entry. It takes no memory.
pub fn refused(place: Place, key: Key, reply: &AnyReply) -> Answer
    ensures { result ≡ refusal place key reply.now }
{
    match reply {
        AnyReply::Name(NameReply::Refused { why }) => why.answer(key),
        AnyReply::File(FileReply::Refused { why }) => why.answer(key),
        _ => Answer::Odd { place },
    }
}

/// The same where the request concerned a directory as a whole.
pub fn dir_refused(place: Place, reply: &AnyReply) -> Answer
    ensures { result ≡ dir_refusal place reply.now }
{
    match reply {
        AnyReply::Name(
            NameReply::Refused {
                why: Refusal::NoDir,
            },
        ) => Answer::NoDir,
        _ => Answer::Odd { place },
    }
}
