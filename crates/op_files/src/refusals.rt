ghost use Rattle.std.specs.Prelude.{◌≡◌};
ghost use Rattle.file_rules.specs.Finds.{file_answer, file_refusal};

use store_rules::{AnyReply, FileReply};
use tect_ids::{Answer, FileId, Place, Refusal};

/// The answer of a command whose request was refused: it was made at that place and concerned that file itself. It takes no memory.
pub fn file_refused(place: Place, file: FileId, reply: &AnyReply) -> Answer
    ensures { result ≡ file_refusal place file reply.now }
{
    match reply {
        AnyReply::File(FileReply::Refused { why }) => file_answer(place, file, *why),
        _ => Answer::Odd { place },
    }
}

// A request for a file itself is refused for these reasons alone.
fn file_answer(place: Place, file: FileId, why: Refusal) -> Answer
    ensures { result ≡ file_answer place file why }
{
    match why {
        Refusal::NoFile => Answer::NoFile,
        Refusal::Sealed => Answer::Sealed,
        Refusal::Full => Answer::Full { id: file.0 },
        Refusal::TokenChanged { now: Some(now) } => Answer::TokenChanged { now },
        Refusal::TokenChanged { now: None } => Answer::NotOpen,
        _ => Answer::Odd { place },
    }
}
