ghost use Rattle.std.specs.Prelude.{◌≡◌};
ghost use Rattle.program_parts.specs.Releases.{release_ask, then_release};

use program_parts::{Next, Releasing};
use tect_calls::{Asked, Freed, file_release, name_release};
use tect_ids::{Answer, Node};

/// The request that releases the first of the holds.
pub fn ask(releasing: &Releasing) -> Asked
    ensures { result ≡ release_ask releasing.now.first.node releasing.now.first.hold }
{
    let spent = &releasing.first.hold;
    match releasing.first.node {
        Node::Dir(dir) => name_release(dir, spent.hold(), spent),
        Node::File(file) => file_release(file, spent.hold(), spent),
    }
}

/// A hold that is released, if there is one, before the answer.
pub fn release_first(freed: Option<Freed>, answer: Answer) -> Next<Releasing, Answer>
    ensures { result ≡ then_release freed answer }
{
    match freed {
        None => Next::Comes { result: answer },
        Some(first) => Next::Goes {
            state: Releasing {
                first,
                second: None,
                answer,
            },
        },
    }
}
