ghost use Rattle.std.specs.Prelude.{◌≡◌, IfOk};
ghost use Rattle.store_rules.specs.Places.{request_place};
ghost use Rattle.store_rules.specs.Views.{as_unbound};
ghost use Rattle.tect_calls.specs.Readings.{unbound_freed};
ghost use Rattle.program_parts.specs.Parts.{within};
ghost use Rattle.program_parts.specs.Releases.{then_release};
ghost use Rattle.program_rules.specs.declared.states.Delete.TheVariants.{Release};
ghost use Rattle.program_rules.specs.Delete.{delete_asks, unbound, delete_hears};

use crate::places::place_of_dir;
use crate::release;
use memories::Memory;
use program_parts::{Next, refused};
use program_rules::Delete;
use store_rules::AnyReply;
use tect_calls::{Asked, Freed, name_unbind};
use tect_ids::{Answer, Key, NoMemory, Place, Want};

/// Its request.
pub fn ask(delete: &Delete) -> Result<Asked, NoMemory>
    ensures { IfOk result (λ asked. asked ≡ delete_asks delete.now) }
{
    match delete {
        Delete::Unbind { key } => Ok(name_unbind(key.clone()?, Want::AnyFile)),
        Delete::Release(releasing) => Ok(release::ask(releasing)),
    }
}

/// Where it goes on at the reply to its request.
pub fn hear(delete: Delete, memory: &Memory, reply: &AnyReply) -> Next<Delete, Answer>
    ensures { result ≡ delete_hears (request_place memory.now.counts (delete_asks delete)) delete reply.now }
{
    match delete {
        Delete::Unbind { key } => {
            let place = place_of_dir(memory, key.dir);
            hear_unbind(key, place, reply)
        }
        Delete::Release(releasing) => released(releasing.second, releasing.answer),
    }
}

fn hear_unbind(key: Key, place: Place, reply: &AnyReply) -> Next<Delete, Answer>
    ensures { result ≡ unbound place key reply.now (unbound_freed (as_unbound reply.now)) }
{
    match tect_calls::unbound(reply) {
        None => Next::Comes {
            result: refused(place, key, reply),
        },
        Some(freed) => released(Some(freed), Answer::Done),
    }
}

fn released(freed: Option<Freed>, answer: Answer) -> Next<Delete, Answer>
    ensures { result ≡ within Release (then_release freed answer) }
{
    within!(Delete::Release, release::release_first(freed, answer))
}
