ghost use Rattle.std.specs.Prelude.{◌≡◌, IfOk, IfErr};
ghost use Rattle.store_rules.specs.declared.any.AnyReq.TheVariants.{Name};
ghost use Rattle.store_rules.specs.declared.names.NameReq.TheVariants as names;
ghost use Rattle.store_rules.specs.Views.{as_listing};
ghost use Rattle.program_rules.specs.List.{listed};
ghost use Rattle.op_names.specs.Shards.{dir_shard};

use crate::places::place_of_dir;
use memories::Memory;
use program_parts::{Next, dir_refused};
use program_rules::List;
use store_rules::{AnyReply, NameReply};
use tect_calls::{Asked, name_list};
use tect_ids::Answer;

/// Its request.
pub fn ask(list: &List) -> Asked
    ensures { result ≡ Name (names.List list.now.dir) }
{
    name_list(list.dir)
}

/// Where it goes on at the reply to its request. For want of memory it is given back.
pub fn hear(list: List, memory: &Memory, reply: &AnyReply) -> Result<Next<List, Answer>, List>
    ensures ok { IfOk result (λ next. next ≡ listed (dir_shard memory.now.counts list.dir) reply.now (as_listing reply.now)) }
    ensures err { IfErr result (λ same. same ≡ list) }
{
    match reply {
        AnyReply::Name(NameReply::Listing { items, .. }) => match items.clone() {
            Ok(items) => Ok(Next::Comes {
                result: Answer::Entries { items },
            }),
            Err(_) => Err(list),
        },
        _ => Ok(Next::Comes {
            result: dir_refused(place_of_dir(memory, list.dir), reply),
        }),
    }
}
