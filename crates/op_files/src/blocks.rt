ghost use Rattle.std.specs.Prelude.{◌≡◌, IfOk, IfErr};
ghost use Rattle.store_rules.specs.Places.{request_place};
ghost use Rattle.store_rules.specs.Views.{as_block_list};
ghost use Rattle.file_rules.specs.declared.states.Blocks.TheVariants.{List as Listing};
ghost use Rattle.file_rules.specs.Blocks.{blocks_starts, blocks_asks, listed, blocks_hears};

use crate::places::{place_of_dir, place_of_file};
use crate::refusals::file_refused;
use file_rules::Blocks;
use memories::Memory;
use program_parts::{Next, refused};
use store_rules::AnyReply;
use tect_calls::{Asked, file_list_blocks, name_look};
use tect_ids::{Answer, DirId, FileId, Key, Name, NoMemory, Node, Place};

/// A listing of the blocks of the file with that name in that directory.
pub fn start(name: Name, dir: DirId) -> Blocks
    ensures { result ≡ blocks_starts name dir }
{
    Blocks::Find {
        key: Key { dir, name },
    }
}

/// Its request.
pub fn ask(blocks: &Blocks) -> Result<Asked, NoMemory>
    ensures { IfOk result (λ asked. asked ≡ blocks_asks blocks.now) }
{
    match blocks {
        Blocks::Find { key } => Ok(name_look(key.clone()?)),
        Blocks::List { file } => Ok(file_list_blocks(*file)),
    }
}

/// Where it goes on at the reply to its request. For want of memory it is given back.
pub fn hear(
    blocks: Blocks,
    memory: &Memory,
    reply: &AnyReply,
) -> Result<Next<Blocks, Answer>, Blocks>
    ensures ok { IfOk result (λ next. next ≡ blocks_hears (request_place memory.now.counts (blocks_asks blocks)) blocks reply.now) }
    ensures err { IfErr result (λ same. same ≡ blocks) }
{
    match blocks {
        Blocks::Find { key } => {
            let place = place_of_dir(memory, key.dir);
            Ok(found_file!(place, key, reply, file => Blocks::List { file }))
        }
        Blocks::List { file } => match hear_list(file, place_of_file(memory, file), reply) {
            Ok(next) => Ok(next),
            Err(NoMemory) => Err(Blocks::List { file }),
        },
    }
}

fn hear_list(file: FileId, place: Place, reply: &AnyReply) -> Result<Next<Blocks, Answer>, NoMemory>
    ensures { IfOk result (λ next. next ≡ listed place file reply.now (as_block_list reply.now)) }
{
    let answer = match reply.as_block_list() {
        None => file_refused(place, file, reply),
        Some(rows) => Answer::Blocks {
            rows: rows.clone()?,
        },
    };
    Ok(Next::Comes { result: answer })
}
