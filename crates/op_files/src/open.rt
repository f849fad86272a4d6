ghost use Rattle.std.specs.Prelude.{◌≡◌, IfOk, IfErr, OnOk, OnErr};
ghost use Rattle.store_rules.specs.Places.{request_place};
ghost use Rattle.store_rules.specs.Views.{is_opened};
ghost use Rattle.program_forms.specs.Memories.{learnt};
ghost use Rattle.program_parts.specs.declared.next.Next.TheVariants.{Comes};
ghost use Rattle.file_rules.specs.declared.states.Open.TheVariants.{Take};
ghost use Rattle.file_rules.specs.Open.{open_starts, open_asks, taken, open_hears, open_learns};

use crate::places::{place_of_dir, place_of_file};
use crate::refusals::file_refused;
use file_rules::Open;
use memories::{Memory, PathKey};
use program_parts::{Next, refused};
use store_rules::AnyReply;
use tect_calls::{Asked, file_take_token, name_look};
use tect_ids::{Answer, DirId, FileId, Key, Name, NoMemory, Node, OpId, Place};

/// An open of the file with that name in that directory, which is kept by the path.
pub fn start(path: PathKey, name: Name, dir: DirId) -> Open
    ensures { result ≡ open_starts path name dir }
{
    Open::Find {
        key: Key { dir, name },
        path,
    }
}

/// Its request, as that op.
pub fn ask(opening: &Open, op: OpId) -> Result<Asked, NoMemory>
    ensures { IfOk result (λ asked. asked ≡ open_asks op opening.now) }
{
    match opening {
        Open::Find { key, .. } => Ok(name_look(key.clone()?)),
        Open::Take { file, .. } => Ok(file_take_token(*file, op)),
    }
}

/// Where it goes on at the reply to its request, and the file that was opened is kept by its path. For want of memory it is given back, and
/// nothing is kept.
pub fn hear(
    opening: Open,
    memory: &mut Memory,
    op: OpId,
    reply: &AnyReply,
) -> Result<Next<Open, Answer>, Open>
    ensures ok { IfOk result (λ next. next ≡ open_hears (request_place memory.old.counts (open_asks op opening)) op opening reply.now) }
    ensures kept { OnOk result (memory.new
        ≡ record memory.old { memory = learnt (open_learns op opening reply.now) memory.old.memory }) }
    ensures err { IfErr result (λ same. same ≡ opening) }
    ensures unchanged { OnErr result (memory.new ≡ memory.old) }
{
    match opening {
        Open::Find { key, path } => {
            let place = place_of_dir(memory, key.dir);
            Ok(found_file!(place, key, reply, file => Open::Take { file, path }))
        }
        Open::Take { file, path } => {
            let place = place_of_file(memory, file);
            match hear_take(file, &path, memory, place, op, reply) {
                Ok(answer) => Ok(Next::Comes { result: answer }),
                Err(NoMemory) => Err(Open::Take { file, path }),
            }
        }
    }
}

// Its answer at the reply to the request for the file's token.
fn hear_take(
    file: FileId,
    path: &PathKey,
    memory: &mut Memory,
    place: Place,
    op: OpId,
    reply: &AnyReply,
) -> Result<Answer, NoMemory>
    ensures ok { IfOk result (λ answer. Comes answer ≡ taken place op file reply.now (is_opened reply.now)) }
    ensures kept { OnOk result (memory.new
        ≡ record memory.old { memory = learnt (open_learns op (Take file path.now) reply.now) memory.old.memory }) }
    ensures unchanged { OnErr result (memory.new ≡ memory.old) }
{
    match tect_calls::opened(file, reply) {
        None => Ok(file_refused(place, file, reply)),
        Some(made) => {
            let path = PathKey::new(path.path().clone()?);
            memory.keep_opened(path, made, op)?;
            Ok(Answer::Opened { file, token: op })
        }
    }
}
