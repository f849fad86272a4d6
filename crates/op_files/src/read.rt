ghost use Rattle.std.specs.Prelude.{◌≡◌, IfOk, IfErr, option_map};
ghost use Rattle.store_rules.specs.Places.{request_place};
ghost use Rattle.store_rules.specs.Views.{as_block_list, as_location, as_bytes};
ghost use Rattle.file_rules.specs.declared.states.Read.TheVariants.{Locate, Fetch};
ghost use Rattle.file_rules.specs.Read.{read_starts, read_asks, begins_reading, begins_fetching, got, read_hears};
ghost use Rattle.file_rules.specs.Read as rules;

use crate::places::{place_of_blk, place_of_dir, place_of_disk, place_of_file};
use crate::refusals::file_refused;
use file_rules::{Fetching, Gathered, Read, Reading, placed_chunks};
use memories::Memory;
use program_parts::{Next, refused};
use std::alloc::Global;
use store_rules::AnyReply;
use tect_calls::{Asked, block_get_block, disk_get, file_list_blocks, name_look};
use tect_ids::{Answer, BlkId, ChunkKey, DirId, FileId, Key, Name, NoMemory, Node, Place};

/// A read of the file with that name in that directory.
pub fn start(name: Name, dir: DirId) -> Read
    ensures { result ≡ read_starts name dir }
{
    Read::Find {
        key: Key { dir, name },
    }
}

/// Its request.
pub fn ask(read: &Read) -> Result<Asked, NoMemory>
    ensures { IfOk result (λ asked. asked ≡ read_asks read.now) }
{
    match read {
        Read::Find { key } => Ok(name_look(key.clone()?)),
        Read::List { file } => Ok(file_list_blocks(*file)),
        Read::Locate { blk, .. } => Ok(block_get_block(*blk)),
        Read::Fetch { fetching, .. } => Ok(disk_get(fetching.chunk())),
    }
}

/// Where it goes on at the reply to its request. For want of memory it is given back.
pub fn hear(read: Read, memory: &Memory, reply: &AnyReply) -> Result<Next<Read, Answer>, Read>
    ensures ok { IfOk result (λ next. next ≡ read_hears (request_place memory.now.counts (read_asks read)) read reply.now) }
    ensures err { IfErr result (λ same. same ≡ read) }
{
    let alloc = memory.alloc();
    match read {
        Read::Find { key } => {
            let place = place_of_dir(memory, key.dir);
            Ok(found_file!(place, key, reply, file => Read::List { file }))
        }
        Read::List { file } => {
            match hear_list(alloc, file, place_of_file(memory, file), reply) {
                Ok(next) => Ok(next),
                Err(NoMemory) => Err(Read::List { file }),
            }
        }
        Read::Locate { reading, blk } => {
            hear_locate(alloc, reading, blk, place_of_blk(memory, blk), reply)
        }
        Read::Fetch { reading, fetching } => {
            let place = place_of_disk(memory, fetching.chunk().disk);
            hear_fetch(alloc, reading, fetching, place, reply)
        }
    }
}

fn hear_list(
    alloc: Global,
    file: FileId,
    place: Place,
    reply: &AnyReply,
) -> Result<Next<Read, Answer>, NoMemory>
    ensures { IfOk result (λ next. next ≡ begins_reading place file reply.now (as_block_list reply.now)) }
{
    match reply.as_block_list() {
        None => Ok(Next::Comes {
            result: file_refused(place, file, reply),
        }),
        Some(parts) => Ok(Reading::begin(alloc, parts.clone()?)),
    }
}

// The chunks of the block that are placed, if the reply says where it lies.
fn placed(
    alloc: Global,
    blk: BlkId,
    reply: &AnyReply,
) -> Result<Option<Gathered<ChunkKey>>, NoMemory>
    ensures { IfOk result (λ chunks. chunks ≡ option_map (λ at. rules.placed_chunks blk at.rows) (as_location reply.now)) }
{
    match tect_calls::location(reply)? {
        None => Ok(None),
        Some(location) => Ok(Some(placed_chunks(alloc, blk, location.rows.as_slice())?)),
    }
}

fn hear_locate(
    alloc: Global,
    reading: Reading,
    blk: BlkId,
    place: Place,
    reply: &AnyReply,
) -> Result<Next<Read, Answer>, Read>
    ensures ok { IfOk result (λ next. next ≡ begins_fetching place reading blk (as_location reply.now)) }
    ensures err { IfErr result (λ same. same ≡ Locate reading blk) }
{
    match placed(alloc, blk, reply) {
        Ok(None) => Ok(Next::Comes {
            result: Answer::Odd { place },
        }),
        Ok(Some(chunks)) => Ok(Fetching::begin(place, reading, chunks)),
        Err(NoMemory) => Err(Read::Locate { reading, blk }),
    }
}

fn hear_fetch(
    alloc: Global,
    reading: Reading,
    fetching: Fetching,
    place: Place,
    reply: &AnyReply,
) -> Result<Next<Read, Answer>, Read>
    ensures ok { IfOk result (λ next. next ≡ got place reading fetching (as_bytes reply.now)) }
    ensures err { IfErr result (λ same. same ≡ Fetch reading fetching) }
{
    match tect_calls::got(reply) {
        Ok(None) => Ok(fetching.fetch_next(place, reading)),
        Ok(Some(bytes)) => match reading.add(alloc, bytes) {
            Ok(next) => Ok(next),
            Err(reading) => Err(Read::Fetch { reading, fetching }),
        },
        Err(NoMemory) => Err(Read::Fetch { reading, fetching }),
    }
}
