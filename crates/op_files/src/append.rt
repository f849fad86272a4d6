ghost use Rattle.std.specs.Prelude.{◌≡◌, IfOk, IfErr, length};
ghost use Rattle.tect_ids.specs.declared.values.Class.TheVariants.{Copies};
ghost use Rattle.tect_ids.specs.Numbers.{own_hold};
ghost use Rattle.store_rules.specs.declared.any.AnyReq.TheVariants as any;
ghost use Rattle.store_rules.specs.declared.blocks.BlockReq.TheVariants as blocks;
ghost use Rattle.store_rules.specs.declared.files.FileReq.TheVariants as files;
ghost use Rattle.store_rules.specs.Places.{request_place};
ghost use Rattle.store_rules.specs.Views.{is_made, is_stored, is_block_sealed, as_attached};
ghost use Rattle.tect_calls.specs.Readings.{given_if, new_block};
ghost use Rattle.memories.specs.Knowing.{number_for};
ghost use Rattle.file_rules.specs.declared.states.Append.TheVariants.{Put};
ghost use Rattle.file_rules.specs.Append.{append_starts, append_asks, block_made, gives_up, is_lost, put, sealed, attached, append_hears};
ghost use Rattle.file_rules.specs.Placing.{new_rows};
ghost use Rattle.op_files.specs.OneBlock.{IsOfOneBlock};
ghost use Rattle.op_files.specs.Shards.{blk_shard};

use crate::places::{place_of_blk, place_of_disk, place_of_file};
use crate::refusals::file_refused;
use file_rules::{Append, Appending, Putting, Sealing, Spread};
use memories::{Memory, PathKey};
use program_parts::Next;
use store_rules::{AnyReply, DiskReply};
use tect_calls::{
    Asked, BlockMade, BlockSealed, GrantedRow, MadeFile, block_make_block, block_release,
    block_seal_block, disk_put, file_attach,
};
use tect_ids::{Answer, BlkId, Bytes, Class, Hold, NoMemory, OpId, Place, Token};

// The one hold of a command.
fn hold_of(op: OpId) -> Hold
    ensures { result ≡ own_hold op }
{
    Hold { op, part: 0 }
}

// How many bytes a block has. There is no memory for 2^32 and more.
fn len_of(bytes: &Bytes) -> Result<u32, NoMemory>
    ensures { IfOk result (λ len. len ≡ length bytes.now) }
{
    match u32::try_from(bytes.len()) {
        Ok(len) => Ok(len),
        Err(_) => Err(NoMemory),
    }
}

/// An append of these bytes to the file that the actor opened at the path: it begins with the making of a block, or has its answer where
/// nothing is opened there, or there are too few disks for all copies. It takes no memory.
pub fn start(memory: &Memory, path: &PathKey, bytes: Bytes) -> Next<Append, Answer>
    ensures { result ≡ append_starts memory.now.counts memory.now.memory path.now bytes }
{
    let Some(opened) = memory.opened(path) else {
        return Next::Comes {
            result: Answer::NotOpen,
        };
    };
    let counts = memory.counts();
    match Spread::of(counts) {
        None => Next::Comes {
            result: Answer::FewDisks {
                have: counts.disks,
                need: counts.copies.max(1),
            },
        },
        Some(spread) => Next::Goes {
            state: Append::Make {
                file: opened.file().again(),
                token: opened.token(),
                bytes,
                spread,
            },
        },
    }
}

/// Its request, as that op. The hold is at the block that was made: so it is at the start, and stays so at each reply.
pub fn ask(append: &Append, memory: &Memory, op: OpId) -> Result<Asked, NoMemory>
    requires { IsOfOneBlock append.now }
    ensures { IfOk result (λ asked. asked ≡ append_asks op (number_for memory.now op) append.now) }
{
    match append {
        Append::Make {
            file,
            bytes,
            spread,
            ..
        } => ask_make(file, bytes, spread, memory, op),
        Append::Put { appending, putting } => {
            let row = putting.row();
            Ok(disk_put(row.chunk(), appending.bytes.clone()?, row))
        }
        Append::Seal { sealing, .. } => {
            let made = sealing.made();
            Ok(block_seal_block(made.blk(), made, sealing.stored()))
        }
        Append::Attach { appending, sealed } => ask_attach(appending, sealed),
        Append::Release { blk, hold, .. } => Ok(block_release(*blk, hold.hold(), hold)),
    }
}

// The making of the block, with its rows.
fn ask_make(
    file: &MadeFile,
    bytes: &Bytes,
    spread: &Spread,
    memory: &Memory,
    op: OpId,
) -> Result<Asked, NoMemory>
    ensures { IfOk result (λ asked. asked ≡ any.Block (blocks.MakeBlock record { 0 = number_for memory.now op } Copies (length bytes.now)
        file.now (own_hold op) (new_rows spread.now op (number_for memory.now op)))) }
{
    let number = memory.number_for(op);
    Ok(block_make_block(
        BlkId(number),
        Class::Copies,
        len_of(bytes)?,
        file.file(),
        hold_of(op),
        spread.rows(memory.alloc(), op, number)?,
        file.made(),
    ))
}

// The attach of the block, which is the one that is held.
fn ask_attach(appending: &Appending, sealed: &BlockSealed) -> Result<Asked, NoMemory>
    requires { appending.now.hold.blk ≡ sealed.now }
    ensures { IfOk result (λ asked. asked ≡ any.File (files.Attach appending.now.hold.file appending.now.token sealed.now
        (length appending.now.bytes) appending.now.hold.hold)) }
{
    let hold = &appending.hold;
    Ok(file_attach(
        hold.file(),
        appending.token,
        sealed.blk(),
        len_of(&appending.bytes)?,
        hold.hold(),
        hold,
        sealed,
    ))
}

/// Where it goes on at the reply to its request. For want of memory it is given back.
pub fn hear(
    append: Append,
    memory: &Memory,
    op: OpId,
    reply: &AnyReply,
) -> Result<Next<Append, Answer>, Append>
    ensures ok { IfOk result (λ next. next
        ≡ append_hears (request_place memory.now.counts (append_asks op (number_for memory.now op) append)) op
        (number_for memory.now op) append reply.now) }
    ensures err { IfErr result (λ same. same ≡ append) }
{
    match append {
        Append::Make {
            file,
            token,
            bytes,
            spread,
        } => match make_block(&file, &spread, memory, op, reply) {
            Ok(made) => Ok(hear_make(memory, op, token, bytes, made)),
            Err(NoMemory) => Err(Append::Make {
                file,
                token,
                bytes,
                spread,
            }),
        },
        Append::Put { appending, putting } => {
            let place = place_of_disk(memory, putting.row().chunk().disk);
            hear_put(appending, putting, place, reply)
        }
        Append::Seal { appending, sealing } => {
            let place = place_of_blk(memory, sealing.made().blk());
            Ok(hear_seal(appending, sealing, place, reply))
        }
        Append::Attach { appending, .. } => {
            let place = place_of_file(memory, appending.hold.file());
            Ok(hear_attach(appending, place, reply))
        }
        Append::Release { answer, .. } => Ok(Next::Comes { result: answer }),
    }
}

// The block, if it was made, and its hold for a row of the file.
fn make_block(
    file: &MadeFile,
    spread: &Spread,
    memory: &Memory,
    op: OpId,
    reply: &AnyReply,
) -> Result<Option<(BlockMade, GrantedRow)>, NoMemory>
    ensures { IfOk result (λ made. made ≡ given_if
        (new_block record { 0 = number_for memory.now op } file.now (own_hold op) (new_rows spread.now op (number_for memory.now op)))
        (is_made reply.now)) }
{
    let number = memory.number_for(op);
    let rows = spread.rows(memory.alloc(), op, number)?;
    Ok(tect_calls::block_made(BlkId(number), file.file(), hold_of(op), rows, reply))
}

fn hear_make(
    memory: &Memory,
    op: OpId,
    token: Token,
    bytes: Bytes,
    made: Option<(BlockMade, GrantedRow)>,
) -> Next<Append, Answer>
    ensures { result ≡ block_made (blk_shard memory.now.counts record { 0 = number_for memory.now op }) token bytes made }
{
    match made {
        None => Next::Comes {
            result: Answer::Odd {
                place: place_of_blk(memory, BlkId(memory.number_for(op))),
            },
        },
        Some((made, hold)) => {
            let appending = Appending { token, bytes, hold };
            Next::Goes {
                state: Putting::begin(memory.alloc(), appending, made),
            }
        }
    }
}

// Its own hold is given up before the answer.
fn give_up(hold: GrantedRow, answer: Answer) -> Next<Append, Answer>
    ensures { result ≡ gives_up hold answer }
{
    Next::Goes {
        state: Append::Release {
            blk: hold.blk(),
            hold: hold.give_up(),
            answer,
        },
    }
}

fn hear_put(
    appending: Appending,
    putting: Putting,
    place: Place,
    reply: &AnyReply,
) -> Result<Next<Append, Answer>, Append>
    ensures ok { IfOk result (λ next. next ≡ put place appending putting reply.now (is_stored reply.now)) }
    ensures err { IfErr result (λ same. same ≡ Put appending putting) }
{
    let chunk = putting.row().chunk();
    match tect_calls::stored(chunk, reply) {
        Some(stored) => match putting.put_next(appending, stored) {
            Ok(state) => Ok(Next::Goes { state }),
            Err(same) => Err(same),
        },
        None if lost(reply) => Ok(give_up(appending.hold, Answer::DiskLost { disk: chunk.disk })),
        None => Ok(Next::Comes {
            result: Answer::Odd { place },
        }),
    }
}

// Whether the disk is lost.
fn lost(reply: &AnyReply) -> bool
    ensures { result ≡ is_lost reply.now }
{
    matches!(reply, AnyReply::Disk(DiskReply::Lost))
}

fn hear_seal(
    appending: Appending,
    sealing: Sealing,
    place: Place,
    reply: &AnyReply,
) -> Next<Append, Answer>
    ensures { result ≡ sealed place appending sealing (is_block_sealed reply.now) }
{
    match tect_calls::block_sealed(sealing.made().blk(), reply) {
        None => Next::Comes {
            result: Answer::Odd { place },
        },
        Some(sealed) => Next::Goes {
            state: Append::Attach { appending, sealed },
        },
    }
}

fn hear_attach(appending: Appending, place: Place, reply: &AnyReply) -> Next<Append, Answer>
    ensures { result ≡ attached place appending reply.now (as_attached reply.now) }
{
    match tect_calls::attached(reply) {
        Some(index) => Next::Comes {
            result: Answer::Appended {
                blk: appending.hold.blk(),
                index,
            },
        },
        None => {
            let answer = file_refused(place, appending.hold.file(), reply);
            give_up(appending.hold, answer)
        }
    }
}
