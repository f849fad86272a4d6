ghost use Rattle.std.specs.Prelude.{◌≡◌, ◌++◌, OnOk, OnErr, codes};
ghost use Rattle.std.specs.Fmt.{decimal};
ghost use Rattle.std.specs.Io.{StartsWith};
ghost use Rattle.std.specs.List.{flat_map};
ghost use Rattle.tect_text.specs.AnswerText.{bare_text, number_refusal_text, op_refusal_text, removed_text, swept_text, short_text};
ghost use Rattle.tect_text.specs.AnswerText.{listed_text, row_text, bytes_text, answer_text};

use crate::ids::{push_node, push_node_or_none, push_op};
use crate::words::{push_name, push_number, push_word};
use script_words::push_hex;
use tect_ids::{Answer, Key, Listed, NoMemory, Node, RowPart};

/// The answers of one word; nothing for the others.
fn bare_word(answer: &Answer) -> &'static str
    ensures { result.now ≡ bare_text answer.now }
{
    match answer {
        Answer::NoDir => "no-dir",
        Answer::NoName => "no-name",
        Answer::NoFile => "no-file",
        Answer::Exists => "exists",
        Answer::IsDir => "is-dir",
        Answer::NotDir => "not-dir",
        Answer::NotEmpty => "not-empty",
        Answer::Sealed => "sealed",
        Answer::NotSealed => "not-sealed",
        Answer::NotOpen => "not-open",
        Answer::NoMemory => "no-memory",
        Answer::Stopped => "stopped",
        _ => "",
    }
}

/// A refusal that tells numbers, or one of a bare word.
fn push_number_refusal(text: &mut Vec<u8>, answer: &Answer) -> Result<(), NoMemory>
    ensures ok { OnOk result (text.new.items ≡ text.old.items ++ number_refusal_text answer.now) }
    ensures err { OnErr result (StartsWith text.new.items text.old.items) }
{
    match answer {
        Answer::Below { dir } => push_number(text, "below ", dir.0),
        Answer::Deep { dir } => push_number(text, "deep ", dir.0),
        Answer::Full { id } => push_number(text, "full ", *id),
        Answer::FewDisks { have, need } => {
            push_number(text, "few-disks ", *have)?;
            push_number(text, " ", *need)
        }
        Answer::DiskLost { disk } => push_number(text, "disk-lost ", disk.0),
        Answer::Lost { blk } => push_number(text, "lost ", blk.0),
        Answer::Moving { blk, first, last } => {
            push_number(text, "moving ", blk.0)?;
            push_number(text, " ", *first)?;
            push_number(text, " ", *last)
        }
        Answer::Gone { blk } => push_number(text, "gone ", blk.0),
        Answer::HistoryFull { place } => push_number(text, "history-full ", place.0),
        Answer::Odd { place } => push_number(text, "odd ", place.0),
        _ => push_word(text, bare_word(answer)),
    }
}

/// A refusal that tells an op, or another one.
fn push_op_refusal(text: &mut Vec<u8>, answer: &Answer) -> Result<(), NoMemory>
    ensures ok { OnOk result (text.new.items ≡ text.old.items ++ op_refusal_text answer.now) }
    ensures err { OnErr result (StartsWith text.new.items text.old.items) }
{
    match answer {
        Answer::Pending { op } => push_op(text, "pending ", *op),
        Answer::Closing { op } => push_op(text, "closing ", *op),
        Answer::Frozen { op } => push_op(text, "frozen ", *op),
        Answer::Turn { op } => push_op(text, "turn ", *op),
        Answer::TokenChanged { now } => push_op(text, "token-changed ", *now),
        Answer::Cancelled { op } => push_op(text, "cancelled ", *op),
        _ => push_number_refusal(text, answer),
    }
}

/// What a sweep removed: directories, files, blocks and chunks.
fn push_removed(
    text: &mut Vec<u8>,
    dirs: u32,
    files: u32,
    blocks: u32,
    chunks: u32,
) -> Result<(), NoMemory>
    ensures ok { OnOk result (text.new.items ≡ text.old.items ++ removed_text dirs files blocks chunks) }
    ensures err { OnErr result (StartsWith text.new.items text.old.items) }
{
    push_number(text, "dirs ", dirs)?;
    push_number(text, " files ", files)?;
    push_number(text, " blocks ", blocks)?;
    push_number(text, " chunks ", chunks)
}

/// What was swept or lost, or a refusal.
fn push_swept(text: &mut Vec<u8>, answer: &Answer) -> Result<(), NoMemory>
    ensures ok { OnOk result (text.new.items ≡ text.old.items ++ swept_text answer.now) }
    ensures err { OnErr result (StartsWith text.new.items text.old.items) }
{
    match answer {
        Answer::Swept {
            dirs,
            files,
            blocks,
            chunks,
        } => {
            push_word(text, "ok ")?;
            push_removed(text, *dirs, *files, *blocks, *chunks)
        }
        Answer::SweptAll {
            rounds,
            dirs,
            files,
            blocks,
            chunks,
        } => {
            push_number(text, "sweep ", *rounds)?;
            push_word(text, " ")?;
            push_removed(text, *dirs, *files, *blocks, *chunks)
        }
        Answer::LostDisk { disk } => push_number(text, "lost ", disk.0),
        _ => push_op_refusal(text, answer),
    }
}

/// An answer whose words are numbers and kinds; nothing for those that hold names, lists or bytes.
fn push_short(text: &mut Vec<u8>, answer: &Answer) -> Result<(), NoMemory>
    ensures ok { OnOk result (text.new.items ≡ text.old.items ++ short_text answer.now) }
    ensures err { OnErr result (StartsWith text.new.items text.old.items) }
{
    match answer {
        Answer::Done => push_word(text, "ok"),
        Answer::Found { node } => push_node(text, "ok ", *node),
        Answer::Opened { file, token } => {
            push_number(text, "ok file ", file.0)?;
            push_op(text, " token ", *token)
        }
        Answer::Appended { blk, index } => {
            push_number(text, "ok block ", blk.0)?;
            push_number(text, " at ", *index)
        }
        Answer::Repaired { moved, left } => {
            push_number(text, "ok moved ", *moved)?;
            push_number(text, " left ", *left)
        }
        _ => push_swept(text, answer),
    }
}

fn push_entry(text: &mut Vec<u8>, entry: &Listed) -> Result<(), NoMemory>
    ensures ok { OnOk result (text.new.items ≡ text.old.items ++ listed_text entry.now) }
    ensures err { OnErr result (StartsWith text.new.items text.old.items) }
{
    push_name(text, " ", &entry.name)?;
    push_node(text, " ", entry.node)
}

fn push_entries(text: &mut Vec<u8>, entries: &[Listed]) -> Result<(), NoMemory>
    ensures ok { OnOk result (text.new.items ≡ text.old.items ++ flat_map listed_text entries.now) }
    ensures err { OnErr result (StartsWith text.new.items text.old.items) }
{
    for entry in entries {
        push_entry(text, entry)?;
    }
    Ok(())
}

fn push_row(text: &mut Vec<u8>, row: RowPart) -> Result<(), NoMemory>
    ensures ok { OnOk result (text.new.items ≡ text.old.items ++ row_text row) }
    ensures err { OnErr result (StartsWith text.new.items text.old.items) }
{
    push_number(text, " ", row.blk.0)?;
    push_number(text, " ", row.len)
}

fn push_rows(text: &mut Vec<u8>, rows: &[RowPart]) -> Result<(), NoMemory>
    ensures ok { OnOk result (text.new.items ≡ text.old.items ++ flat_map row_text rows.now) }
    ensures err { OnErr result (StartsWith text.new.items text.old.items) }
{
    for row in rows {
        push_row(text, *row)?;
    }
    Ok(())
}

fn push_read(text: &mut Vec<u8>, bytes: &[u8]) -> Result<(), NoMemory>
    ensures ok { OnOk result (text.new.items ≡ text.old.items ++ bytes_text bytes.now) }
    ensures err { OnErr result (StartsWith text.new.items text.old.items) }
{
    if bytes.is_empty() {
        return Ok(());
    }
    push_word(text, " ")?;
    push_hex(text, bytes)
}

fn push_changed(text: &mut Vec<u8>, key: &Key, now: Option<Node>) -> Result<(), NoMemory>
    ensures ok { OnOk result (text.new.items ≡ text.old.items ++ answer_text (Answer.Changed key.now now)) }
    ensures err { OnErr result (StartsWith text.new.items text.old.items) }
{
    push_number(text, "changed ", key.dir.0)?;
    push_name(text, " ", &key.name)?;
    push_node_or_none(text, " now ", now)
}

/// Adds the words of an answer, or for want of memory a part of them.
pub fn push_answer(text: &mut Vec<u8>, answer: &Answer) -> Result<(), NoMemory>
    ensures ok { OnOk result (text.new.items ≡ text.old.items ++ answer_text answer.now) }
    ensures err { OnErr result (StartsWith text.new.items text.old.items) }
{
    match answer {
        Answer::Entries { items } => {
            push_number(text, "ok ", items.len())?;
            push_entries(text, items.as_slice())
        }
        Answer::Blocks { rows } => {
            push_number(text, "ok ", rows.len())?;
            push_rows(text, rows.as_slice())
        }
        Answer::Read { bytes } => {
            push_number(text, "ok ", bytes.len())?;
            push_read(text, bytes.as_slice())
        }
        Answer::Changed { key, now } => push_changed(text, key, *now),
        _ => push_short(text, answer),
    }
}
