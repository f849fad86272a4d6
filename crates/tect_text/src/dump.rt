ghost use Rattle.std.specs.Prelude.{◌≡◌, ◌++◌, OnOk, OnErr, codes};
ghost use Rattle.std.specs.Fmt.{decimal};
ghost use Rattle.std.specs.Io.{StartsWith};
ghost use Rattle.tect_text.specs.DumpText.{dir_state_word, file_state_word, op_behind, token_text};
ghost use Rattle.tect_text.specs.DumpText.{block_line_text, file_line_text, numbers_text, dump_text};

use crate::ids::{push_node, push_op, push_tag};
use crate::words::{push_name, push_number, push_word};
use tect_ids::{DirId, DirState, DumpLine, FileState, Key, NoMemory, Node, OpId};

fn dir_state(state: DirState) -> &'static str
    ensures { result.now ≡ dir_state_word state }
{
    match state {
        DirState::Open => "open",
        DirState::Sealed => "sealed",
        DirState::Closed => "closed",
    }
}

fn file_state(state: FileState) -> &'static str
    ensures { result.now ≡ file_state_word state }
{
    match state {
        FileState::Open => "open",
        FileState::Sealed => "sealed",
        FileState::Frozen => "frozen",
    }
}

/// An op behind its word, where there is one.
fn push_op_behind(text: &mut Vec<u8>, word: &str, op: Option<OpId>) -> Result<(), NoMemory>
    ensures ok { OnOk result (text.new.items ≡ text.old.items ++ op_behind word.now op) }
    ensures err { OnErr result (StartsWith text.new.items text.old.items) }
{
    match op {
        Some(op) => push_op(text, word, op),
        None => Ok(()),
    }
}

/// A word, and a file's token or `none`.
fn push_token(text: &mut Vec<u8>, word: &str, token: Option<OpId>) -> Result<(), NoMemory>
    ensures ok { OnOk result (text.new.items ≡ text.old.items ++ word.now ++ token_text token) }
    ensures err { OnErr result (StartsWith text.new.items text.old.items) }
{
    match token {
        Some(op) => push_op(text, word, op),
        None => {
            push_word(text, word)?;
            push_word(text, "none")
        }
    }
}

/// The word of a state, behind a space.
fn push_state(text: &mut Vec<u8>, state: &str) -> Result<(), NoMemory>
    ensures ok { OnOk result (text.new.items ≡ text.old.items ++ codes " " ++ state.now) }
    ensures err { OnErr result (StartsWith text.new.items text.old.items) }
{
    push_word(text, " ")?;
    push_word(text, state)
}

/// How many parts an object has, behind their word, and how many holds are on it.
fn push_counts(text: &mut Vec<u8>, word: &str, parts: u32, holds: u32) -> Result<(), NoMemory>
    ensures ok { OnOk result (text.new.items ≡ text.old.items ++ word.now ++ decimal parts ++ codes " holds " ++ decimal holds) }
    ensures err { OnErr result (StartsWith text.new.items text.old.items) }
{
    push_number(text, word, parts)?;
    push_number(text, " holds ", holds)
}

/// A line of the layers of blocks and disks; nothing for another one.
fn push_block_line(text: &mut Vec<u8>, line: &DumpLine) -> Result<(), NoMemory>
    ensures ok { OnOk result (text.new.items ≡ text.old.items ++ block_line_text line.now) }
    ensures err { OnErr result (StartsWith text.new.items text.old.items) }
{
    match line {
        DumpLine::Block {
            blk,
            len,
            version,
            rows,
            holds,
        } => {
            push_number(text, "block ", blk.0)?;
            push_number(text, " len ", *len)?;
            push_number(text, " version ", *version)?;
            push_counts(text, " rows ", *rows, *holds)
        }
        DumpLine::Chunk {
            disk,
            blk,
            tag,
            len,
        } => {
            push_number(text, "chunk ", disk.0)?;
            push_number(text, " ", blk.0)?;
            push_tag(text, " ", *tag)?;
            push_number(text, " ", *len)
        }
        DumpLine::Lost { disk } => push_number(text, "lost ", disk.0),
        _ => Ok(()),
    }
}

/// A line of the layer of files, or of those below.
fn push_file_line(text: &mut Vec<u8>, line: &DumpLine) -> Result<(), NoMemory>
    ensures ok { OnOk result (text.new.items ≡ text.old.items ++ file_line_text line.now) }
    ensures err { OnErr result (StartsWith text.new.items text.old.items) }
{
    match line {
        DumpLine::File {
            file,
            state,
            token,
            blocks,
            holds,
        } => {
            push_number(text, "file ", file.0)?;
            push_state(text, file_state(*state))?;
            push_token(text, " token ", *token)?;
            push_counts(text, " blocks ", *blocks, *holds)
        }
        _ => push_block_line(text, line),
    }
}

/// A directory, its parent and its state.
fn push_dir_front(
    text: &mut Vec<u8>,
    dir: DirId,
    parent: DirId,
    state: DirState,
) -> Result<(), NoMemory>
    ensures ok { OnOk result (text.new.items ≡ text.old.items
        ++ codes "dir " ++ decimal dir.0 ++ codes " parent " ++ decimal parent.0 ++ codes " " ++ dir_state_word state) }
    ensures err { OnErr result (StartsWith text.new.items text.old.items) }
{
    push_number(text, "dir ", dir.0)?;
    push_number(text, " parent ", parent.0)?;
    push_state(text, dir_state(state))
}

/// A dump line whose words are numbers and states; nothing for an entry, which has a name.
fn push_numbers(text: &mut Vec<u8>, line: &DumpLine) -> Result<(), NoMemory>
    ensures ok { OnOk result (text.new.items ≡ text.old.items ++ numbers_text line.now) }
    ensures err { OnErr result (StartsWith text.new.items text.old.items) }
{
    match line {
        DumpLine::Dir {
            dir,
            parent,
            state,
            entries,
            holds,
            moving,
        } => {
            push_dir_front(text, *dir, *parent, *state)?;
            push_counts(text, " entries ", *entries, *holds)?;
            push_op_behind(text, " moving ", *moving)
        }
        DumpLine::Turn { op, child } => {
            push_op(text, "turn ", *op)?;
            push_number(text, " ", child.0)
        }
        _ => push_file_line(text, line),
    }
}

fn push_entry(text: &mut Vec<u8>, key: &Key, node: Node, pin: Option<OpId>) -> Result<(), NoMemory>
    ensures ok { OnOk result (text.new.items ≡ text.old.items ++ dump_text (DumpLine.Entry key.now node pin)) }
    ensures err { OnErr result (StartsWith text.new.items text.old.items) }
{
    push_number(text, "entry ", key.dir.0)?;
    push_name(text, " ", &key.name)?;
    push_node(text, " ", node)?;
    push_op_behind(text, " pin ", pin)
}

/// Adds the words of a dump line, or for want of memory a part of them.
pub fn push_dump(text: &mut Vec<u8>, line: &DumpLine) -> Result<(), NoMemory>
    ensures ok { OnOk result (text.new.items ≡ text.old.items ++ dump_text line.now) }
    ensures err { OnErr result (StartsWith text.new.items text.old.items) }
{
    match line {
        DumpLine::Entry { key, node, pin } => push_entry(text, key, *node, *pin),
        _ => push_numbers(text, line),
    }
}
