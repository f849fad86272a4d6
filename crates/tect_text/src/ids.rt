ghost use Rattle.std.specs.Prelude.{◌≡◌, ◌++◌, OnOk, OnErr};
ghost use Rattle.std.specs.Io.{StartsWith};
ghost use Rattle.tect_text.specs.IdText.{op_text, tag_text, node_text, node_or_none};

use crate::words::{push_number, push_word};
use tect_ids::{NoMemory, Node, OpId, Tag};

/// Adds a word, and an op: its actor and number.
pub fn push_op(text: &mut Vec<u8>, word: &str, op: OpId) -> Result<(), NoMemory>
    ensures ok { OnOk result (text.new.items ≡ text.old.items ++ word.now ++ op_text op) }
    ensures err { OnErr result (StartsWith text.new.items text.old.items) }
{
    push_number(text, word, op.actor)?;
    push_number(text, ".", op.number)
}

/// Adds a word, and a tag: its op and number.
pub fn push_tag(text: &mut Vec<u8>, word: &str, tag: Tag) -> Result<(), NoMemory>
    ensures ok { OnOk result (text.new.items ≡ text.old.items ++ word.now ++ tag_text tag) }
    ensures err { OnErr result (StartsWith text.new.items text.old.items) }
{
    push_op(text, word, tag.op)?;
    push_number(text, ".", tag.part)
}

/// Adds a word, and what an entry names: its kind and identifier.
pub fn push_node(text: &mut Vec<u8>, word: &str, node: Node) -> Result<(), NoMemory>
    ensures ok { OnOk result (text.new.items ≡ text.old.items ++ word.now ++ node_text node) }
    ensures err { OnErr result (StartsWith text.new.items text.old.items) }
{
    push_word(text, word)?;
    match node {
        Node::Dir(dir) => push_number(text, "dir ", dir.0),
        Node::File(file) => push_number(text, "file ", file.0),
    }
}

/// Adds a word, and what an entry names now, or `none`.
pub fn push_node_or_none(text: &mut Vec<u8>, word: &str, node: Option<Node>) -> Result<(), NoMemory>
    ensures ok { OnOk result (text.new.items ≡ text.old.items ++ word.now ++ node_or_none node) }
    ensures err { OnErr result (StartsWith text.new.items text.old.items) }
{
    match node {
        Some(node) => push_node(text, word, node),
        None => {
            push_word(text, word)?;
            push_word(text, "none")
        }
    }
}
