ghost use Rattle.std.specs.Prelude.{◌≡◌, ◌++◌, [], ◌∷◌, OnOk, OnErr, codes};
ghost use Rattle.std.specs.Fmt.{decimal};
ghost use Rattle.script_words.specs.WordText.{path_text, hex_text, layer_word as layer_text};
ghost use Rattle.script_forms.specs.LineText.{behind, command_words, act_words, counts_words, line_words, line_text};

use script_words::{layer_word, push_hex, push_path};
use std::alloc::Global;
use tect_ids::{Act, Bytes, Command, Counts, Layer, Line, NoMemory, Path};

/// Adds a space and a word.
fn push_word(text: &mut Vec<u8>, word: &[u8]) -> Result<(), NoMemory>
    ensures { OnOk result (text.new.items ≡ text.old.items ++ behind (word.now ∷ [])) }
{
    text.push(b' ')?;
    text.extend_from_slice(word)?;
    Ok(())
}

fn push_number(alloc: Global, text: &mut Vec<u8>, number: u32) -> Result<(), NoMemory>
    ensures { OnOk result (text.new.items ≡ text.old.items ++ behind (decimal number ∷ [])) }
{
    let number = format!(in alloc; " {number}")?;
    text.extend_from_slice(number.as_bytes())?;
    Ok(())
}

fn push_path_word(text: &mut Vec<u8>, path: &Path) -> Result<(), NoMemory>
    ensures { OnOk result (text.new.items ≡ text.old.items ++ behind (path_text path.now ∷ [])) }
{
    text.push(b' ')?;
    push_path(text, path)
}

/// A command of one path.
fn push_on_path(text: &mut Vec<u8>, word: &[u8], path: &Path) -> Result<(), NoMemory>
    ensures { OnOk result (text.new.items ≡ text.old.items ++ behind (word.now ∷ path_text path.now ∷ [])) }
{
    push_word(text, word)?;
    push_path_word(text, path)
}

/// A command of two paths.
fn push_on_paths(text: &mut Vec<u8>, word: &[u8], from: &Path, to: &Path) -> Result<(), NoMemory>
    ensures { OnOk result (text.new.items ≡ text.old.items ++ behind (word.now ∷ path_text from.now ∷ path_text to.now ∷ [])) }
{
    push_on_path(text, word, from)?;
    push_path_word(text, to)
}

fn push_append(text: &mut Vec<u8>, path: &Path, bytes: &Bytes) -> Result<(), NoMemory>
    ensures { OnOk result (text.new.items ≡ text.old.items ++ behind (command_words (Command.Append path.now bytes.now))) }
{
    push_on_path(text, b"append", path)?;
    text.push(b' ')?;
    push_hex(text, bytes.as_slice())
}

fn push_sweep(alloc: Global, text: &mut Vec<u8>, layer: Layer, index: u32) -> Result<(), NoMemory>
    ensures { OnOk result (text.new.items ≡ text.old.items ++ behind (command_words (Command.Sweep layer index))) }
{
    push_word(text, b"sweep")?;
    push_word(text, layer_word(layer).as_bytes())?;
    push_number(alloc, text, index)
}

fn push_repair(alloc: Global, text: &mut Vec<u8>, disk: u32, index: u32) -> Result<(), NoMemory>
    ensures { OnOk result (text.new.items ≡ text.old.items ++ behind (codes "repair" ∷ decimal disk ∷ decimal index ∷ [])) }
{
    push_word(text, b"repair")?;
    push_number(alloc, text, disk)?;
    push_number(alloc, text, index)
}

fn push_sweep_all(text: &mut Vec<u8>) -> Result<(), NoMemory>
    ensures { OnOk result (text.new.items ≡ text.old.items ++ behind (codes "sweep" ∷ codes "all" ∷ [])) }
{
    push_word(text, b"sweep")?;
    push_word(text, b"all")
}

fn push_lose(alloc: Global, text: &mut Vec<u8>, disk: u32) -> Result<(), NoMemory>
    ensures { OnOk result (text.new.items ≡ text.old.items ++ behind (codes "lose" ∷ decimal disk ∷ [])) }
{
    push_word(text, b"lose")?;
    push_number(alloc, text, disk)
}

fn push_command(alloc: Global, text: &mut Vec<u8>, command: &Command) -> Result<(), NoMemory>
    ensures { OnOk result (text.new.items ≡ text.old.items ++ behind (command_words command.now)) }
{
    match command {
        Command::Look { path } => push_on_path(text, b"look", path),
        Command::List { path } => push_on_path(text, b"list", path),
        Command::Create { path } => push_on_path(text, b"create", path),
        Command::Mkdir { path } => push_on_path(text, b"mkdir", path),
        Command::Delete { path } => push_on_path(text, b"delete", path),
        Command::Rename { from, to } => push_on_paths(text, b"rename", from, to),
        Command::Move { from, to } => push_on_paths(text, b"move", from, to),
        Command::Rmdir { path } => push_on_path(text, b"rmdir", path),
        Command::Drop { path } => push_on_path(text, b"drop", path),
        Command::Seal { path } => push_on_path(text, b"seal", path),
        Command::Open { path } => push_on_path(text, b"open", path),
        Command::Append { path, bytes } => push_append(text, path, bytes),
        Command::Blocks { path } => push_on_path(text, b"blocks", path),
        Command::Read { path } => push_on_path(text, b"read", path),
        Command::Sweep { layer, index } => push_sweep(alloc, text, *layer, *index),
        Command::Repair { disk, index } => push_repair(alloc, text, disk.0, *index),
        Command::SweepAll => push_sweep_all(text),
        Command::Lose { disk } => push_lose(alloc, text, disk.0),
    }
}

fn push_step(alloc: Global, text: &mut Vec<u8>, count: u32) -> Result<(), NoMemory>
    ensures { OnOk result (text.new.items ≡ text.old.items ++ behind (codes "step" ∷ decimal count ∷ [])) }
{
    push_word(text, b"step")?;
    push_number(alloc, text, count)
}

fn push_begin(alloc: Global, text: &mut Vec<u8>, command: &Command) -> Result<(), NoMemory>
    ensures { OnOk result (text.new.items ≡ text.old.items ++ behind (codes "begin" ∷ command_words command.now)) }
{
    push_word(text, b"begin")?;
    push_command(alloc, text, command)
}

fn push_act(alloc: Global, text: &mut Vec<u8>, act: &Act) -> Result<(), NoMemory>
    ensures { OnOk result (text.new.items ≡ text.old.items ++ behind (act_words act.now)) }
{
    match act {
        Act::Do(command) => push_command(alloc, text, command),
        Act::Begin(command) => push_begin(alloc, text, command),
        Act::Step(count) => push_step(alloc, text, *count),
        Act::Run => push_word(text, b"run"),
        Act::Stop => push_word(text, b"stop"),
    }
}

fn push_store(alloc: Global, text: &mut Vec<u8>, counts: Counts) -> Result<(), NoMemory>
    ensures { OnOk result (text.new.items ≡ text.old.items ++ line_text (Line.Store counts)) }
{
    text.extend_from_slice(b"store")?;
    push_number(alloc, text, counts.names)?;
    push_number(alloc, text, counts.files)?;
    push_number(alloc, text, counts.blocks)?;
    push_number(alloc, text, counts.disks)?;
    push_number(alloc, text, counts.copies)
}

fn push_line(alloc: Global, text: &mut Vec<u8>, line: &Line) -> Result<(), NoMemory>
    ensures { OnOk result (text.new.items ≡ text.old.items ++ line_text line.now) }
{
    match line {
        Line::Store(counts) => push_store(alloc, text, *counts),
        Line::Client {
            client,
            actor: _,
            act,
        } => {
            text.extend_from_slice(client.bytes())?;
            push_act(alloc, text, act)
        }
        Line::Sweep => {
            text.extend_from_slice(b"sweep all")?;
            Ok(())
        }
        Line::Lose(disk) => {
            text.extend_from_slice(b"lose")?;
            push_number(alloc, text, disk.0)
        }
        Line::Dump => {
            text.extend_from_slice(b"dump")?;
            Ok(())
        }
    }
}

/// Adds a line of a script, with its line feed. For want of memory `out` stays as it was.
pub fn write_line(line: &Line, out: &mut Vec<u8>) -> Result<(), NoMemory>
    ensures ok { OnOk result (out.new.items ≡ out.old.items ++ line_text line.now ++ 10 ∷ []) }
    ensures err { OnErr result (out.new.items ≡ out.old.items) }
{
    let alloc = *out.allocator();
    let mut text = Vec::new(alloc);
    push_line(alloc, &mut text, line)?;
    text.push(b'\n')?;
    out.extend_from_slice(&text)?;
    Ok(())
}
