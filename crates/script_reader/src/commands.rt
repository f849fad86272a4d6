ghost use Rattle.std.specs.Prelude.{◌≡◌, true};
ghost use Rattle.script_words.specs.WordList.{words_left};
ghost use Rattle.script_forms.specs.Form.{read};
ghost use Rattle.script_forms.specs.Grammar.{places_of as places, path_form, rename_form, move_form, append_form, sweep_form, repair_form};
ghost use Rattle.script_forms.specs.Grammar.{command_form, any_command};
ghost use Rattle.script_reader.specs.Taken.{Gives};

use crate::faults::LineFault;
use crate::takes::{take_hex, take_layer, take_number, take_path, take_sibling, take_verb};
use script_forms::{PathVerb, Verb, path_command};
use script_words::{Words, read_hex, read_number, read_path};
use std::alloc::Global;
use tect_ids::{Command, Counts, DiskId, Layer};

fn on_path(alloc: Global, verb: PathVerb, words: &mut Words) -> Result<Command, LineFault>
    ensures { Gives result (words_left words.new) (read true (path_form verb) (words_left words.old)) }
{
    let word = take_path(words)?;
    let path = read_path(alloc, word)?;
    Ok(path_command(verb, path))
}

fn rename(alloc: Global, words: &mut Words) -> Result<Command, LineFault>
    ensures { Gives result (words_left words.new) (read true rename_form (words_left words.old)) }
{
    let first = take_path(words)?;
    let second = take_sibling(words, first)?;
    let from = read_path(alloc, first)?;
    let to = read_path(alloc, second)?;
    Ok(Command::Rename { from, to })
}

fn move_to(alloc: Global, words: &mut Words) -> Result<Command, LineFault>
    ensures { Gives result (words_left words.new) (read true move_form (words_left words.old)) }
{
    let first = take_path(words)?;
    let second = take_path(words)?;
    let from = read_path(alloc, first)?;
    let to = read_path(alloc, second)?;
    Ok(Command::Move { from, to })
}

fn append(alloc: Global, words: &mut Words) -> Result<Command, LineFault>
    ensures { Gives result (words_left words.new) (read true append_form (words_left words.old)) }
{
    let first = take_path(words)?;
    let second = take_hex(words)?;
    let path = read_path(alloc, first)?;
    let bytes = read_hex(alloc, second)?;
    Ok(Command::Append { path, bytes })
}

fn places_of(counts: Counts, layer: Layer) -> u32
    ensures { result ≡ places counts layer }
{
    match layer {
        Layer::Names => counts.names,
        Layer::Files => counts.files,
        Layer::Blocks => counts.blocks,
        Layer::Disks => counts.disks,
    }
}

fn sweep(counts: Counts, words: &mut Words) -> Result<Command, LineFault>
    ensures { Gives result (words_left words.new) (read true (sweep_form counts) (words_left words.old)) }
{
    let layer = take_layer(words)?;
    let most = places_of(counts, layer).saturating_sub(1);
    let word = take_number(words, 0, most)?;
    let index = read_number(word);
    Ok(Command::Sweep { layer, index })
}

fn repair(counts: Counts, words: &mut Words) -> Result<Command, LineFault>
    ensures { Gives result (words_left words.new) (read true (repair_form counts) (words_left words.old)) }
{
    let first = take_number(words, 0, counts.disks.saturating_sub(1))?;
    let second = take_number(words, 0, counts.blocks.saturating_sub(1))?;
    let disk = DiskId(read_number(first));
    let index = read_number(second);
    Ok(Command::Repair { disk, index })
}

/// What stands behind the first word of a command.
pub fn command(
    alloc: Global,
    counts: Counts,
    verb: Verb,
    words: &mut Words,
) -> Result<Command, LineFault>
    ensures { Gives result (words_left words.new) (read true (command_form counts verb) (words_left words.old)) }
{
    match verb {
        Verb::OnPath(verb) => on_path(alloc, verb, words),
        Verb::Rename => rename(alloc, words),
        Verb::Move => move_to(alloc, words),
        Verb::Append => append(alloc, words),
        Verb::Sweep => sweep(counts, words),
        Verb::Repair => repair(counts, words),
    }
}

/// A whole command.
pub fn any_command(alloc: Global, counts: Counts, words: &mut Words) -> Result<Command, LineFault>
    ensures { Gives result (words_left words.new) (read true (any_command counts) (words_left words.old)) }
{
    let verb = take_verb(words)?;
    command(alloc, counts, verb, words)
}
