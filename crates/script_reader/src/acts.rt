ghost use Rattle.std.specs.Prelude.{◌≡◌, [], true};
ghost use Rattle.script_words.specs.Splitting.{parts};
ghost use Rattle.script_words.specs.WordList.{words_left};
ghost use Rattle.script_forms.specs.Form.{read, ended};
ghost use Rattle.script_forms.specs.Grammar.{act_behind as act_form_behind, steps_form, act_form, world_behind, store_form};
ghost use Rattle.script_reader.specs.Taken.{Gives};

use crate::commands::{any_command, command};
use crate::faults::LineFault;
use crate::takes::{take_act_word, take_count, take_end, take_number, take_text};
use script_forms::{ActWord, Verb, WorldVerb};
use script_words::{Limit, Words, read_number};
use std::alloc::Global;
use tect_ids::{Act, Counts, DiskId, Line};

fn do_command(
    alloc: Global,
    counts: Counts,
    verb: Verb,
    words: &mut Words,
) -> Result<Act, LineFault>
    ensures { Gives result (words_left words.new) (read true (act_form_behind counts (ActWord.Do verb)) (words_left words.old)) }
{
    let command = command(alloc, counts, verb, words)?;
    Ok(Act::Do(command))
}

fn begin_command(alloc: Global, counts: Counts, words: &mut Words) -> Result<Act, LineFault>
    ensures { Gives result (words_left words.new) (read true (act_form_behind counts ActWord.Begin) (words_left words.old)) }
{
    let command = any_command(alloc, counts, words)?;
    Ok(Act::Begin(command))
}

fn steps(words: &mut Words) -> Result<Act, LineFault>
    ensures { Gives result (words_left words.new) (read true steps_form (words_left words.old)) }
{
    let word = take_number(words, 1, 65_535)?;
    Ok(Act::Step(read_number(word)))
}

fn act_behind(
    alloc: Global,
    counts: Counts,
    act: ActWord,
    words: &mut Words,
) -> Result<Act, LineFault>
    ensures { Gives result (words_left words.new) (read true (act_form_behind counts act) (words_left words.old)) }
{
    match act {
        ActWord::Do(verb) => do_command(alloc, counts, verb, words),
        ActWord::Begin => begin_command(alloc, counts, words),
        ActWord::Step => steps(words),
        ActWord::Run => Ok(Act::Run),
        ActWord::Stop => Ok(Act::Stop),
    }
}

fn act(alloc: Global, counts: Counts, words: &mut Words) -> Result<Act, LineFault>
    ensures { Gives result (words_left words.new) (read true (act_form counts) (words_left words.old)) }
{
    let word = take_act_word(words)?;
    act_behind(alloc, counts, word, words)
}

/// What stands behind a client's name, up to the line's end.
pub fn whole_act(alloc: Global, counts: Counts, words: &mut Words) -> Result<Act, LineFault>
    ensures { Gives result [] (ended (read true (act_form counts) (words_left words.old))) }
{
    let act = act(alloc, counts, words)?;
    take_end(words)?;
    Ok(act)
}

fn lose(counts: Counts, words: &mut Words) -> Result<Line, LineFault>
    ensures { Gives result (words_left words.new) (read true (world_behind counts WorldVerb.Lose) (words_left words.old)) }
{
    let word = take_number(words, 0, counts.disks.saturating_sub(1))?;
    Ok(Line::Lose(DiskId(read_number(word))))
}

fn sweep_all(counts: Counts, words: &mut Words) -> Result<Line, LineFault>
    ensures { Gives result (words_left words.new) (read true (world_behind counts WorldVerb.Sweep) (words_left words.old)) }
{
    take_text(words, "all")?;
    Ok(Line::Sweep)
}

fn world(counts: Counts, verb: WorldVerb, words: &mut Words) -> Result<Line, LineFault>
    ensures { Gives result (words_left words.new) (read true (world_behind counts verb) (words_left words.old)) }
{
    match verb {
        WorldVerb::Sweep => sweep_all(counts, words),
        WorldVerb::Lose => lose(counts, words),
        WorldVerb::Dump => Ok(Line::Dump),
    }
}

/// What stands behind the first word of a world line, up to the line's end.
pub fn whole_world(counts: Counts, verb: WorldVerb, words: &mut Words) -> Result<Line, LineFault>
    ensures { Gives result [] (ended (read true (world_behind counts verb) (words_left words.old))) }
{
    let line = world(counts, verb, words)?;
    take_end(words)?;
    Ok(line)
}

fn store(words: &mut Words) -> Result<Counts, LineFault>
    ensures { Gives result (words_left words.new) (read true store_form (words_left words.old)) }
{
    take_text(words, "store")?;
    let names = take_count(words, Limit::Shards, 64)?;
    let files = take_count(words, Limit::Shards, 64)?;
    let blocks = take_count(words, Limit::Shards, 64)?;
    let disks = take_count(words, Limit::Disks, 64)?;
    let copies = take_count(words, Limit::Copies, 5)?;
    Ok(Counts {
        names: read_number(names),
        files: read_number(files),
        blocks: read_number(blocks),
        disks: read_number(disks),
        copies: read_number(copies),
    })
}

/// A whole store line.
pub fn whole_store(line: &[u8]) -> Result<Counts, LineFault>
    ensures { Gives result [] (ended (read true store_form (parts 32 line.now))) }
{
    let mut words = Words::new(line);
    let counts = store(&mut words)?;
    take_end(&mut words)?;
    Ok(counts)
}
