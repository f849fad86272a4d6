ghost use Rattle.std.specs.Prelude.{◌≡◌, ◌∷◌, [], ◌+◌, ◌-◌, ◌<◌, ◌≤◌, ◌^◌, IfOk, OnOk, IsTrue, true, length};
ghost use Rattle.script_words.specs.Splitting.{parts, parts_behind};
ghost use Rattle.script_words.specs.WordForm.{is_client_name as client_name};
ghost use Rattle.script_words.specs.WordList.{words_left, spaced_length};
ghost use Rattle.script_forms.specs.Clients.{seen_after};
ghost use Rattle.script_forms.specs.Verbs.{served_world as served};
ghost use Rattle.script_forms.specs.Reading.{out_of_state, client_read, world_read, line_read};
ghost use Rattle.script_reader.specs.Taken.{Gives};

use crate::acts::{whole_act, whole_world};
use crate::clients::{Clients, is_one_too_many, note, state_of};
use crate::faults::LineFault;
use script_forms::{served_world, state_after, takes_word};
use script_words::{Limit, Words, is_client_name};
use std::alloc::Global;
use tect_ids::{Counts, Line, Name, NoMemory};

fn client_name(alloc: Global, word: &[u8]) -> Result<Name, NoMemory>
    ensures { IfOk result (λ name. name ≡ word.now) }
{
    // A client's name is a name, so memory alone can be wanting.
    match Name::new(alloc, word) {
        Ok(name) => Ok(name),
        Err(_) => Err(NoMemory),
    }
}

/// Whether the next word does not fit the client's state. A line without one lacks a word.
fn is_out_of_state(clients: &Clients, name: &Name, words: Words) -> bool
    ensures { result ≡ out_of_state clients.now.entries name.now (words_left words.entry) }
{
    let mut words = words;
    match words.next() {
        None => false,
        Some(word) => !takes_word(state_of(clients, name), word),
    }
}

/// A client's line, of which so many bytes are left from its name on.
fn client_line(
    alloc: Global,
    counts: Counts,
    clients: &mut Clients,
    name: Name,
    left: usize,
    words: Words,
) -> Result<Line, LineFault>
    requires few { length clients.old.entries ≤ 64 }
    requires size { left ≡ spaced_length (name ∷ words_left words) }
    ensures line { Gives result [] (client_read counts clients.old.entries name (words_left words.entry)) }
    ensures few { OnOk result (length clients.new.entries ≤ 64) }
    ensures seen { IfOk result (λ line. clients.new.entries ≡ seen_after clients.old.entries line) }
{
    if is_out_of_state(clients, &name, words) {
        return Err(LineFault::Wrong { left });
    }
    if is_one_too_many(clients, &name) {
        return Err(LineFault::Large(Limit::Clients));
    }
    let mut words = words;
    let act = whole_act(alloc, counts, &mut words)?;
    let client = name.clone()?;
    let actor = note(clients, name, state_after(&act))?;
    Ok(Line::Client { client, actor, act })
}

fn world_line(counts: Counts, word: &[u8], left: usize, words: Words) -> Result<Line, LineFault>
    requires { left ≡ spaced_length (word.now ∷ words_left words) }
    ensures { Gives result [] (world_read counts (served word.now) word.now (words_left words.entry)) }
{
    let mut words = words;
    match served_world(word) {
        Some(verb) => whole_world(counts, verb, &mut words),
        None => Err(LineFault::Wrong { left }),
    }
}

/// Reads a line behind the store line, and notes its client's state.
pub fn read_line(
    alloc: Global,
    counts: Counts,
    clients: &mut Clients,
    line: &[u8],
) -> Result<Line, LineFault>
    requires { length clients.old.entries ≤ 64 }
    ensures line { Gives result [] (line_read counts clients.old.entries (parts 32 line.now)) }
    ensures few { OnOk result (length clients.new.entries ≤ 64) }
    ensures seen { IfOk result (λ line. clients.new.entries ≡ seen_after clients.old.entries line) }
{
    let mut words = Words::new(line);
    let left = words.left();
    match words.next() {
        None => Err(LineFault::Wrong { left }),
        Some(word) => {
            if is_client_name(word) {
                let name = client_name(alloc, word)?;
                client_line(alloc, counts, clients, name, left, words)
            } else {
                world_line(counts, word, left, words)
            }
        }
    }
}
