ghost use Rattle.std.specs.Prelude.{◌≡◌, ◌↔◌, ℕ, IsTrue, IfSome, map, string_bytes};
ghost use Rattle.tect_app.specs.Modes.{SpellsReplay, SpellsWorkers, SpellsRace, SpellsMode, SpellsNone};

use script_words::read_number;

/// The most workers of a race.
const MAX_WORKERS: u32 = 64;

/// What the program is asked to do with a script.
#[derive(Clone, Copy, Debug, PartialEq, Eq)]
pub enum Mode {
    /// To play its lines on one thread.
    Replay,
    /// To play its clients side by side, on so many threads.
    Race { workers: u32 },
}

fn are_replay(words: &[String]) -> bool
    ensures { IsTrue result ↔ SpellsReplay (map string_bytes words.now) }
{
    match words {
        [word] => word.as_str() == "replay",
        _ => false,
    }
}

/// The number that the word spells, if a race may have so many workers.
fn worker_count(word: &str) -> Option<u32>
    ensures some { IfSome result (SpellsWorkers word.now) }
    ensures none { result ≡ None → (workers : ℕ) → SpellsWorkers word.now workers → ⊥ }
{
    let workers = read_number(word.as_bytes());
    if 1 <= workers && workers <= MAX_WORKERS {
        Some(workers)
    } else {
        None
    }
}

/// How many workers the words of a race ask for.
fn race_workers(words: &[String]) -> Option<u32>
    ensures some { IfSome result (SpellsRace (map string_bytes words.now)) }
    ensures none { result ≡ None → (workers : ℕ) → SpellsRace (map string_bytes words.now) workers → ⊥ }
{
    match words {
        [mode, option, workers] if mode.as_str() == "race" && option.as_str() == "--workers" => {
            worker_count(workers.as_str())
        }
        _ => None,
    }
}

/// The mode that the words ask for; `None` where they ask for none.
pub fn read_mode(words: &[String]) -> Option<Mode>
    ensures some { IfSome result (SpellsMode (map string_bytes words.now)) }
    ensures none { result ≡ None → SpellsNone (map string_bytes words.now) }
{
    if are_replay(words) {
        return Some(Mode::Replay);
    }
    let workers = race_workers(words)?;
    Some(Mode::Race { workers })
}
