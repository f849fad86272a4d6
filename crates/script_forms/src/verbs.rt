ghost use Rattle.std.specs.Prelude.{◌≡◌, map};
ghost use Rattle.std.specs.Str.{bytes_eq};
ghost use Rattle.script_forms.specs.Verbs.{path_command as command_of, served_among as among, served_verb as served};
ghost use Rattle.script_forms.specs.Verbs.{act_word_of as act_word, served_world as world};

use tect_ids::{Command, Path};

/// The commands of one path.
#[derive(Clone, Copy, Debug, PartialEq, Eq)]
pub enum PathVerb {
    Look,
    List,
    Create,
    Mkdir,
    Delete,
    Rmdir,
    Drop,
    Seal,
    Open,
    Blocks,
    Read,
}

/// The commands of clients.
#[derive(Clone, Copy, Debug, PartialEq, Eq)]
pub enum Verb {
    OnPath(PathVerb),
    Rename,
    Move,
    Append,
    Sweep,
    Repair,
}

/// What the second word of a client's line begins.
#[derive(Clone, Copy, Debug, PartialEq, Eq)]
pub enum ActWord {
    Do(Verb),
    Begin,
    Step,
    Run,
    Stop,
}

/// The world lines.
#[derive(Clone, Copy, Debug, PartialEq, Eq)]
pub enum WorldVerb {
    Sweep,
    Lose,
    Dump,
}

/// A word, what it begins, and whether the store serves that.
type Row<T> = (&'static str, T, bool);

/// The one table of commands.
const VERBS: [Row<Verb>; 16] = [
    ("look", Verb::OnPath(PathVerb::Look), true),
    ("list", Verb::OnPath(PathVerb::List), true),
    ("create", Verb::OnPath(PathVerb::Create), true),
    ("mkdir", Verb::OnPath(PathVerb::Mkdir), true),
    ("delete", Verb::OnPath(PathVerb::Delete), true),
    ("rmdir", Verb::OnPath(PathVerb::Rmdir), false),
    ("drop", Verb::OnPath(PathVerb::Drop), false),
    ("seal", Verb::OnPath(PathVerb::Seal), true),
    ("open", Verb::OnPath(PathVerb::Open), true),
    ("blocks", Verb::OnPath(PathVerb::Blocks), true),
    ("read", Verb::OnPath(PathVerb::Read), true),
    ("rename", Verb::Rename, true),
    ("move", Verb::Move, false),
    ("append", Verb::Append, true),
    ("sweep", Verb::Sweep, false),
    ("repair", Verb::Repair, false),
];

/// The one table of world lines.
const WORLD_VERBS: [Row<WorldVerb>; 3] = [
    ("sweep", WorldVerb::Sweep, false),
    ("lose", WorldVerb::Lose, false),
    ("dump", WorldVerb::Dump, true),
];

/// The command of one path.
pub fn path_command(verb: PathVerb, path: Path) -> Command
    ensures { result ≡ command_of verb path }
{
    match verb {
        PathVerb::Look => Command::Look { path },
        PathVerb::List => Command::List { path },
        PathVerb::Create => Command::Create { path },
        PathVerb::Mkdir => Command::Mkdir { path },
        PathVerb::Delete => Command::Delete { path },
        PathVerb::Rmdir => Command::Rmdir { path },
        PathVerb::Drop => Command::Drop { path },
        PathVerb::Seal => Command::Seal { path },
        PathVerb::Open => Command::Open { path },
        PathVerb::Blocks => Command::Blocks { path },
        PathVerb::Read => Command::Read { path },
    }
}

/// Whether the word is that text.
pub fn is_text(word: &[u8], text: &str) -> bool
    ensures { result ≡ bytes_eq word.now text.now }
{
    word == text.as_bytes()
}

/// What the word begins, by the first row that has it, if that is served.
fn served_among<T: Copy>(rows: &[Row<T>], word: &[u8]) -> Option<T>
    ensures { result ≡ among (map (λ row. (row.0.now, row.1, row.2)) rows.now) word.now }
{
    for (text, begun, is_served) in rows {
        if is_text(word, text) {
            return if *is_served { Some(*begun) } else { None };
        }
    }
    None
}

/// The command that the word begins, if the store serves it.
pub fn served_verb(word: &[u8]) -> Option<Verb>
    ensures { result ≡ served word.now }
{
    served_among(&VERBS, word)
}

/// What the second word of a client's line begins.
pub fn act_word_of(word: &[u8]) -> Option<ActWord>
    ensures { result ≡ act_word word.now }
{
    if is_text(word, "begin") {
        Some(ActWord::Begin)
    } else if is_text(word, "step") {
        Some(ActWord::Step)
    } else if is_text(word, "run") {
        Some(ActWord::Run)
    } else if is_text(word, "stop") {
        Some(ActWord::Stop)
    } else {
        match served_verb(word) {
            Some(verb) => Some(ActWord::Do(verb)),
            None => None,
        }
    }
}

/// The world line that the word begins, if the store serves it.
pub fn served_world(word: &[u8]) -> Option<WorldVerb>
    ensures { result ≡ world word.now }
{
    served_among(&WORLD_VERBS, word)
}
