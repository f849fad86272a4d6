ghost use Rattle.std.specs.Prelude.{◌≡◌, not, false};
ghost use Rattle.script_forms.specs.Clients.{takes_word as takes, state_after as after, goes_on as going};

use crate::verbs::is_text;
use tect_ids::Act;

/// What the lines of a script so far leave a client at.
#[derive(Clone, Copy, Debug, PartialEq, Eq)]
pub enum ClientState {
    /// It may begin a command.
    Idle,
    /// Its command may go on.
    Busy,
    /// It was stopped.
    Gone,
}

fn goes_on(word: &[u8]) -> bool
    ensures { result ≡ going word.now }
{
    is_text(word, "step") || is_text(word, "run") || is_text(word, "stop")
}

/// Whether a client in that state may have that word behind its name.
pub fn takes_word(state: ClientState, word: &[u8]) -> bool
    ensures { result ≡ takes state word.now }
{
    match state {
        ClientState::Idle => !goes_on(word),
        ClientState::Busy => goes_on(word),
        ClientState::Gone => false,
    }
}

/// The state in which an act leaves its client.
pub fn state_after(act: &Act) -> ClientState
    ensures { result ≡ after act.now }
{
    match act {
        Act::Do(_) => ClientState::Idle,
        Act::Begin(_) => ClientState::Busy,
        Act::Step(_) => ClientState::Busy,
        Act::Run => ClientState::Idle,
        Act::Stop => ClientState::Gone,
    }
}
