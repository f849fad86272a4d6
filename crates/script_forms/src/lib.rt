//! The forms of a script's lines, word after word, and what spells a whole script. Here are the words that begin a command or
//! a world line, the state of a client, and why a script is not read.
#![tactic(auto)]

mod clients;
mod faults;
mod verbs;

pub use clients::{ClientState, state_after, takes_word};
pub use faults::ScriptFault;
pub use verbs::{
    ActWord, PathVerb, Verb, WorldVerb, act_word_of, is_text, path_command, served_verb,
    served_world,
};
