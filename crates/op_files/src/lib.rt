//! The commands on the contents of files as code: the requests that open, append, blocks and read make, one at a time, and how each goes on
//! at a reply. The state of a running command holds the tokens that its next request needs, and each reply gives those that the request
//! after it needs.
#![tactic(auto)]

// What a look for a file has found: the command goes on with the file. A directory has no contents.
macro_rules! found_file {
    ($place:expr, $key:expr, $reply:expr, $file:ident => $state:expr) => {
        match $reply.as_found() {
            None => Next::Comes {
                result: refused($place, $key, $reply),
            },
            Some(Node::Dir(_)) => Next::Comes {
                result: Answer::IsDir,
            },
            Some(Node::File($file)) => Next::Goes { state: $state },
        }
    };
}

pub mod append;
pub mod blocks;
pub mod open;
mod places;
pub mod read;
mod refusals;

pub use refusals::file_refused;
