//! All commands as code, each as a program: the walk along its path, the commands on names, and those on the contents of files, which
//! `op_files` has. A command makes one request at a time and goes on at each reply. The state of a running command holds the tokens that
//! its next request needs, and each reply gives those that the request after it needs.
#![tactic(auto)]

// A part within another: where it goes on, the other is in that state of it.
macro_rules! within {
    ($state:path, $next:expr) => {
        match $next {
            Next::Goes { state } => Next::Goes {
                state: $state(state),
            },
            Next::Comes { result: answer } => Next::Comes { result: answer },
        }
    };
}

mod delete;
mod list;
mod look;
mod make;
mod operations;
mod places;
mod release;
mod rename;
mod running;
mod seal;
mod start;
mod walk;

pub use running::Running;
