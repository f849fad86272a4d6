use tect_calls::MadeDir;
use tect_ids::{Name, PathPart};

/// A command that walks along a path, and does its operation in the directory to which the path leads.
#[derive(Drop)]
pub enum Walking<O, S> {
    /// The name is to be looked up in the directory, and then those in `rest`; then the operation begins.
    Way {
        dir: MadeDir,
        name: Name,
        rest: PathPart,
        operation: O,
    },
    /// The operation runs.
    There {
        state: S,
    },
}
