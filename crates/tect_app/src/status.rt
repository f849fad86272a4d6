ghost use Rattle.std.specs.Prelude.{◌≡◌};
ghost use Rattle.tect_app.specs.Statuses.{status_number};

/// How the program ends.
#[derive(Clone, Copy, Debug, PartialEq, Eq)]
pub enum Status {
    /// The input was read, and its whole output written.
    Ok,
    /// The words are no mode.
    Usage,
    /// The input is no script, by its form.
    BadScript,
    /// The source failed.
    ReadFault,
    /// The sink failed.
    WriteFault,
    /// There was no memory.
    NoMemory,
    /// What workers kept of a race is not what its places kept of it.
    Split,
    /// The input passes a limit.
    TooLarge,
}

impl Status {
    /// The exit status of the program.
    pub fn number(self) -> u8
        ensures { result ≡ status_number self }
    {
        match self {
            Status::Ok => 0,
            Status::Usage => 2,
            Status::BadScript => 3,
            Status::ReadFault => 4,
            Status::WriteFault => 5,
            Status::NoMemory => 6,
            Status::Split => 7,
            Status::TooLarge => 8,
        }
    }
}
