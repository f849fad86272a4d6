ghost use Rattle.std.specs.Prelude.{◌≡◌};
ghost use Rattle.script_words.specs.LimitText.{limit_word, limit_value};

/// What may be too large in an input.
#[derive(Clone, Copy, Debug, PartialEq, Eq)]
pub enum Limit {
    /// Bytes of a script.
    Script,
    /// Lines of a script.
    Lines,
    /// Bytes of a line, without its line feed.
    Line,
    Clients,
    /// Shards of one layer.
    Shards,
    Disks,
    Copies,
    /// Bytes of a name.
    Name,
    /// Names of a path.
    Depth,
    /// Bytes of a block.
    Block,
    /// Bytes of a trace.
    Trace,
}

impl Limit {
    /// The word by which the limit is named to the user.
    pub fn word(self) -> &'static str
        ensures { result.now ≡ limit_word self }
    {
        match self {
            Limit::Script => "script",
            Limit::Lines => "lines",
            Limit::Line => "line",
            Limit::Clients => "clients",
            Limit::Shards => "shards",
            Limit::Disks => "disks",
            Limit::Copies => "copies",
            Limit::Name => "name",
            Limit::Depth => "depth",
            Limit::Block => "block",
            Limit::Trace => "trace",
        }
    }

    /// The greatest number that is allowed.
    pub fn value(self) -> u64
        ensures { result ≡ limit_value self }
    {
        match self {
            Limit::Script => 67_108_864,
            Limit::Lines => 65_536,
            Limit::Line => 70_000,
            Limit::Clients => 64,
            Limit::Shards => 64,
            Limit::Disks => 64,
            Limit::Copies => 5,
            Limit::Name => 255,
            Limit::Depth => 256,
            Limit::Block => 32_768,
            Limit::Trace => 268_435_456,
        }
    }
}

/// Whether a word is of a form.
#[derive(Clone, Copy, Debug, PartialEq, Eq)]
pub enum Fit {
    Fits,
    /// It is of the form and passes that limit.
    Over(Limit),
    Unfit,
}
