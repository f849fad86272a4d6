ghost use Rattle.std.specs.Prelude.{◌≡◌};
ghost use Rattle.store_rules.specs.Outcomes.{changes, reply};

/// What a request comes to, before anything is changed.
#[derive(Drop)]
pub enum Outcome<R> {
    /// A refusal, or a reading: the shard stays as it is.
    Leaves(R),
    /// The shard is to be changed.
    Changes(R),
}

impl<R> Outcome<R> {
    /// Whether the shard is to be changed. It takes no memory.
    pub fn changes(&self) -> bool
        ensures { result ≡ changes self.now }
    {
        match self {
            Outcome::Leaves(_) => false,
            Outcome::Changes(_) => true,
        }
    }

    /// What is replied. It takes no memory.
    pub fn into_reply(self) -> R
        ensures { result ≡ reply self }
    {
        match self {
            Outcome::Leaves(reply) | Outcome::Changes(reply) => reply,
        }
    }
}
