use crate::shards::KeptShards;
use entry_words::Refused;
use passes::{Commits, Pass};
use tect_calls::{AnyReply, Asked};

impl Commits for KeptShards {
    ghost use Rattle.kept_shards.specs.KeptStore.{Did};

    ghost counts = { λ w. w.counts };

    ghost done = { Did };

    fn commit(&mut self, pass: &mut Pass, asked: Asked) -> Result<AnyReply, Refused> {
        KeptShards::commit(self, pass, asked)
    }
}
