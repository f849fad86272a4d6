ghost use Rattle.std.specs.Prelude.{◌≡◌, Bool, true, false, IfOk, OnOk, OnErr, IsOk};
ghost use Rattle.tect_ids.specs.declared.ids.Layer.{Layer};
ghost use Rattle.store_rules.specs.declared.any.AnyReq.{AnyReq};
ghost use Rattle.store_rules.specs.declared.any.AnyReply.{AnyReply};
ghost use Rattle.store_rules.specs.Outcomes.{changes, reply};

use store_rules::Outcome;
use tect_calls::{AnyReply, AnyReq};
use tect_ids::{Layer, NoMemory};

/// A machine that answers one request at a time.
pub trait Machine: Drop {
    type Req: Drop;

    type Reply: Drop;

    /// The layer of which it is a shard.
    ghost layer: { Layer };

    /// A request and a reply as all places know them.
    ghost wide: { Self.Req → AnyReq };

    ghost wide_reply: { Self.Reply → AnyReply };

    /// The machine after a request, and what it replies.
    ghost after: { Self → AnyReq → Self };

    ghost answer: { Self → AnyReq → AnyReply };

    /// Whether a request changes the machine.
    ghost alters: { Self → AnyReq → Bool };

    /// The machine with which a place opens, with the root or without, and whether a machine has the root.
    ghost opening: { Bool → Self };

    ghost rooted: { Self → Bool };

    /// In this state the request takes no memory, and it holds no name.
    ghost is_free: { Self → AnyReq → Bool };

    /// The layer of which it is a shard. It takes no memory.
    fn layer() -> Layer
        ensures { result ≡ layer };

    /// Whether the root stands here. It takes no memory.
    fn has_root(&self) -> bool
        ensures { result ≡ rooted self.now };

    /// What `step` would reply, and whether it would change the machine. It changes nothing.
    fn decide(&self, req: &Self::Req) -> Result<Outcome<Self::Reply>, NoMemory>
        ensures answers { IfOk result (λ x. wide_reply (reply x) ≡ answer self.now (wide req.now)) }
        ensures changes { IfOk result (λ x. changes x ≡ alters self.now (wide req.now)) }
        ensures free { is_free self.now (wide req.now) ≡ true → IsOk result };

    /// Makes the change of a request that was decided to change the machine. For want of memory nothing is changed.
    fn apply(&mut self, req: &Self::Req) -> Result<(), NoMemory>
        requires { alters self.old (wide req.now) ≡ true }
        ensures ok { OnOk result (self.new ≡ after self.old (wide req.now)) }
        ensures err { OnErr result (self.new ≡ self.old) }
        ensures free { is_free self.old (wide req.now) ≡ true → IsOk result };

    /// The request itself, as all places know it. It takes no memory.
    fn own(req: Self::Req) -> AnyReq
        ensures { result ≡ wide req };

    /// The request once more, as all places know it.
    fn copy_req(req: &Self::Req) -> Result<AnyReq, NoMemory>
        ensures same { IfOk result (λ r. r ≡ wide req.now) }
        ensures free { (s : Self) → is_free s (wide req.now) ≡ true → IsOk result };

    /// The reply once more, as all places know it.
    fn copy_reply(reply: &Self::Reply) -> Result<AnyReply, NoMemory>
        ensures same { IfOk result (λ r. r ≡ wide_reply reply.now) }
        ensures free { (s : Self) (q : AnyReq) → is_free s q ≡ true → wide_reply reply.now ≡ answer s q → IsOk result };

    /// What `step` would reply. It changes nothing.
    fn reply(&self, req: &Self::Req) -> Result<Self::Reply, NoMemory>
        ensures ok { IfOk result (λ r. wide_reply r ≡ answer self.now (wide req.now)) }
        ensures free { is_free self.now (wide req.now) ≡ true → IsOk result }
    {
        Ok(self.decide(req)?.into_reply())
    }

    /// Does the request, and replies. For want of memory nothing is changed.
    fn step(&mut self, req: &Self::Req) -> Result<Self::Reply, NoMemory>
        ensures ok { IfOk result (λ r. (wide_reply r ≡ answer self.old (wide req.now)) × (self.new ≡ after self.old (wide req.now))) }
        ensures err { OnErr result (self.new ≡ self.old) }
        ensures free { is_free self.old (wide req.now) ≡ true → IsOk result }
    {
        let outcome = self.decide(req)?;
        if outcome.changes() {
            self.apply(req)?;
        }
        Ok(outcome.into_reply())
    }

    /// The request and its reply once more, as all places know them.
    fn widen(req: &Self::Req, reply: &Self::Reply) -> Result<(AnyReq, AnyReply), NoMemory>
        ensures ok { IfOk result (λ p. (p.0 ≡ wide req.now) × (p.1 ≡ wide_reply reply.now)) }
        ensures free { (s : Self) → is_free s (wide req.now) ≡ true → wide_reply reply.now ≡ answer s (wide req.now) → IsOk result }
    {
        let req = Self::copy_req(req)?;
        let reply = Self::copy_reply(reply)?;
        Ok((req, reply))
    }

    /// What does not change the machine leaves it as it is.
    ghost leaves: { (s : Self) (q : AnyReq) → alters s q ≡ false → after s q ≡ s };
}
