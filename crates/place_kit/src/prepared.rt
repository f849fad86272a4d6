ghost use Rattle.std.specs.Prelude.{◌≡◌, ◌<◌, ◌≤◌, true, IfOk, OnOk, OnErr, IsOk};
ghost use Rattle.passes.specs.Commits.{spare_of};

use crate::machine::Machine;
use passes::Pass;
use tect_calls::AnyReq;
use tect_ids::NoMemory;

/// A request before its machine is at hand, and what the entry in the pass needs of it.
#[derive(Drop)]
pub struct Prepared<M: Machine> {
    pub(crate) req: M::Req,
    pub(crate) copy: AnyReq,
    pub(crate) spare: usize,
}

impl<M: Machine> Prepared<M> {
    /// Copies the request, and makes sure room for its entry in the pass.
    ///
    /// It may be refused for want of memory, but not where the pass has sure room, and the request takes none and holds no
    /// name. Then the pass is as it was.
    pub fn new(pass: &mut Pass, req: M::Req) -> Result<Prepared<M>, NoMemory>
        ensures ready { IfOk result (λ p. (p.req ≡ req) × (p.copy ≡ M.wide req) × (p.spare ≡ spare_of pass.old)) }
        ensures room { OnOk result (0 < spare_of pass.new) }
        ensures keeps { spare_of pass.old ≤ spare_of pass.new }
        ensures moments { pass.new.moments.items ≡ pass.old.moments.items }
        ensures same { (pass.new.actor ≡ pass.old.actor) × (pass.new.clock ≡ pass.old.clock) × (pass.new.steps ≡ pass.old.steps)
            × (pass.new.bytes ≡ pass.old.bytes) × (pass.new.running ≡ pass.old.running) }
        ensures enough { 0 < spare_of pass.old → pass.new ≡ pass.old }
        ensures free { (s : M) → M.is_free s (M.wide req) ≡ true → 0 < spare_of pass.old → IsOk result }
        ensures err { OnErr result (pass.new ≡ pass.old) }
    {
        let copy = M::copy_req(&req)?;
        let spare = pass.spare();
        pass.reserve(1)?;
        Ok(Prepared { req, copy, spare })
    }

    /// The sure room of the pass before. It takes no memory.
    pub fn spare(&self) -> usize
        ensures { result ≡ self.now.spare }
    {
        self.spare
    }
}
