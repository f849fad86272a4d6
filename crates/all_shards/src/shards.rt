ghost use Rattle.std.specs.Prelude.{◌≡◌, OnOk, OnErr, IfOk};
ghost use Rattle.tect_ids.specs.Places.{HasPlaces};
ghost use Rattle.store_rules.specs.Places.{request_place};
ghost use Rattle.store_rules.specs.Store.{opening_store, store_reply, store_step};

use layers::AnyMachine;
use std::alloc::Global;
use std::marker::Model;
use store_rules::{AnyReply, AnyReq};
use tect_calls::{Asked, place};
use tect_ids::{Counts, Layer, NoMemory, Place, ROOT, layer_at, place_count, place_of};

/// All shards of the store, in the order of their places. Contracts see how many there are of each layer, and the whole store that
/// they are together.
#[derive(Drop)]
pub struct Shards {
    pub(crate) alloc: Global,
    pub(crate) counts: Counts,
    pub(crate) machines: Vec<AnyMachine>,
}

impl Model for Shards {
    ghost use Rattle.std.specs.Prelude.{map};
    ghost use Rattle.store_shards.specs.Rows.{together};
    ghost use Rattle.layers.specs.Machines.{alone};
    ghost use Rattle.all_shards.specs.Whole.{WholeStore, whole_code, AreAllShards};

    ghost Value = { WholeStore };

    ghost coded = { whole_code };

    ghost view = { λ s. record { counts = s.counts; store = together (map alone s.machines.items) } };

    ghost invariant = { λ s. AreAllShards s.counts s.machines.items };
}

impl Shards {
    /// The shards before anything was done: the root alone, in the shard of its place.
    pub fn start(alloc: Global, counts: Counts) -> Result<Shards, NoMemory>
        requires places { HasPlaces counts }
        ensures { IfOk result (λ shards. shards ≡ record { counts = counts; store = opening_store }) }
    {
        let root = place_of(Layer::Names, ROOT.0, &counts);
        let mut machines = Vec::new(alloc);
        for number in 0..place_count(&counts) {
            let layer = layer_at(&counts, Place(number));
            machines.push(AnyMachine::opening(alloc, layer, number == root.0)?)?;
        }
        Ok(Shards {
            alloc,
            counts,
            machines,
        })
    }

    /// The shard or disk that a request goes to. It takes no memory.
    pub fn place(&self, req: &AnyReq) -> Place
        ensures { result ≡ request_place self.now.counts req.now }
    {
        place(req, &self.counts)
    }

    /// What `step` would reply. It changes nothing.
    pub fn reply(&self, req: &AnyReq) -> Result<AnyReply, NoMemory>
        ensures { IfOk result (λ reply. reply ≡ store_reply self.now.store req.now) }
    {
        let place = place(req, &self.counts);
        let machine = &self.machines[place.0 as usize];
        machine.reply(req)
    }

    /// Does the request, whose needs were shown, at the shard of its place, as on the whole store, and replies. For want of
    /// memory nothing is changed.
    pub fn step(&mut self, asked: &Asked) -> Result<AnyReply, NoMemory>
        ensures reply { IfOk result (λ reply. reply ≡ store_reply self.old.store asked.now) }
        ensures ok { OnOk result (self.new ≡ record self.old { store = store_step self.old.store asked.now }) }
        ensures err { OnErr result (self.new ≡ self.old) }
    {
        self.do_request(asked.request())
    }

    /// Does a request again that was done before, as `step` does it. For want of memory nothing is changed.
    pub fn redo(&mut self, req: &AnyReq) -> Result<(), NoMemory>
        ensures ok { OnOk result (self.new ≡ record self.old { store = store_step self.old.store req.now }) }
        ensures err { OnErr result (self.new ≡ self.old) }
    {
        let _reply = self.do_request(req)?;
        Ok(())
    }

    fn do_request(&mut self, req: &AnyReq) -> Result<AnyReply, NoMemory>
        ensures reply { IfOk result (λ reply. reply ≡ store_reply self.old.store req.now) }
        ensures ok { OnOk result (self.new ≡ record self.old { store = store_step self.old.store req.now }) }
        ensures err { OnErr result (self.new ≡ self.old) }
    {
        let place = place(req, &self.counts);
        let machine = &mut self.machines[place.0 as usize];
        machine.step(req)
    }
}
