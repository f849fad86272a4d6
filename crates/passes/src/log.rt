ghost use Rattle.std.specs.Prelude.{◌≡◌, ◌+◌, ◌-◌, ◌<◌, ◌≤◌, [], ◌∷◌, ◌++◌, length, OnOk, OnErr, IsOk};
ghost use Rattle.entry_words.specs.Moments.{heard_as, heard_last};

use entry_words::Moment;
use program_forms::Heard;
use std::alloc::Global;
use std::marker::Model;
use tect_ids::NoMemory;

/// A list that grows at its end. Contracts see its items, and for how many more the room is sure.
#[derive(Drop)]
pub struct Log<T> {
    items: Vec<T>,
    spare: usize,
}

impl<T> Model for Log<T> {
    ghost use Rattle.std.specs.Prelude.{◌+◌, ◌≤◌, vec_len, vec_capacity};
    ghost use Rattle.passes.specs.Logged.{Logged, logged_code};

    ghost Value = { Logged T };

    ghost coded = { logged_code T.code };

    ghost view = { λ a. record { items = a.items.items; spare = a.spare } };

    ghost invariant = { λ a. vec_len a.items + a.spare ≤ vec_capacity a.items };
}

impl<T> Log<T> {
    pub fn new(alloc: Global) -> Log<T>
        ensures { result ≡ record { items = []; spare = 0 } }
    {
        Log {
            items: Vec::new(alloc),
            spare: 0,
        }
    }

    pub fn as_slice(&self) -> &[T]
        ensures { result.now ≡ self.now.items }
    {
        self.items.as_slice()
    }

    pub fn len(&self) -> usize
        ensures { result ≡ length self.now.items }
    {
        self.items.len()
    }

    pub fn spare(&self) -> usize
        ensures { result ≡ self.now.spare }
    {
        self.spare
    }

    // Makes the sure room at least `n`.
    pub fn reserve(&mut self, n: usize) -> Result<(), NoMemory>
        ensures items { self.new.items ≡ self.old.items }
        ensures room { OnOk result (n ≤ self.new.spare) }
        ensures keeps { self.old.spare ≤ self.new.spare }
        ensures enough { n ≤ self.old.spare → IsOk result × (self.new ≡ self.old) }
        ensures err { OnErr result (self.new ≡ self.old) }
    {
        if n <= self.spare {
            return Ok(());
        }
        if self.items.reserve(n).is_err() {
            return Err(NoMemory);
        }
        self.spare = n;
        Ok(())
    }

    // There is sure room for one.
    pub(crate) fn push(&mut self, item: T)
        requires { 0 < self.old.spare }
        ensures { self.new ≡ record { items = self.old.items ++ item ∷ []; spare = self.old.spare - 1 } }
    {
        self.items.push_reserved(item);
        self.spare -= 1;
    }

    // Lets room go that was sure.
    pub fn lower(&mut self, spare: usize)
        requires { spare ≤ self.old.spare }
        ensures { self.new ≡ record { items = self.old.items; spare = spare } }
    {
        self.spare = spare;
    }
}

impl Log<Moment> {
    // Says how the command heard the last one, where that is a transaction.
    #[tactic(auto, using(crate::proofs::Hearing::set_last, crate::proofs::Hearing::heard_none))]
    pub(crate) fn set_heard(&mut self, heard: Heard)
        ensures { self.new ≡ record { items = heard_last heard self.old.items; spare = self.old.spare } }
    {
        let len = self.items.len();
        if len > 0 {
            hear(&mut self.items[len - 1], heard);
        }
    }
}

fn hear(moment: &mut Moment, heard: Heard)
    ensures { moment.new ≡ heard_as heard moment.old }
{
    if let Moment::Act { heard: at, .. } = moment {
        *at = heard;
    }
}
