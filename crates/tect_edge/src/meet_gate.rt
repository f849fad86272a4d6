ghost use Rattle.std.specs.Prelude.{◌≡◌, false, true};

use crate::gate::Gate;
use std::hint::spin_loop;
use std::marker::Model;
use std::sync::atomic::{AtomicBool, Ordering};
use tect_ids::Place;

/// Asks at most that many times, and says whether the test came true.
fn comes_true<F: Fn() -> bool>(turns: u64, test: F) -> bool
    requires { F.IsAlwaysCallable test }
    ensures told { result ≡ true → F.post test true }
    ensures unasked { turns ≡ 0 → result ≡ false }
{
    for _turn in 0..turns {
        if test() {
            return true;
        }
        spin_loop();
    }
    false
}

/// A hold at which a worker waits once.
#[derive(Drop)]
struct Hold {
    came: AtomicBool,
    ran_out: AtomicBool,
}

impl Hold {
    fn new() -> Hold {
        Hold {
            came: AtomicBool::new(false),
            ran_out: AtomicBool::new(false),
        }
    }

    // The worker comes, and says whether it is for the first time.
    fn comes_first(&self) -> bool {
        !self.came.swap(true, Ordering::SeqCst)
    }

    fn has_come(&self) -> bool {
        self.came.load(Ordering::SeqCst)
    }

    // Waits until the test comes true, or the turns have run out.
    fn wait<F: Fn() -> bool>(&self, turns: u64, test: F)
        requires { F.IsAlwaysCallable test }
    {
        if !comes_true(turns, test) {
            self.ran_out.store(true, Ordering::SeqCst);
        }
    }

    fn is_in_time(&self) -> bool {
        self.has_come() && !self.ran_out.load(Ordering::SeqCst)
    }
}

/// A gate at which two workers are made to meet: worker 1 is held before its first commit until worker 0 is inside one,
/// and worker 0 inside its first commit until worker 1 left one after that. Contracts see for how many turns each of the
/// two is held at most. It waits for nobody longer than that, so each call returns.
#[derive(Drop)]
pub struct MeetGate {
    turns: u64,
    inner: Hold,
    outer: Hold,
    zero_is_inside: AtomicBool,
    one_is_inside: AtomicBool,
    one_left: AtomicBool,
}

impl Model for MeetGate {
    ghost use Rattle.std.specs.Prelude.{ℕ};

    ghost Value = { ℕ };

    ghost view = { λ gate. gate.turns };
}

impl MeetGate {
    /// A gate to which nobody came yet.
    pub fn start(turns: u64) -> MeetGate
        ensures { result ≡ turns }
    {
        MeetGate {
            turns,
            inner: Hold::new(),
            outer: Hold::new(),
            zero_is_inside: AtomicBool::new(false),
            one_is_inside: AtomicBool::new(false),
            one_left: AtomicBool::new(false),
        }
    }

    /// Whether both workers came to their holds, and neither ran out of turns.
    pub fn met(&self) -> bool {
        self.inner.is_in_time() && self.outer.is_in_time()
    }

    // It comes to its hold before it is seen inside, so that worker 1 can't leave between the two.
    fn tell_zero(&self, inside: bool) {
        let is_held = inside && self.inner.comes_first();
        self.zero_is_inside.store(inside, Ordering::SeqCst);
        if is_held {
            self.inner
                .wait(self.turns, || self.one_left.load(Ordering::SeqCst));
        }
    }

    fn tell_one(&self, inside: bool) {
        let was_inside = self.one_is_inside.swap(inside, Ordering::SeqCst);
        if was_inside && !inside && self.inner.has_come() {
            self.one_left.store(true, Ordering::SeqCst);
        }
        if !inside && self.outer.comes_first() {
            self.outer
                .wait(self.turns, || self.zero_is_inside.load(Ordering::SeqCst));
        }
    }
}

impl Gate for MeetGate {
    fn pass(&self, worker: u32, _place: Place, inside: bool) {
        match worker {
            0 => self.tell_zero(inside),
            1 => self.tell_one(inside),
            _ => {}
        }
    }
}
