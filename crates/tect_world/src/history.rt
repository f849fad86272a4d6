//! All that the world did, in the order in which it was done.
ghost use Rattle.std.specs.Prelude.{◌≡◌, ◌-◌, ◌<◌, ◌≤◌, ◌≢◌, ◌++◌, ◌∷◌, List, IfOk, OnOk, map, drop, length, replicate};
ghost use Rattle.std.specs.List.{All};
ghost use Rattle.tect_ids.specs.declared.ids.Counts.{Counts};
ghost use Rattle.world_lives.specs.declared.marks.Mark.{Mark as AnyMark};
ghost use Rattle.tect_world.specs.Noted.{moments_by};
ghost use Rattle.world_lives.specs.Order.{first_moment, later_moments, moments_in_order};
ghost use Rattle.tect_world.specs.Telling.{left_by, IsMarkOf, AreMarksOf};
ghost use Rattle.world_lives.specs.Told.{StepsCountUp};

use clients::Client;
use entry_words::Moment;
use program_calls::Programs;
use std::alloc::Global;
use tect_ids::NoMemory;
use world_lives::Mark;

/// That many zeros.
fn zeros(alloc: Global, count: usize) -> Result<Vec<usize>, NoMemory>
    ensures { IfOk result (λ v. v.items ≡ replicate count 0) }
{
    Ok(vec![in alloc; 0; count]?)
}

/// What the pass of each client keeps: the steps of its transactions count up from 0.
pub fn steps_count_up<P: Programs + Drop>(clients: &[Client<P>])
    ensures { All (λ l. StepsCountUp l.moments) clients.now }
{
    'each: for client in clients {
        client.pass();
    }
}

/// The moments of all clients in the order of the marks, each client's own in their order.
pub fn moments_by_marks<'a, P: Programs + Drop>(
    alloc: Global,
    clients: &'a [Client<P>],
    order: &[Mark],
) -> Result<Vec<&'a Moment>, NoMemory>
    requires { AreMarksOf (length clients.now) order.now }
    ensures { (counts : Counts)
        → IfOk result (λ v. map (λ m. m.now) v.items ≡ moments_in_order order.now (moments_by counts clients.now)) }
{
    let mut told = Vec::new(alloc);
    let mut counts = zeros(alloc, clients.len())?;
    'each: for mark in order {
        tell_mark(&mut told, &mut counts, clients, *mark)?;
    }
    Ok(told)
}

// Tells the moment of a mark, if there is one. The counts say how many moments of each client were told.
fn tell_mark<'a, P: Programs + Drop>(
    told: &mut Vec<&'a Moment>,
    counts: &mut Vec<usize>,
    clients: &'a [Client<P>],
    mark: Mark,
) -> Result<(), NoMemory>
    requires mark { IsMarkOf (length clients.now) mark }
    requires counts { length counts.old.items ≡ length clients.now }
    ensures told { (k : Counts) (ms : List AnyMark)
        → OnOk result
        (map (λ m. m.now) told.new.items ++ moments_in_order ms (left_by k clients.now counts.new.items) ≡
        map (λ m. m.now) told.old.items ++ moments_in_order (mark ∷ ms) (left_by k clients.now counts.old.items)) }
    ensures counts { length counts.new.items ≡ length clients.now }
{
    match mark {
        Mark::Actor(actor) => tell_next(
            told,
            &mut counts[actor as usize - 1],
            &clients[actor as usize - 1],
        ),
        Mark::Dump => Ok(()),
    }
}

// Tells the client's next moment, if it has one more than that count.
fn tell_next<'a, P: Programs + Drop>(
    told: &mut Vec<&'a Moment>,
    count: &mut usize,
    client: &'a Client<P>,
) -> Result<(), NoMemory>
    ensures told { OnOk result
        (map (λ m. m.now) told.new.items ≡ map (λ m. m.now) told.old.items ++ first_moment (drop count.old client.now.moments)) }
    ensures left { OnOk result (drop count.new client.now.moments ≡ later_moments (drop count.old client.now.moments)) }
{
    let moments = client.pass().moments();
    if *count < moments.len() {
        told.push(&moments[*count])?;
        *count += 1;
    }
    Ok(())
}
