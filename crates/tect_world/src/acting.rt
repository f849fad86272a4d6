ghost use Rattle.std.specs.Prelude.{◌≡◌, ◌+◌, ◌^◌, ◌<◌, ◌≤◌, ◌++◌, IfOk, IsNone, IsSome, MatchResult, false, true, vec_len, vec_capacity};
ghost use Rattle.tect_ids.specs.Places.{HasPlaces};
ghost use Rattle.clients.specs.Lives.{IsLife, state_in};
ghost use Rattle.tect_world.specs.Clients.{AreIdle};
ghost use Rattle.tect_world.specs.ClientSteps.{StepsOnce, BeginsOnce, StopsOnce, StaysSo, act_marks, end_marks};

use clients::Client;
use kept_shards::KeptShards;
use program_calls::{Programs, Turned};
use std::alloc::Global;
use tect_ids::{Command, Counts, NoMemory};
use world_lives::{Mark, push_mark};

/// How many actors there are: 64 clients, and the one that runs the lines of the whole world.
const ACTORS: u32 = 65;

/// All actors, before anything was done, where each layer has that many shards.
pub fn idle_clients<P: Programs + Drop>(
    alloc: Global,
    counts: Counts,
) -> Result<Vec<Client<P>>, NoMemory>
    requires { HasPlaces counts }
    ensures { IfOk result (λ clients. AreIdle P.rules counts clients.items 65) }
{
    let mut clients = Vec::new(alloc);
    'each: for made in 0..ACTORS {
        let client = Client::start(alloc, made + 1, counts)?;
        client.op();
        clients.push(client)?;
    }
    Ok(clients)
}

/// The client's next command begins, or is refused, at the clock of the run. For want of memory nothing is done.
pub fn begin_client<P: Programs + Drop>(
    client: &mut Client<P>,
    clock: &mut u64,
    order: &mut Vec<Mark>,
    command: Command,
) -> Result<(), NoMemory>
    requires room { vec_len order.old < vec_capacity order.old }
    requires early { clock.old < 2 ^ 63 }
    requires idle { IsNone (state_in P.rules client.old).running }
    requires goes_on { (state_in P.rules client.old).stopped ≡ false }
    requires few { (state_in P.rules client.old).number + 1 < 2 ^ 31 }
    requires served { P.rules.serves command ≡ true }
    ensures begins { MatchResult result
        (λ u. BeginsOnce P.rules client.old client.new command clock.old clock.new order.old.items order.new.items)
        (λ e. StaysSo client.old client.new clock.old clock.new order.old.items order.new.items) }
    ensures life { IsLife P.rules client.new }
    ensures space { (vec_len order.new ≤ vec_len order.old + 1) × (vec_capacity order.old ≤ vec_capacity order.new) }
{
    let actor = client.actor();
    client.raise(*clock);
    client.begin(command)?;
    *clock = client.clock();
    push_mark(order, Mark::Actor(actor));
    Ok(())
}

// Marks the transaction of a step, if one was done, and the end of the command, if it came.
fn mark_step(order: &mut Vec<Mark>, actor: u32, acted: bool, turned: &Turned)
    requires { vec_len order.old + 2 ≤ vec_capacity order.old }
    ensures items { order.new.items ≡ order.old.items ++ (act_marks actor acted ++ end_marks actor turned.now) }
    ensures space { (vec_len order.new ≤ vec_len order.old + 2) × (vec_capacity order.old ≤ vec_capacity order.new) }
{
    if acted {
        push_mark(order, Mark::Actor(actor));
    }
    if let Turned::Done(_) = turned {
        push_mark(order, Mark::Actor(actor));
    }
}

/// One step of the client's command at the shards, at the clock of the run.
pub fn step_client<P: Programs + Drop>(
    shards: &mut KeptShards,
    client: &mut Client<P>,
    clock: &mut u64,
    order: &mut Vec<Mark>,
) -> Turned
    requires same { shards.old.counts ≡ client.old.counts }
    requires room { vec_len order.old + 2 ≤ vec_capacity order.old }
    requires early { clock.old < 2 ^ 63 }
    requires running { IsSome (state_in P.rules client.old).running }
    ensures step { StepsOnce P.rules shards.old shards.new client.old client.new clock.old clock.new order.old.items order.new.items
        result }
    ensures counts { shards.new.counts ≡ shards.old.counts }
    ensures life { IsLife P.rules client.new }
    ensures space { (vec_len order.new ≤ vec_len order.old + 2) × (vec_capacity order.old ≤ vec_capacity order.new) }
{
    let actor = client.actor();
    let last = *clock;
    client.raise(last);
    let before = client.transactions();
    let turned = match client.step(shards) {
        Ok(turned) => turned,
        Err(_) => unreachable!(),
    };
    let acted = before < client.transactions();
    mark_step(order, actor, acted, &turned);
    *clock = client.clock();
    turned
}

/// The client stops for good, with its command unfinished. It takes no memory.
pub fn stop_client<P: Programs + Drop>(
    client: &mut Client<P>,
    clock: &mut u64,
    order: &mut Vec<Mark>,
)
    requires room { vec_len order.old < vec_capacity order.old }
    requires early { clock.old < 2 ^ 63 }
    requires running { IsSome (state_in P.rules client.old).running }
    ensures stops { StopsOnce P.rules client.old client.new clock.old clock.new order.old.items order.new.items }
    ensures life { IsLife P.rules client.new }
    ensures space { (vec_len order.new ≡ vec_len order.old + 1) × (vec_capacity order.old ≤ vec_capacity order.new) }
{
    let actor = client.actor();
    client.raise(*clock);
    client.stop();
    *clock = client.clock();
    push_mark(order, Mark::Actor(actor));
}
