ghost use Rattle.std.specs.Prelude.{◌≡◌, ◌⊎◌, ◌+◌, ◌^◌, ◌<◌, ◌≤◌, Some, None, IsSome, IfOk, MatchResult};
ghost use Rattle.tect_ids.specs.Places.{HasPlaces};
ghost use Rattle.tect_ids.specs.declared.answer.Answer.TheVariants as answers;
ghost use Rattle.store_rules.specs.declared.any.AnyReq.{AnyReq};
ghost use Rattle.entry_words.specs.declared.entry.Note.TheVariants as notes;
ghost use Rattle.entry_words.specs.declared.entry.Refused.TheVariants as refusals;
ghost use Rattle.passes.specs.Adding.{NotedEnd};
ghost use Rattle.clients.specs.ActorState.{ActorState, op_of};
ghost use Rattle.clients.specs.ActorCalls.{asks_now, let_go, looked};
ghost use Rattle.clients.specs.PassSteps.{TookStep, LostStep, HearsSo, SettlesSo};

use crate::actor::Actor;
use entry_words::{Note, Refused};
use passes::{Astray, Commits, Pass};
use program_calls::Programs;
use program_forms::Heard;
use store_rules::AnyReply;
use tect_calls::Asked;
use tect_ids::{Answer, Counts, NoMemory};

/// What a step comes to: how many transactions were done, none or one, and the answer with which the command ended, if it did.
#[derive(Drop)]
pub struct Step {
    pub transactions: u64,
    pub answer: Option<Answer>,
}

/// The actor's command ends with that answer, and its pass notes it. It takes no memory.
pub fn end<P: Programs + Drop>(actor: &mut Actor<P>, pass: &mut Pass, answer: Answer)
    requires { pass.old.running ≡ Some (op_of actor.old) }
    ensures actor { actor.new ≡ let_go actor.old }
    ensures pass { NotedEnd pass.old pass.new (notes.Ended (op_of actor.old) answer) }
{
    let op = actor.op();
    actor.end();
    if pass.note(Note::Ended { op, answer }).is_err() {
        unreachable!()
    }
}

/// The same answer once more, or that memory is wanting.
fn again(answer: &Answer) -> Answer
    ensures { (result ≡ answer.now) ⊎ (result ≡ Answer.NoMemory) }
{
    match answer.clone() {
        Ok(same) => same,
        Err(_) => Answer::NoMemory,
    }
}

/// The command ends with that answer, and with the one that tells of it where memory is wanting to tell the answer twice.
fn end_with<P: Programs + Drop>(actor: &mut Actor<P>, pass: &mut Pass, answer: Answer) -> Answer
    requires { pass.old.running ≡ Some (op_of actor.old) }
    ensures actor { actor.new ≡ let_go actor.old }
    ensures pass { NotedEnd pass.old pass.new (notes.Ended (op_of actor.old) result) }
    ensures answer { (result ≡ answer) ⊎ (result ≡ answers.NoMemory) }
{
    match answer.clone() {
        Ok(told) => {
            end(actor, pass, answer);
            told
        }
        Err(_) => {
            end(actor, pass, Answer::NoMemory);
            Answer::NoMemory
        }
    }
}

/// Ends a command that asks nothing: with the answer that it has, and for want of memory where it has none.
fn settle<P: Programs + Drop>(actor: &mut Actor<P>, pass: &mut Pass) -> Answer
    requires { pass.old.running ≡ Some (op_of actor.old) }
    ensures actor { actor.new ≡ let_go actor.old }
    ensures pass { NotedEnd pass.old pass.new (notes.Ended (op_of actor.old) result) }
    ensures ends { SettlesSo P.rules actor.old result }
{
    let answer = match actor.finished() {
        Some(answer) => again(answer),
        None => Answer::NoMemory,
    };
    end_with(actor, pass, answer)
}

/// The command goes on at the reply to its request, whose entry the pass noted last, and ends where that gave its answer. For want
/// of memory to go on it ends too. The entry is marked with how the command heard the reply.
fn hear<P: Programs + Drop>(
    actor: &mut Actor<P>,
    pass: &mut Pass,
    reply: &AnyReply,
) -> Option<Answer>
    requires asked { IsSome (asks_now P.rules actor.old) }
    requires running { pass.old.running ≡ Some (op_of actor.old) }
    requires few { actor.old.state.memory.serial + 1 < 2 ^ 32 }
    ensures { (req : AnyReq) → asks_now P.rules actor.old ≡ Some req
        → HearsSo P.rules actor.old actor.new pass.old pass.new req reply.now result }
{
    match actor.advance(reply) {
        Ok(went) => {
            let heard = went.heard();
            pass.set_heard(heard);
            let answer = went.answer?;
            Some(end_with(actor, pass, answer))
        }
        Err(NoMemory) => {
            pass.set_heard(Heard::Left);
            end(actor, pass, Answer::NoMemory);
            Some(Answer::NoMemory)
        }
    }
}

/// Commits the request of a command whose look-ups are done, and the command goes on at the reply. It ends where that is refused for
/// want of memory or of room; where another machine was found than the one looked for, it goes on no more.
fn transact<P: Programs + Drop, C: Commits>(
    actor: &mut Actor<P>,
    pass: &mut Pass,
    at: &mut C,
    asked: Asked,
) -> Result<Step, Astray>
    requires same { C.counts at.old ≡ actor.old.counts }
    requires asked { asks_now P.rules actor.old ≡ Some asked }
    requires running { pass.old.running ≡ Some (op_of actor.old) }
    requires few { actor.old.state.memory.serial + 1 < 2 ^ 32 }
    ensures counts { C.counts at.new ≡ C.counts at.old }
    ensures one { IfOk result (λ step. step.transactions ≤ 1) }
    ensures step { (before : ActorState P) → actor.old ≡ looked P.rules before → MatchResult result
        (λ step. TookStep P.rules C.done at.old at.new before actor.new pass.old pass.new step)
        (λ e. LostStep P.rules C.done at.old at.new before actor.new pass.old pass.new (refusals.Astray e.want e.found)) }
{
    match at.commit(pass, asked) {
        Ok(reply) => Ok(Step {
            transactions: 1,
            answer: hear(actor, pass, &reply),
        }),
        Err(Refused::NoMemory) => Ok(fail(actor, pass, Answer::NoMemory, Answer::NoMemory)),
        Err(Refused::HistoryFull { place }) => {
            let told = Answer::HistoryFull { place };
            Ok(fail(actor, pass, Answer::HistoryFull { place }, told))
        }
        Err(Refused::Astray { want, found }) => {
            actor.leave();
            Err(Astray { want, found })
        }
    }
}

/// The command ends with that answer, with no transaction.
fn fail<P: Programs + Drop>(
    actor: &mut Actor<P>,
    pass: &mut Pass,
    answer: Answer,
    told: Answer,
) -> Step
    requires { pass.old.running ≡ Some (op_of actor.old) }
    ensures actor { actor.new ≡ let_go actor.old }
    ensures pass { NotedEnd pass.old pass.new (notes.Ended (op_of actor.old) answer) }
    ensures step { result ≡ record { transactions = 0; answer = Some told } }
{
    end(actor, pass, answer);
    Step {
        transactions: 0,
        answer: Some(told),
    }
}

/// One step of the actor's command.
pub fn take_step<P: Programs + Drop, C: Commits>(
    actor: &mut Actor<P>,
    pass: &mut Pass,
    at: &mut C,
) -> Result<Step, Astray>
    requires same { C.counts at.old ≡ actor.old.counts }
    requires running { pass.old.running ≡ Some (op_of actor.old) }
    requires goes { IsSome actor.old.state.running }
    requires few { actor.old.state.memory.serial + 1 < 2 ^ 32 }
    ensures counts { C.counts at.new ≡ C.counts at.old }
    ensures one { IfOk result (λ step. step.transactions ≤ 1) }
    ensures step { MatchResult result
        (λ step. TookStep P.rules C.done at.old at.new actor.old actor.new pass.old pass.new step)
        (λ e. LostStep P.rules C.done at.old at.new actor.old actor.new pass.old pass.new (refusals.Astray e.want e.found)) }
{
    match actor.next() {
        Ok(Some(asked)) => transact(actor, pass, at, asked),
        Ok(None) => Ok(Step {
            transactions: 0,
            answer: Some(settle(actor, pass)),
        }),
        Err(NoMemory) => Ok(fail(actor, pass, Answer::NoMemory, Answer::NoMemory)),
    }
}
