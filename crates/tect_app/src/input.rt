ghost use Rattle.std.specs.Prelude.{◌≡◌, ◌≤◌, length, IfOk, IfErr, IfSome, IsErrOf};
ghost use Rattle.std.specs.Io.KnownBytes.{IsAtEnd};
ghost use Rattle.script_forms.specs.Spelling.{Spells};
ghost use Rattle.tect_edge.specs.Counts.{Rose};
ghost use Rattle.program_rules.specs.Served.{programs};
ghost use Rattle.whole_runs.specs.Playable.{IsPlayable};
ghost use Rattle.tect_app.specs.Headline.{IsReadWithin};
ghost use Rattle.tect_app.specs.Refusals.{IsInputFault};

use std::alloc::Global;
use tect_edge::{ReadFault, Source, read_input};
use tect_ids::Plan;
use tect_text::{Limit, ScriptFault, read_script};

/// The most bytes of a script.
const MAX_INPUT: usize = 67_108_864;

/// Why no plan was read.
#[derive(Clone, Copy, Debug, PartialEq, Eq)]
pub enum InputFault {
    /// The source failed.
    Failed,
    /// The input is no script, or there was no memory.
    Script(ScriptFault),
}

/// Reads the whole input, which spells the plan.
pub fn read_plan<S: Source>(alloc: Global, source: &mut S) -> Result<Plan, InputFault>
    ensures spelled { IfOk result (λ plan. IfSome (S.left source.old) (λ input. Spells input plan)) }
    ensures playable { IfOk result (IsPlayable programs) }
    ensures clients { IfOk result (λ plan. length plan.clients ≤ 64) }
    ensures whole { IfOk result (λ _. IsAtEnd (S.left source.new)) }
    ensures first { IfErr result (IsInputFault (S.left source.old)) }
    ensures failed { IsErrOf result InputFault.Failed → Rose (S.faults source.old) (S.faults source.new) }
    ensures kept { ¬ IsErrOf result InputFault.Failed → S.faults source.new ≡ S.faults source.old }
    ensures taken { IsReadWithin 67108864 (S.left source.old) (S.left source.new) (S.calls source.old) (S.calls source.new) }
{
    let input = match read_input(alloc, MAX_INPUT, source) {
        Ok(Some(input)) => input,
        Ok(None) => {
            return Err(InputFault::Script(ScriptFault::TooLarge {
                what: Limit::Script,
                limit: MAX_INPUT as u64,
            }));
        }
        Err(ReadFault::NoMemory) => return Err(InputFault::Script(ScriptFault::NoMemory)),
        Err(ReadFault::Failed) => return Err(InputFault::Failed),
    };
    match read_script(alloc, &input) {
        Ok(plan) => Ok(plan),
        Err(fault) => Err(InputFault::Script(fault)),
    }
}
