//! Laws of scripts. Of lines: the words that a form reads spell the line that it gives, and the words of a line within its form
//! are read; a word that is wrong for the form is wrong for every line. Of whole scripts: what reading gives is spelled by the
//! bytes, what bytes spell is read, what is written of a plan spells it, the fault that reading gives is the first one, and there
//! is one first fault at most. Nothing here is called: a function's contract is a law.
#![tactic(auto)]

ghost use Rattle.std.specs.Prelude.{◌≡◌, ◌≢◌, ℕ, List};
ghost use Rattle.tect_ids.specs.declared.script.Plan.{Plan};
ghost use Rattle.script_forms.specs.FirstFault.{IsFirstFault};
ghost use Rattle.script_forms.specs.Spelling.{Spells};

use script_forms::ScriptFault;

/// A script has one first fault at most, and none where it spells a plan. Want of memory is no fault of the script.
pub fn first_fault_is_one()
    ensures one { (bytes : List ℕ) (one other : ScriptFault) → one ≢ ScriptFault.NoMemory → other ≢ ScriptFault.NoMemory
        → IsFirstFault bytes one → IsFirstFault bytes other → one ≡ other }
    ensures none { (bytes : List ℕ) (plan : Plan) (fault : ScriptFault) → fault ≢ ScriptFault.NoMemory → Spells bytes plan
        → ¬ IsFirstFault bytes fault }
{}
