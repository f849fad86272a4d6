ghost use Rattle.std.specs.Prelude.{◌≡◌};
ghost use Rattle.program_calls.specs.Hearing.{heard_if_kept};

use program_forms::Heard;
use tect_ids::Answer;

/// What came of a command at the reply to its request, where it went on.
#[derive(Drop)]
pub struct Went {
    /// Its answer, where the reply gave that.
    pub answer: Option<Answer>,
    /// Whether its actor kept all that the reply told. If not, then for want of memory: it kept only what it has to keep.
    pub kept: bool,
}

impl Went {
    /// How the command heard the reply. It takes no memory.
    pub fn heard(&self) -> Heard
        ensures { result ≡ heard_if_kept self.now.kept }
    {
        if self.kept {
            Heard::Whole
        } else {
            Heard::Unkept
        }
    }
}
