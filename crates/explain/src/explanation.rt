// The explanation of a state: the state itself, and its run.
ghost use Rattle.std.specs.String.{string_bytes};
ghost use Rattle.names.specs.Views.{names as names_of};
ghost use Rattle.explain.specs.declared.explanation.ExplainError.TheVariants.{Refused, OutOfMemory};
ghost use Rattle.explain.specs.Tells.{Explains};

use crate::telling::Telling;
use answers::Facts;
use blocks::Task;
use model::Refusal;
use names::Names;
use runs::state_cases;
use std::alloc::AllocError;
use told::StateText;

// Why nothing, or not all, is told.
#[derive(Clone, Copy, Debug)]
pub enum ExplainError {
    // The number is no state's.
    Refused(Refusal),
    OutOfMemory,
}

impl From<AllocError> for ExplainError {
    ghost use Rattle.std.specs.Prelude.{◌≡◌};

    ghost from_gives = { λ _ e. e ≡ OutOfMemory };

    fn from(_e: AllocError) -> ExplainError {
        ExplainError::OutOfMemory
    }
}

impl From<Refusal> for ExplainError {
    ghost use Rattle.std.specs.Prelude.{◌≡◌};

    ghost from_gives = { λ r e. e ≡ Refused r };

    fn from(refusal: Refusal) -> ExplainError {
        ExplainError::Refused(refusal)
    }
}

// Tells of the state with this number, and of its run.
pub fn push_explanation(
    out: &mut String,
    names: Names,
    task: &Task,
    state: u64,
) -> Result<(), ExplainError>
    ensures { Explains (names_of names.entry) task.now state (string_bytes out.old) (string_bytes out.new) result }
{
    let cases = state_cases(task, state)?;
    let text = StateText {
        names,
        facts: Facts {
            limits: task.problem.limits,
            count: task.problem.facts,
        },
        state,
    };
    writeln!(out, "start: {text}")?;
    Telling { names, task }.push_run(out, &cases)?;
    Ok(())
}
