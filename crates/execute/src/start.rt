// One state of a task, by its number.
ghost use Rattle.std.specs.Prelude.{◌≡◌};
ghost use Rattle.model.specs.Operations.{state_answer};
ghost use Rattle.model.specs.Answers.{run_answer};
ghost use Rattle.blocks.specs.Values.{task as task_of};

use blocks::Task;
use model::{Outcome, Refusal};
use runs::{run_of_case, state_cases};
use step::Conditions;

// The state numbered `state` of a task: 40, or how its run ends.
pub fn run_task(task: &Task, state: u64) -> Result<Outcome, Refusal>
    ensures { run_answer result ≡ state_answer (task_of task.now) state }
{
    let cases = state_cases(task, state)?;
    let mut conditions = Conditions::new();
    Ok(run_of_case(task, &cases, &mut conditions))
}
