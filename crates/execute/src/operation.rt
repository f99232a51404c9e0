// Run one state.
ghost use Rattle.std.specs.Prelude.{◌≡◌};
ghost use Rattle.model.specs.Limits.{limits_of};
ghost use Rattle.model.specs.Operations.{run_state, read_both};
ghost use Rattle.model.specs.Answers.{run_answer};
ghost use Rattle.execute.specs.Promise.{RunPromised};

use crate::run_task;
use blocks::Problem;
use model::{Outcome, Refusal};

// Run one state, which need not be a start state: the refusals of problem and plan, 40, or how the run ends.
pub fn run(problem: &[u8], plan: &[u8], state: u64) -> Result<Outcome, Refusal>
    ensures answer { run_answer result ≡ run_state (limits_of problem.now) problem.now plan.now state }
    ensures promised { RunPromised (read_both problem.now plan.now) state (run_answer result) }
{
    let problem = Problem::read(problem)?;
    let task = problem.plan(plan)?;
    run_task(&task, state)
}
