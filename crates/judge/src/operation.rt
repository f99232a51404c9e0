// Judge with a grant.
ghost use Rattle.std.specs.Prelude.{◌≡◌};
ghost use Rattle.model.specs.Limits.{limits_of};
ghost use Rattle.model.specs.Case.{run_of, IsState};
ghost use Rattle.model.specs.Operations as operations;
ghost use Rattle.model.specs.Operations.{read_both};
ghost use Rattle.model.specs.Answers.{outcome, judge_answer};
ghost use Rattle.blocks.specs.Values.{task as task_of};
ghost use Rattle.judge.specs.Verdicts.{JudgesTask};
ghost use Rattle.judge.specs.Promise.{JudgePromised};

use blocks::{Problem, Task};
use model::{Outcome, Refusal, Verdict};
use runs::{cases_of_state, run_of_case};
use step::Conditions;
use walk::{Lines, Stopped, Unkept, walk_task};

// How the run of a state ends.
fn outcome_of(task: &Task, state: u64) -> Outcome
    requires { IsState (task_of task.now) state }
    ensures { outcome result ≡ run_of (task_of task.now) state }
{
    let cases = cases_of_state(task, state);
    run_of_case(task, &cases, &mut Conditions::new())
}

// The verdict on a task, by one walk; what becomes of the lines of a right plan is the caller's choice.
pub fn judge_task<L: Lines>(task: &Task, grant: u64, lines: &mut L) -> Verdict
    ensures { JudgesTask (L.gives task.now.problem.now.limits) (task_of task.now) grant lines.old result lines.new }
{
    match walk_task(task, grant, lines) {
        Ok(closed) => Verdict::Right {
            lines: closed.lines,
            visits: grant - closed.left,
        },
        Err(Stopped::OutOfVisits) => Verdict::Undecided { visits: grant },
        Err(Stopped::Failed { state, left }) => Verdict::Wrong {
            state,
            outcome: outcome_of(task, state),
            visits: grant - left,
        },
    }
}

// Judge with a grant: the refusals of problem and plan; right with lines and visits; wrong with the lowest failing start state, its
// outcome and visits; or undecided with visits equal to the grant. The lines are counted, and none is kept.
pub fn judge(problem: &[u8], plan: &[u8], grant: u64) -> Result<Verdict, Refusal>
    ensures answer { judge_answer result ≡ operations.judge (limits_of problem.now) problem.now plan.now grant }
    ensures promised { JudgePromised (read_both problem.now plan.now) grant (judge_answer result) }
{
    let found = Problem::read(problem)?;
    let task = found.plan(plan)?;
    Ok(judge_task(&task, grant, &mut Unkept))
}
