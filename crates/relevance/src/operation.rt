// Tell which start facts an outcome rests on.
ghost use Rattle.std.specs.Prelude.{◌≡◌, suc, ◌*◌, ◌≤◌, length};
ghost use Rattle.model.specs.Limits.{limits_of, max_steps};
ghost use Rattle.model.specs.Answer.{answered};
ghost use Rattle.model.specs.Calls.{Leaves};
ghost use Rattle.model.specs.Relevance.{every_row};
ghost use Rattle.model.specs.Operations.{relevant_facts, relevant_read, read_both};
ghost use Rattle.model.specs.Answers.{plain_answer};
ghost use Rattle.blocks.specs.Values.{task as task_of};
ghost use Rattle.backward.specs.Marks.{WithinTask};
ghost use Rattle.backward.specs.Rows.{PutsRun};
ghost use Rattle.relevance.specs.Tracing.{ChecksReached, ChecksRun, ChecksRoom, TracesMarks};
ghost use Rattle.relevance.specs.Promise.{RelevantPromised};

use backward::{Mark, named_facts, put_run, trace_back};
use blocks::{Problem, Task};
use cases::Cases;
use model::{Fault, Plan, Problem as Bounds, Refusal};
use runs::state_cases;

// The rows of the longest run, of as many facts as there may be.
const MOST_ROWS: usize = (Plan::MAX_STEPS + 1) * Bounds::MAX_FACTS_V2 as usize;

// Refuses a run that does not reach the goal.
pub(crate) fn check_reached(reached: bool) -> Result<(), Refusal>
    ensures { ChecksReached reached result }
{
    if !reached {
        return Err(Fault::RunNotReached.at(0));
    }
    Ok(())
}

// Refuses the run of the state that the cases have, unless it reaches the goal: then the rows have its states, and the marks its steps.
fn check_run(task: &Task, cases: &Cases, rows: &mut [u8], marks: &mut [Mark]) -> Result<(), Refusal>
    requires room { suc (length task.now.steps.now) * cases.now.facts ≤ length rows.old }
    requires marks { length task.now.steps.now ≤ length marks.old }
    ensures puts { PutsRun (task_of task.now) cases.now rows.old rows.new marks.new }
    ensures checks { ChecksRun (task_of task.now) cases.now result }
{
    check_reached(put_run(task, cases, rows, marks))
}

// Refuses less room than a run's rows need.
pub(crate) fn check_room(need: usize, room: usize) -> Result<(), Refusal>
    ensures { ChecksRoom need room result }
{
    if room < need {
        return Err(Fault::ShortWork.at(0));
    }
    Ok(())
}

// The number of the set of facts that matter before the run whose steps have these marks.
fn trace_marks(task: &Task, marks: &[Mark]) -> u64
    requires { length task.now.steps.now ≤ length marks.now }
    ensures { TracesMarks (task_of task.now) marks.now result }
{
    let relevant = trace_back(task, marks, named_facts(task.problem.goal));
    relevant.number_of(task.problem.limits.width)
}

// Of a task that was read, which names declared facts only and has few steps: the refusal of the run; 41 if it is not reached; 42 if the work area is
// short of a row of bytes for each state of the run; or the set of start facts that its reaching the goal rests on, with the rows in the work area's
// first bytes.
fn relevant_facts_task(task: &Task, state: u64, work: &mut [u8]) -> Result<u64, Refusal>
    requires within { WithinTask (task_of task.now) }
    requires short { length task.now.steps.now ≤ max_steps }
    ensures { Leaves (relevant_read every_row (answered (task_of task.now)) state work.old) result work.new }
{
    let cases = state_cases(task, state)?;
    // The work area may not change before the last refusal is ruled out, so the run is written down apart.
    let mut rows = [0u8; MOST_ROWS];
    let mut marks = [Mark::NONE; Plan::MAX_STEPS];
    check_run(task, &cases, &mut rows, &mut marks)?;
    let need = (task.steps.len() + 1) * task.problem.facts as usize;
    check_room(need, work.len())?;
    work[..need].copy_from_slice(&rows[..need]);
    Ok(trace_marks(task, &marks))
}

// The refusals of problem and plan, and then those of the task that they make; or the set of start facts, with the rows of the run.
pub fn relevant_facts(
    problem: &[u8],
    plan: &[u8],
    state: u64,
    work: &mut [u8],
) -> Result<u64, Refusal>
    ensures answer { plain_answer result ≡ (relevant_facts (limits_of problem.now) problem.now plan.now state work.old).answer }
    ensures buffer { work.new ≡ (relevant_facts (limits_of problem.now) problem.now plan.now state work.old).buffer }
    ensures promised { RelevantPromised every_row (read_both problem.now plan.now) state work.old (plain_answer result) work.new }
{
    let found = Problem::read(problem)?;
    let task = found.plan(plan)?;
    relevant_facts_task(&task, state, work)
}
