// Tell which start facts an outcome rests on, from fewer rows of the run.
ghost use Rattle.std.specs.Prelude.{◌≡◌, ◌+◌, ◌*◌, ◌/◌, ◌≤◌, length};
ghost use Rattle.model.specs.Limits.{limits_of, max_steps};
ghost use Rattle.model.specs.Answer.{answered};
ghost use Rattle.model.specs.Calls.{Leaves};
ghost use Rattle.model.specs.Relevance.{stretch, fewer_rows};
ghost use Rattle.model.specs.Operations.{relevant_facts_sparse, relevant_read, read_both};
ghost use Rattle.model.specs.Answers.{plain_answer};
ghost use Rattle.blocks.specs.Values.{task as task_of};
ghost use Rattle.backward.specs.Marks.{WithinTask};
ghost use Rattle.backward.specs.Kept.{KeepsRows};
ghost use Rattle.relevance.specs.Tracing.{ChecksRun};
ghost use Rattle.relevance.specs.Promise.{RelevantPromised};

use crate::operation::{check_reached, check_room};
use backward::{STRETCH, keep_rows, trace_stretches};
use blocks::{Problem, Task};
use cases::Cases;
use model::{Plan, Problem as Bounds, Refusal};
use runs::state_cases;

// The rows that are kept of the longest run, of as many facts as there may be.
const MOST_KEPT: usize = (Plan::MAX_STEPS / STRETCH + 1) * Bounds::MAX_FACTS_V2 as usize;

// Refuses the run of the state that the cases have, unless it reaches the goal: then every 16th of its states has a row.
fn check_kept(task: &Task, cases: &mut Cases, kept: &mut [u8]) -> Result<(), Refusal>
    requires facts { cases.old.facts ≡ task.now.problem.now.facts }
    requires room { (length task.now.steps.now / stretch + 1) * cases.old.facts ≤ length kept.old }
    ensures facts { cases.new.facts ≡ cases.old.facts }
    ensures keeps { KeepsRows (task_of task.now) cases.old kept.old kept.new }
    ensures checks { ChecksRun (task_of task.now) cases.old result }
{
    check_reached(keep_rows(task, cases, kept))
}

// The refusals of `relevant_facts_task`, but that 42 goes by fewer rows: one for every 16th state of the run, and 16 more; or the same set, with those
// rows in the work area's first bytes: the states that are kept, then the run's first 16, or all where it has fewer, and zeros after them.
fn relevant_facts_sparse_task(task: &Task, state: u64, work: &mut [u8]) -> Result<u64, Refusal>
    requires within { WithinTask (task_of task.now) }
    requires short { length task.now.steps.now ≤ max_steps }
    ensures { Leaves (relevant_read fewer_rows (answered (task_of task.now)) state work.old) result work.new }
{
    let mut cases = state_cases(task, state)?;
    // The work area may not change before the last refusal is ruled out, so the rows that are kept are written down apart.
    let mut kept = [0u8; MOST_KEPT];
    check_kept(task, &mut cases, &mut kept)?;
    let facts = task.problem.facts as usize;
    let count = (task.steps.len() / STRETCH + 1) * facts;
    let need = count + STRETCH * facts;
    check_room(need, work.len())?;
    work[..count].copy_from_slice(&kept[..count]);
    let rows = &mut work[count..need];
    rows.fill(0);
    let relevant = trace_stretches(task, &kept, rows);
    Ok(relevant.number_of(task.problem.limits.width))
}

// The refusals of problem and plan, and then those of the task that they make; or the set of start facts, with fewer rows of the run.
pub fn relevant_facts_sparse(
    problem: &[u8],
    plan: &[u8],
    state: u64,
    work: &mut [u8],
) -> Result<u64, Refusal>
    ensures answer { plain_answer result ≡ (relevant_facts_sparse (limits_of problem.now) problem.now plan.now state work.old).answer }
    ensures buffer { work.new ≡ (relevant_facts_sparse (limits_of problem.now) problem.now plan.now state work.old).buffer }
    ensures promised { RelevantPromised fewer_rows (read_both problem.now plan.now) state work.old (plain_answer result) work.new }
{
    let found = Problem::read(problem)?;
    let task = found.plan(plan)?;
    relevant_facts_sparse_task(&task, state, work)
}
