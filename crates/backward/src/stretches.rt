// A run gone through backward a stretch at a time, where every 16th of its states was kept: the rows between are worked out again.
ghost use Rattle.std.specs.Prelude.{◌≡◌, ◌+◌, ◌*◌, ◌/◌, ◌≤◌, length};
ghost use Rattle.model.specs.Limits.{max_facts};
ghost use Rattle.model.specs.Relevance.{stretch};
ghost use Rattle.model.specs.Relevance as relevance;
ghost use Rattle.blocks.specs.Values.{task as task_of};
ghost use Rattle.backward.specs.Stretches.{part, ShowsRow, TakesPart, TracesStretches};

use crate::facts::FactSet;
use crate::kept::STRETCH;
use crate::matters::Mark;
use crate::named::named_facts;
use crate::rows::{put_row, take_steps};
use crate::trace::trace_back;
use blocks::Task;
use cases::{Cases, Value};
use formula::Literal;

// The task of the steps that are numbered from `from` up to `to`.
fn part<'a>(task: &Task<'a>, from: usize, to: usize) -> Task<'a>
    requires order { from ≤ to }
    requires inside { to ≤ length task.now.steps.now }
    ensures is { task_of result ≡ part (task_of task.now) from to }
    ensures problem { result.problem.now ≡ task.now.problem.now }
{
    Task::of(task.problem, &task.steps[from..to])
}

// Every lane has the state that stands in the row.
fn row_cases(facts: u8, row: &[u8]) -> Cases
    requires facts { facts ≤ max_facts }
    requires row { length row.now ≡ facts }
    ensures facts { result.facts ≡ facts }
    ensures shows { ShowsRow row.now result }
{
    let mut cases = Cases::empty_state(facts);
    for f in 0..facts {
        let lanes = if row[f as usize] == 1 { u64::MAX } else { 0 };
        cases.put_declared(Literal::of(f), Value::known(lanes));
    }
    cases
}

// Takes the steps of a stretch from the state in the row: their states become the first of the rows, and each step has its mark. Where there are
// fewer than 16, the state after the last has a row too.
fn take_part(part: &Task, row: &[u8], rows: &mut [u8], marks: &mut [Mark])
    requires short { length part.now.steps.now ≤ stretch }
    requires row { length row.now ≡ part.now.problem.now.facts }
    requires rows { length rows.old ≡ stretch * part.now.problem.now.facts }
    requires marks { length part.now.steps.now ≤ length marks.old }
    ensures { TakesPart (task_of part.now) row.now rows.old rows.new marks.new }
{
    let mut cases = row_cases(part.problem.facts, row);
    let steps = part.steps.len();
    if take_steps(part, &mut cases, rows, marks) && steps < STRETCH {
        let facts = cases.facts as usize;
        let last = steps * facts;
        put_row(&cases, &mut rows[last..last + facts]);
    }
}

// The facts that matter before the run of which every 16th state stands in `kept`, if it reaches the goal. Its stretches are gone through from the
// last to the first, whose states are left in the rows of `stretch`.
pub fn trace_stretches(task: &Task, kept: &[u8], stretch: &mut [u8]) -> FactSet
    requires kept { (length task.now.steps.now / relevance.stretch + 1) * task.now.problem.now.facts ≤ length kept.now }
    requires stretch { length stretch.old ≡ relevance.stretch * task.now.problem.now.facts }
    ensures { TracesStretches (task_of task.now) kept.now stretch.old stretch.new result }
{
    let steps = task.steps.len();
    let facts = task.problem.facts as usize;
    let mut marks = [Mark::NONE; STRETCH];
    let mut matter = named_facts(task.problem.goal);
    for s in (0..steps / STRETCH + 1).rev() {
        let from = s * STRETCH;
        let part = part(task, from, steps.min(from + STRETCH));
        let row = s * facts;
        take_part(&part, &kept[row..row + facts], stretch, &mut marks);
        matter = trace_back(&part, &marks, matter);
    }
    matter
}
