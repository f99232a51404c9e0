// A run taken forward with few of its states kept: enough to work any of its rows out again from the one before it that was kept.
ghost use Rattle.std.specs.Prelude.{◌≡◌, ◌+◌, ◌*◌, ◌/◌, ◌≤◌, length};
ghost use Rattle.model.specs.Relevance.{stretch};
ghost use Rattle.blocks.specs.Values.{task as task_of};
ghost use Rattle.backward.specs.Kept.{KeepsRow, KeepsRows};
ghost use Rattle.backward.specs.Rows.{TellsReached};

use crate::rows::{put_row, take};
use blocks::Task;
use cases::{Cases, evaluate};
use model::Problem;

// How many steps a stretch has: the state before each stretch is kept.
pub const STRETCH: usize = 16;

// The row of the state before step i becomes the next of those that are kept, where a stretch begins with that step.
fn keep(kept: &mut [u8], i: usize, row: &[u8])
    requires { (i / stretch + 1) * length row.now ≤ length kept.old }
    ensures { KeepsRow i row.now kept.old kept.new }
{
    if i % STRETCH == 0 {
        let at = i / STRETCH * row.len();
        kept[at..at + row.len()].copy_from_slice(row);
    }
}

// Whether the run of the state that the cases have reaches the goal: then every 16th of its states, from the first on, has become a row.
pub fn keep_rows(task: &Task, cases: &mut Cases, kept: &mut [u8]) -> bool
    requires facts { cases.old.facts ≡ task.now.problem.now.facts }
    requires room { (length task.now.steps.now / stretch + 1) * cases.old.facts ≤ length kept.old }
    ensures facts { cases.new.facts ≡ cases.old.facts }
    ensures keeps { KeepsRows (task_of task.now) cases.old kept.old kept.new }
    ensures tells { TellsReached (task_of task.now) cases.old result }
{
    let facts = cases.facts as usize;
    // The row of the state in the cases, which each step changes little.
    let mut row = [0u8; Problem::SLOTS];
    put_row(cases, &mut row[..facts]);
    for i in 0..task.steps.len() {
        keep(kept, i, &row[..facts]);
        if take(task.action(i), cases, &mut row[..facts]).is_none() {
            return false;
        }
    }
    keep(kept, task.steps.len(), &row[..facts]);
    evaluate(task.problem.goal, cases).is_yes(0)
}
