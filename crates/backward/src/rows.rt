// The states of a run as rows of a work area, one byte (0 or 1) a fact, and what going backward needs to know of its steps.
ghost use Rattle.std.specs.Prelude.{ℕ, ◌≡◌, true, suc, ◌*◌, ◌≤◌, ◌<◌, ◌||◌, List, Bool, map, length};
ghost use Rattle.model.specs.Limits.{max_facts};
ghost use Rattle.model.specs.Case.{flag};
ghost use Rattle.fields.specs.Actions.{action as action_of};
ghost use Rattle.blocks.specs.Values.{task as task_of};
ghost use Rattle.backward.specs.Facts.{has_fact};
ghost use Rattle.backward.specs.Rows.{Shows, Makes, Takes, TakesSteps, PutsRun, TellsReached};

use crate::changes::Changes;
use crate::matters::Mark;
use blocks::Task;
use cases::{Cases, Value, evaluate};
use fields::Action;
use formula::Literal;
use model::Problem;

// The state in lane 0 becomes the row.
pub(crate) fn put_row(cases: &Cases, row: &mut [u8])
    requires { length row.old ≡ cases.now.facts }
    ensures { (st : List Bool) → Shows cases.now st → row.new ≡ map flag st }
{
    for f in 0..cases.facts {
        row[f as usize] = cases.value(Literal::of(f)).is_yes(0) as u8;
    }
}

// The facts that are set or cleared become so, in the cases and in the row of the state that lane 0 has.
#[inline(always)]
fn make(changes: Changes, cases: &mut Cases, row: &mut [u8])
    requires inside { (f : ℕ) → f < max_facts → (has_fact changes.set f || has_fact changes.cleared f) ≡ true → f < cases.old.facts }
    requires row { length row.old ≡ cases.old.facts }
    ensures facts { cases.new.facts ≡ cases.old.facts }
    ensures makes { Makes changes cases.old row.old cases.new row.new }
{
    for fact in changes.set | changes.cleared {
        let yes = changes.set.has(fact);
        let lanes = if yes { u64::MAX } else { 0 };
        cases.put_declared(Literal::of(fact), Value::known(lanes));
        row[fact as usize] = yes as u8;
    }
}

// Takes the action from the state that lane 0 and the row have, unless it is not applicable there.
#[inline(always)]
pub(crate) fn take(action: Action, cases: &mut Cases, row: &mut [u8]) -> Option<Mark>
    requires facts { action.effects.facts ≡ cases.old.facts }
    requires row { length row.old ≡ cases.old.facts }
    ensures facts { cases.new.facts ≡ cases.old.facts }
    ensures takes { Takes (action_of action.entry) cases.old row.old cases.new row.new result }
{
    let holds = evaluate(action.precondition, cases).is_yes(0);
    if !holds {
        return None;
    }
    let changes = Changes::of(action.effects, cases);
    let conflict = changes.set & changes.cleared;
    if !conflict.is_empty() {
        return None;
    }
    make(changes, cases, row);
    Some(Mark {
        set: changes.set,
        both: changes.may_set & changes.may_clear,
    })
}

// Whether all steps can be taken from the state that the cases have: the states before them become rows, one after another, and the state
// after the last is left in the cases.
pub fn take_steps(task: &Task, cases: &mut Cases, rows: &mut [u8], marks: &mut [Mark]) -> bool
    requires facts { cases.old.facts ≡ task.now.problem.now.facts }
    requires room { length task.now.steps.now * cases.old.facts ≤ length rows.old }
    requires marks { length task.now.steps.now ≤ length marks.old }
    ensures facts { cases.new.facts ≡ cases.old.facts }
    ensures takes { TakesSteps (task_of task.now) cases.old rows.old cases.new rows.new marks.new result }
{
    let facts = cases.facts as usize;
    // The row of the state in the cases, which each step changes little.
    let mut row = [0u8; Problem::SLOTS];
    put_row(cases, &mut row[..facts]);
    let mut at = 0;
    for i in 0..task.steps.len() {
        let next = at + facts;
        rows[at..next].copy_from_slice(&row[..facts]);
        let action = task.action(i);
        let Some(mark) = take(action, cases, &mut row[..facts]) else {
            return false;
        };
        marks[i] = mark;
        at = next;
    }
    true
}

// Whether the run of the state that the cases have reaches the goal: then its states have become rows. The cases stay as they are: the run is
// taken in a copy of them.
pub fn put_run(task: &Task, cases: &Cases, rows: &mut [u8], marks: &mut [Mark]) -> bool
    requires room { suc (length task.now.steps.now) * cases.now.facts ≤ length rows.old }
    requires marks { length task.now.steps.now ≤ length marks.old }
    ensures puts { PutsRun (task_of task.now) cases.now rows.old rows.new marks.new }
    ensures tells { TellsReached (task_of task.now) cases.now result }
{
    // Whoever lends cases of another number of facts is answered too: they have no state of the task, and so no run of it.
    let same = cases.facts == task.problem.facts;
    if !same {
        return false;
    }
    let mut current = *cases;
    if !take_steps(task, &mut current, rows, marks) {
        return false;
    }
    let facts = current.facts as usize;
    let last = task.steps.len() * facts;
    put_row(&current, &mut rows[last..last + facts]);
    evaluate(task.problem.goal, &current).is_yes(0)
}
