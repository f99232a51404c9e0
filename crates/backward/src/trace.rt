// Steps gone through backward: the facts that matter before each, by its mark and the facts that matter after it.
ghost use Rattle.std.specs.Prelude.{◌≤◌, length};
ghost use Rattle.blocks.specs.Values.{task as task_of};
ghost use Rattle.backward.specs.Marks.{TracesBack};

use crate::facts::FactSet;
use crate::matters::{Mark, matters_before};
use blocks::Task;

// The facts that matter before the steps that have these marks, where `after` has those that matter after them.
pub fn trace_back(task: &Task, marks: &[Mark], after: FactSet) -> FactSet
    requires { length task.now.steps.now ≤ length marks.now }
    ensures { TracesBack (task_of task.now) marks.now after result }
{
    let mut matter = after;
    for i in (0..task.steps.len()).rev() {
        matter = matters_before(task.action(i), marks[i], matter);
    }
    matter
}
