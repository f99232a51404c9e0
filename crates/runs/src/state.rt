// A state by its number.
ghost use Rattle.std.specs.Prelude.{◌≡◌, ◌^◌, ◌<◌, IfOk};
ghost use Rattle.blocks.specs.Values.{task as task_of};
ghost use Rattle.runs.specs.States.{InEachLane, StateOf};

use blocks::Task;
use cases::{Cases, word_of};
use model::{Fault, Refusal};
use numbers::low_bits;

// The state with this number in every lane.
pub fn cases_of_state(task: &Task, state: u64) -> Cases
    requires { state < 2 ^ (task_of task.now).width }
    ensures state { InEachLane (task_of task.now) state result }
    ensures facts { result.facts ≡ task.now.problem.now.facts }
{
    let width = task.problem.limits.width as usize;
    Cases::of_state(task.problem.facts, word_of(width, state))
}

// The same, unless it has a bit past the declared facts.
pub fn state_cases(task: &Task, state: u64) -> Result<Cases, Refusal>
    ensures state { StateOf (task_of task.now) state result }
    ensures facts { IfOk result (λ cases. cases.facts ≡ task.now.problem.now.facts) }
{
    let width = task.problem.limits.width as usize;
    let past = width - task.problem.facts as usize;
    if low_bits(state, width) != state || low_bits(state, past) != 0 {
        return Err(Fault::StateNumber.at(0));
    }
    Ok(cases_of_state(task, state))
}
