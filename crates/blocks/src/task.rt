// A task as a value: a problem beside the steps of a plan for it.
ghost use Rattle.std.specs.Prelude.{◌≡◌, ℕ, ◌<◌, length, slice_index};

use crate::plan::check_plan;
use crate::problem::Problem;
use fields::Action;
use model::{Limits, Refusal};

// A problem, and the steps of a plan: each names one of its actions.
#[derive(Clone, Copy)]
pub struct Task<'a> {
    pub problem: &'a Problem<'a>,
    pub steps: &'a [u8],
    pub ghost named: { (i : ℕ) → i < length steps.now → slice_index steps.now i < problem.now.actions.count },
}

impl<'a> Problem<'a> {
    ghost use Rattle.std.specs.Prelude.{IfOk};
    ghost use Rattle.model.specs.ProblemBytes.{plan_of};
    ghost use Rattle.blocks.specs.Values.{problem, task_read, task_from, steps_read};

    // The task that the plan in a block makes of it.
    pub fn plan(&'a self, plan: &'a [u8]) -> Result<Task<'a>, Refusal>
        ensures read { task_read result ≡ task_from self.entry.now.limits (problem self.entry.now) plan.entry.now }
        ensures steps { steps_read result ≡ plan_of plan.entry.now (length (problem self.entry.now).actions) }
        ensures problem { IfOk result (λ t. t.problem.now ≡ self.entry.now) }
    {
        check_plan(plan, self.actions.count)?;
        Ok(Task::of(self, &plan[Limits::HEAD_BYTES..]))
    }
}

impl<'a> Task<'a> {
    ghost use Rattle.model.specs.ProblemBytes.{action_at};
    ghost use Rattle.model.specs.Operations.{task_of};
    ghost use Rattle.fields.specs.Actions.{action};
    ghost use Rattle.blocks.specs.Values as values;
    ghost use Rattle.blocks.specs.Values.{task};

    // The task of these steps.
    #[inline(always)]
    pub fn of(problem: &'a Problem<'a>, steps: &'a [u8]) -> Task<'a>
        requires { (i : ℕ) → i < length steps.now → slice_index steps.now i < problem.now.actions.count }
        ensures is { task result ≡ task_of problem.entry.now.limits (values.problem problem.entry.now) steps.entry.now }
        ensures problem { result.problem.now ≡ problem.entry.now }
        ensures steps { result.steps.now ≡ steps.entry.now }
    {
        Task { problem, steps }
    }

    // The action of step i.
    #[inline(always)]
    pub fn action(&self, i: usize) -> Action<'a>
        requires { i < length self.now.steps.now }
        ensures is { action result ≡ action_at (task self.now).plan i }
        ensures facts { result.effects.facts ≡ self.now.problem.now.facts }
    {
        self.problem.actions.get(self.steps[i])
    }
}
