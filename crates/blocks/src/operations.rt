// Reading a problem, and a plan for it: what they count.
ghost use Rattle.std.specs.Prelude.{◌≡◌};
ghost use Rattle.model.specs.Limits.{limits_of};
ghost use Rattle.model.specs.Operations.{read_problem, read_plan};
ghost use Rattle.model.specs.Answers.{plain_answer};
ghost use Rattle.blocks.specs.Promise.{ProblemPromised, PlanPromised};

use crate::problem::Problem;
use model::{Counts, Refusal};

// Read a problem: its refusal, or its fact and action counts.
pub fn read_problem(s: &[u8]) -> Result<Counts, Refusal>
    ensures answer { plain_answer result ≡ read_problem (limits_of s.now) s.now }
    ensures promised { ProblemPromised s.now (plain_answer result) }
{
    let problem = Problem::read(s)?;
    Ok(Counts {
        facts: problem.facts,
        actions: problem.actions.count,
    })
}

// Read a plan: the problem's refusal, the plan's, or its step count.
pub fn read_plan(problem: &[u8], plan: &[u8]) -> Result<usize, Refusal>
    ensures answer { plain_answer result ≡ read_plan (limits_of problem.now) problem.now plan.now }
    ensures promised { PlanPromised problem.now plan.now (plain_answer result) }
{
    let problem = Problem::read(problem)?;
    let task = problem.plan(plan)?;
    Ok(task.steps.len())
}
