// Try every short plan, in order.
ghost use Rattle.std.specs.Prelude.{◌≡◌, ◌≤◌};
ghost use Rattle.model.specs.Limits.{limits_of, max_actions, max_length};
ghost use Rattle.model.specs.Search.{plan_count, search};
ghost use Rattle.model.specs.Operations.{plans_in, search_plans};
ghost use Rattle.model.specs.Answers.{search_end, search_answer};
ghost use Rattle.blocks.specs.Values.{problem as problem_of};
ghost use Rattle.search.specs.Beginning.{task_with};
ghost use Rattle.search.specs.Promise.{SearchPromised};

use crate::below::try_lengths;
use crate::plan::Root;
use blocks::Problem;
use cases::Cases;
use model::{Fault, Refusal, Search, ShortPlan};
use runs::start_lanes;
use walk::first_levels;

// The plans up to a length: the empty one, and each action before every plan that is a step shorter.
fn plan_count(actions: u64, longest: u64) -> u64
    requires few { actions ≤ max_actions }
    requires short { longest ≤ max_length }
    ensures { result ≡ plan_count actions longest }
{
    let mut count: u64 = 1;
    for _ in 0..longest {
        count = actions * count + 1;
    }
    count
}

// The plans of a problem, up to a length.
fn search_problem(problem: &Problem, longest: usize, grant: u64) -> Search
    requires { longest ≤ max_length }
    ensures { search_end result ≡ search (task_with problem.now) grant (plans_in (problem_of problem.now) longest) 0 }
{
    let mut lanes = Cases::first_case(problem.facts);
    lanes.fix_levels(0, first_levels(problem.facts as usize));
    let root = Root {
        problem,
        lanes: &lanes,
        starts: start_lanes(problem, &lanes),
    };
    match try_lengths(&root, longest, grant) {
        Ok(left) => Search::NoneRight {
            visits: grant - left,
        },
        Err(ended) => ended.answer(grant),
    }
}

// Try every plan up to a length: the problem's refusals; 43 for a length over 4; 44 for more than 1,000,000 plans; or the first right plan,
// that none is right, or undecided with the first plan whose walk needs more than the visits left.
pub fn search_plans(problem: &[u8], longest: u64, grant: u64) -> Result<Search, Refusal>
    ensures answer { search_answer result ≡ search_plans (limits_of problem.now) problem.now longest grant }
    ensures promised { SearchPromised problem.now longest grant (search_answer result) }
{
    let found = Problem::read(problem)?;
    if longest > ShortPlan::MAX_STEPS as u64 {
        return Err(Fault::PlanLength.at(0));
    }
    if plan_count(found.actions.count as u64, longest) > ShortPlan::MAX_PLANS {
        return Err(Fault::TooManyPlans.at(0));
    }
    Ok(search_problem(&found, longest as usize, grant))
}
