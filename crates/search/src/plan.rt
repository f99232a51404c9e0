// What all plans of a problem have in common, and what ends their search.
ghost use Rattle.std.proofs.Props.{props};
ghost use Rattle.std.specs.Prelude.{◌≡◌, replicate};
ghost use Rattle.model.specs.Kleene.{Unknown};
ghost use Rattle.blocks.specs.Values.{problem as problem_of};
ghost use Rattle.cases.specs.Cases.{case_of};
ghost use Rattle.runs.specs.Looks.{NotEmpty};
ghost use Rattle.walk.specs.Lanes.{IsBlock, first_levels};

use blocks::Problem;
use cases::Cases;
use model::{Search, ShortPlan};

// The problem, the lanes of the block that every walk begins with, and which of them are not empty.
#[derive(Clone, Copy)]
pub struct Root<'a> {
    pub problem: &'a Problem<'a>,
    pub lanes: &'a Cases,
    pub starts: u64,
    pub ghost facts: { lanes.now.facts ≡ problem.now.facts },
    pub ghost first: { IsBlock (case_of lanes.now) (replicate problem.now.facts Unknown) 0 (first_levels problem.now.facts) } by { Prim.hlevel props },
    pub ghost not_empty: { NotEmpty (problem_of problem.now).initial (case_of lanes.now) starts } by { Prim.hlevel props },
}

// What ends a search: the first right plan, with the visits that are left, or the first plan that needs more.
#[derive(Clone, Copy)]
pub enum Ended {
    Right { plan: ShortPlan, left: u64 },
    Undecided { plan: ShortPlan },
}

impl Ended {
    ghost use Rattle.model.specs.Answers.{search_end};
    ghost use Rattle.search.specs.Trying.{ended_at, EndsWithin};

    // The answer of a search under this grant.
    pub fn answer(self, grant: u64) -> Search
        requires { EndsWithin grant self }
        ensures { search_end result ≡ ended_at grant self }
    {
        match self {
            Ended::Right { plan, left } => Search::Found {
                plan,
                visits: grant - left,
            },
            Ended::Undecided { plan } => Search::Undecided {
                plan,
                visits: grant,
            },
        }
    }
}
