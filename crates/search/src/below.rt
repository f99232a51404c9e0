// The plans of a problem, tried one after another. Those that begin alike share the cases after their first steps, so that a plan costs its
// last step and the goal before the walk goes through the looks.
ghost use Rattle.std.proofs.Props.{props};
ghost use Rattle.std.specs.Prelude.{◌≤◌};
ghost use Rattle.model.specs.Limits.{max_length};
ghost use Rattle.search.specs.Beginning.{IsBegun};
ghost use Rattle.search.specs.Trying.{ComesToEnd};

use crate::plan::{Ended, Root};
use blocks::Task;
use cases::Cases;
use model::ShortPlan;
use runs::{Looks, reached_lanes};
use step::obey;
use walk::{Block, Stopped, Tables, Unkept, walk_block};

// The plans that begin so: their first steps, the lanes of the first block that go on after them, and the cases there then.
#[derive(Clone, Copy)]
pub struct Begun<'a> {
    pub root: &'a Root<'a>,
    pub plan: ShortPlan,
    pub alive: u64,
    pub cases: &'a Cases,
    pub ghost begun: { IsBegun root.now plan alive cases.now } by { Prim.hlevel props },
}

impl Begun<'_> {
    ghost use Rattle.std.specs.Prelude.{[], ◌∷◌, ◌++◌, ◌+◌, ◌≤◌, ◌<◌, length};
    ghost use Rattle.walk.specs.Tables.{AtFirst};
    ghost use Rattle.search.specs.Trying.{longer, Comes};

    // The plan with no more steps, judged with the visits that are left: those that are left after it, where it is wrong.
    pub fn try_plan(&self, left: u64, tables: &mut Tables) -> Result<u64, Ended>
        requires { AtFirst tables.old self.now.root.now.problem.now.facts }
        ensures stands { AtFirst tables.new self.now.root.now.problem.now.facts }
        ensures comes { Comes self.now.root.now.problem.now (self.now.plan ∷ []) left result }
    {
        let root = self.root;
        let task = Task::of(root.problem, self.plan.steps());
        let carries = reached_lanes(root.problem, self.cases, self.alive);
        let block = Block::first(&task, Looks::of(root.starts, carries));
        match walk_block(&block, left, &mut Unkept, tables) {
            Ok(closed) => Err(Ended::Right {
                plan: self.plan,
                left: closed.left,
            }),
            Err(Stopped::OutOfVisits) => Err(Ended::Undecided { plan: self.plan }),
            Err(Stopped::Failed { state: _, left }) => Ok(left),
        }
    }

    // Every plan with so many more steps.
    #[cycle(plans)]
    fn try_below(&self, more: usize, left: u64, tables: &mut Tables) -> Result<u64, Ended>
        requires room { length self.now.plan + more ≤ max_length }
        requires stands { AtFirst tables.old self.now.root.now.problem.now.facts }
        ensures stands { AtFirst tables.new self.now.root.now.problem.now.facts }
        ensures comes { let p = self.now.root.now.problem.now in Comes p (longer p self.now.plan more) left result }
    {
        if more == 0 {
            return self.try_plan(left, tables);
        }
        let mut rest = left;
        for step in 0..self.root.problem.actions.count {
            rest = self.try_step(step, more - 1, rest, tables)?;
        }
        Ok(rest)
    }

    // Those whose next step is `step`, with so many more after it. Where no lane goes on there is nothing to obey.
    #[cycle(plans)]
    fn try_step(&self, step: u8, more: usize, left: u64, tables: &mut Tables) -> Result<u64, Ended>
        requires action { step < self.now.root.now.problem.now.actions.count }
        requires room { length self.now.plan + more < max_length }
        requires stands { AtFirst tables.old self.now.root.now.problem.now.facts }
        ensures stands { AtFirst tables.new self.now.root.now.problem.now.facts }
        ensures comes { let p = self.now.root.now.problem.now in Comes p (longer p (self.now.plan ++ step ∷ []) more) left result }
    {
        if self.alive == 0 {
            let next = Begun {
                root: self.root,
                plan: self.plan.extended(step),
                alive: 0,
                cases: self.cases,
            };
            return next.try_below(more, left, tables);
        }
        self.try_obeyed(step, more, left, tables)
    }

    // The same where a lane goes on: the step is obeyed in a copy of the cases. Only here a call holds cases, so that no other makes room for
    // them.
    #[cycle(plans)]
    fn try_obeyed(
        &self,
        step: u8,
        more: usize,
        left: u64,
        tables: &mut Tables,
    ) -> Result<u64, Ended>
        requires action { step < self.now.root.now.problem.now.actions.count }
        requires room { length self.now.plan + more < max_length }
        requires some { 0 < self.now.alive }
        requires stands { AtFirst tables.old self.now.root.now.problem.now.facts }
        ensures stands { AtFirst tables.new self.now.root.now.problem.now.facts }
        ensures comes { let p = self.now.root.now.problem.now in Comes p (longer p (self.now.plan ++ step ∷ []) more) left result }
    {
        let mut cases = *self.cases;
        let action = self.root.problem.actions.get(step);
        let going = obey(action, &mut cases, &mut tables.conditions, self.alive).unwrap_or(0);
        let next = Begun {
            root: self.root,
            plan: self.plan.extended(step),
            alive: going,
            cases: &cases,
        };
        next.try_below(more, left, tables)
    }
}

// Every plan of each length up to the longest: the visits that are left, where none is right.
pub fn try_lengths(root: &Root, longest: usize, grant: u64) -> Result<u64, Ended>
    requires { longest ≤ max_length }
    ensures { ComesToEnd root.now.problem.now longest grant result }
{
    let mut tables = Tables::first(root.problem.facts);
    let begun = Begun {
        root,
        plan: ShortPlan::empty(),
        alive: root.starts,
        cases: root.lanes,
    };
    let mut left = grant;
    for length in 0..longest + 1 {
        left = begun.try_below(length, left, &mut tables)?;
    }
    Ok(left)
}
