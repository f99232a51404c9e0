// The runs in 64 cases at once: in which lanes they reach the goal. The hot path: every visit of a walk looks.
ghost use Rattle.std.specs.Prelude.{◌≡◌};
ghost use Rattle.blocks.specs.Values.{problem as problem_of, task as task_of};
ghost use Rattle.cases.specs.Cases.{case_of};
ghost use Rattle.runs.specs.Looks.{NotEmpty, GoalReached, LooksAt, Reaches};

use blocks::{Problem, Task};
use cases::{Cases, ONES, evaluate, lane_bit};
use model::Kind;
use step::{Conditions, obey};

// What a visit finds of 64 cases: those that are empty, and those that carry; the others are open.
#[derive(Clone, Copy)]
pub struct Looks {
    pub empty: u64,
    pub carries: u64,
}

impl Looks {
    ghost use Rattle.std.specs.Prelude.{◌≡◌, ◌<◌};
    ghost use Rattle.model.specs.Planes.{lane_bit};
    ghost use Rattle.runs.specs.Looks.{kind_look, look_bits, looks_of};

    // What is found where these lanes are not empty, and of them those carry.
    #[inline(always)]
    pub fn of(starts: u64, carries: u64) -> Looks
        ensures { result ≡ looks_of starts carries }
    {
        Looks {
            empty: ONES ^ starts,
            carries,
        }
    }

    // What a visit finds of the case in a lane: the kind of a closed case, none of an open one.
    #[inline(always)]
    pub fn kind(self, lane: usize) -> Option<Kind>
        requires { lane < 64 }
        ensures { kind_look result ≡ look_bits (lane_bit lane self.empty) (lane_bit lane self.carries) }
    {
        if lane_bit(self.empty, lane) == 1 {
            Some(Kind::Empty)
        } else if lane_bit(self.carries, lane) == 1 {
            Some(Kind::Carries)
        } else {
            None
        }
    }
}

// The lanes whose case is not empty: in some state of it the initial formula holds.
#[inline(always)]
pub fn start_lanes(problem: &Problem, cases: &Cases) -> u64
    ensures { NotEmpty (problem_of problem.now).initial (case_of cases.now) result }
{
    evaluate(problem.initial, cases).some
}

// The lanes of `alive` in which the goal holds.
#[inline(always)]
pub fn reached_lanes(problem: &Problem, cases: &Cases, alive: u64) -> u64
    ensures { GoalReached (problem_of problem.now).goal (case_of cases.now) alive result }
{
    if alive == 0 {
        return 0;
    }
    alive & evaluate(problem.goal, cases).sure
}

// The lanes of `lanes` in which the whole plan runs and reaches the goal. It is run on the cases themselves.
fn run_lanes(task: &Task, cases: &mut Cases, conditions: &mut Conditions, lanes: u64) -> u64
    requires { cases.old.facts ≡ task.now.problem.now.facts }
    ensures facts { cases.new.facts ≡ cases.old.facts }
    ensures reaches { Reaches (task_of task.now) lanes (case_of cases.old) result }
{
    let mut alive = lanes;
    for i in 0..task.steps.len() {
        let Ok(left) = obey(task.action(i), cases, conditions, alive) else {
            return 0;
        };
        alive = left;
    }
    reached_lanes(task.problem, cases, alive)
}

// What a visit finds of 64 cases, which are used up: the plan is run on them. The conditions are lent, so that no look has to make room for them.
pub fn look(task: &Task, cases: &mut Cases, conditions: &mut Conditions) -> Looks
    ensures facts { cases.new.facts ≡ cases.old.facts }
    ensures looks { cases.old.facts ≡ task.now.problem.now.facts → LooksAt (task_of task.now) (case_of cases.old) result }
{
    // Whoever lends cases of another number of facts is answered too. The plan is not run on them, since it may name facts that they do not have:
    // all of them are left open.
    let same = cases.facts == task.problem.facts;
    if !same {
        return Looks::of(ONES, 0);
    }
    let starts = start_lanes(task.problem, cases);
    Looks::of(starts, run_lanes(task, cases, conditions, starts))
}
