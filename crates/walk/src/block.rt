// Blocks of cases that were looked at.
ghost use Rattle.std.proofs.Props.{props};
ghost use Rattle.std.specs.Prelude.{◌≡◌, ◌+◌, ◌-◌, ◌%◌, ◌^◌, ◌≤◌, ◌<◌};
ghost use Rattle.blocks.specs.Values.{task as task_of};
ghost use Rattle.cases.specs.Blocks.{max_levels};
ghost use Rattle.runs.specs.Looks.{LooksAt};
ghost use Rattle.walk.specs.Lanes.{IsAfter, LevelsOf, first_levels, block_of};

use crate::case::Case;
use blocks::Task;
use cases::LEVELS;
use numbers::span;
use runs::Looks;

// A block: its own case, in lane 1, and below it the cases of the next facts, so many levels of them; and what a visit finds of each. The parts
// of lane i are the lanes 2i and 2i + 1.
#[derive(Clone, Copy)]
pub struct Block<'a> {
    pub task: &'a Task<'a>,
    pub own: Case,
    pub levels: usize,
    pub looks: Looks,
    pub ghost some: { 0 < levels },
    pub ghost few: { levels ≤ max_levels },
    pub ghost inside: { own.k + levels ≤ task.now.problem.now.facts },
    pub ghost begins: { own.number % 2 ^ ((task_of task.now).width - own.k) ≡ 0 },
    pub ghost numbers: { own.number + 2 ^ ((task_of task.now).width - own.k) ≤ 2 ^ (task_of task.now).width },
    pub ghost looked: { LooksAt (task_of task.now) (block_of (task_of task.now).width task.now.problem.now.facts own.k own.number levels) looks } by { Prim.hlevel props },
}

impl<'a> Block<'a> {
    ghost use Rattle.std.specs.Prelude.{ℕ, ◌*◌, IsTrue, ◌↔◌};
    ghost use Rattle.model.specs.Walk.{opened, walked};
    ghost use Rattle.walk.specs.Lanes.{OnLevel};
    ghost use Rattle.walk.specs.Nodes.{limits_of, look_in, case_at, walk_at};

    // The block that the walk of a task begins with, of which a visit finds so much: the walk of its own case is the whole walk.
    pub fn first(task: &'a Task<'a>, looks: Looks) -> Block<'a>
        requires { let facts = task.now.problem.now.facts in LooksAt (task_of task.now) (block_of (task_of task.now).width facts 0 0 (first_levels facts)) looks }
        ensures first { result.own.k ≡ 0 }
        ensures number { result.own.number ≡ 0 }
        ensures task { result.task.now ≡ task.entry.now }
        ensures limits { limits_of result ≡ task.entry.now.problem.now.limits }
        ensures walk { walk_at result 0 1 ≡ walked (task_of task.entry.now) }
    {
        Block {
            task,
            own: Case { k: 0, number: 0 },
            levels: first_levels(task.problem.facts as usize),
            looks,
        }
    }

    // Whether the case of a lane is open and its parts are lanes of this block too.
    #[inline(always)]
    pub fn splits(&self, lane: usize) -> bool
        requires { lane < 64 }
        ensures { IsTrue result ↔ ((look_in self.now lane ≡ opened) × (lane < 2 ^ self.now.levels)) }
    {
        self.looks.kind(lane).is_none() && lane < 1usize << self.levels
    }

    // The case of a lane. The lanes of the last level go by their numbers, and the first of those below a lane has the lane's number.
    #[inline(always)]
    pub fn case(&self, lane: usize) -> Case
        requires some { 0 < lane }
        requires inside { lane < 2 * 2 ^ self.now.levels }
        ensures { (e : ℕ) → OnLevel lane e → result ≡ case_at self.now e lane }
    {
        let level = lane.ilog2() as usize;
        let last = self.own.k + self.levels;
        let below = (lane << (self.levels - level)) - (1usize << self.levels);
        Case {
            k: self.own.k + level,
            number: self.own.number
                + below as u64 * span(self.task.problem.limits.width as usize, last),
        }
    }
}

// The lane to turn to when a lane and its parts are done: up past the yes parts to the nearest no part, and to the yes part beside it; 1
// where there is none.
#[inline(always)]
pub fn lane_after(lane: usize) -> usize
    requires { lane < 64 }
    ensures { IsAfter lane result }
{
    let next = lane + 1;
    next >> next.trailing_zeros()
}

// The levels of the first block: the odd ones, so that all blocks below it are full. Over no fact there is none.
pub fn first_levels(facts: usize) -> usize
    ensures is { 1 ≤ facts → result ≡ first_levels facts }
    ensures levels { LevelsOf facts result }
{
    if facts == 0 {
        0
    } else {
        (facts - 1) % LEVELS + 1
    }
}
