// The walk over cases, for judging and for writing alike. A block is a case and the cases of its next five facts, looked at in one pass; the
// walk goes through its lanes depth first, and an open case at its edge begins a block of its own.
ghost use Rattle.std.specs.Prelude.{ℕ, ◌≡◌, ◌+◌, ◌*◌, ◌^◌, ◌≤◌, ◌<◌};
ghost use Rattle.model.specs.Walk.{opened, walked};
ghost use Rattle.blocks.specs.Values.{task as task_of};
ghost use Rattle.walk.specs.Lanes.{OnLevel};
ghost use Rattle.walk.specs.Nodes.{limits_of, look_in, walk_at, At};
ghost use Rattle.walk.specs.Walks.{Walks};

use crate::block::{Block, first_levels, lane_after};
use crate::case::Lines;
use crate::tables::Tables;
use blocks::Task;
use cases::LEVELS;

// Every case closed, so many with a line; and the visits that are left of the grant.
#[derive(Clone, Copy)]
pub struct Closed {
    pub lines: u64,
    pub left: u64,
}

// What ends a walk early: out of visits, or at a failing start state, with the visits that are left.
#[derive(Clone, Copy)]
pub enum Stopped {
    OutOfVisits,
    Failed { state: u64, left: u64 },
}

// The walk from a block's own case, lane 1, at which the tables stand, and do again after it.
#[cycle(cases)]
pub fn walk_block<L: Lines>(
    block: &Block,
    grant: u64,
    lines: &mut L,
    tables: &mut Tables,
) -> Result<Closed, Stopped>
    requires { At tables.old block.now }
    ensures stands { At tables.new block.now }
    ensures walks { Walks (L.gives (limits_of block.now)) (walk_at block.now 0 1) grant lines.old result lines.new }
{
    let mut lane = 1;
    let mut count = 0;
    let mut left = grant;
    'lanes: loop {
        if left == 0 {
            return Err(Stopped::OutOfVisits);
        }
        if block.splits(lane) {
            left -= 1;
            lane = 2 * lane;
            continue;
        }
        let closed = walk_lane(block, lane, left, lines, tables)?;
        count += closed.lines;
        left = closed.left;
        lane = lane_after(lane);
        if lane == 1 {
            return Ok(Closed { lines: count, left });
        }
    }
}

// The walk from the case of a lane that does not split into lanes of its block: it is closed, or it is open at the edge.
#[cycle(cases)]
#[inline(always)]
fn walk_lane<L: Lines>(
    block: &Block,
    lane: usize,
    left: u64,
    lines: &mut L,
    tables: &mut Tables,
) -> Result<Closed, Stopped>
    requires some { 0 < lane }
    requires inside { lane < 2 * 2 ^ block.now.levels }
    requires edge { look_in block.now lane ≡ opened → 2 ^ block.now.levels ≤ lane }
    requires granted { 0 < left }
    requires stands { At tables.old block.now }
    ensures stands { At tables.new block.now }
    ensures walks { (e : ℕ) → OnLevel lane e → Walks (L.gives (limits_of block.now)) (walk_at block.now e lane) left lines.old result lines.new }
{
    if let Some(kind) = block.looks.kind(lane) {
        lines.put(&block.task.problem.limits, block.case(lane).line(kind));
        return Ok(Closed {
            lines: 1,
            left: left - 1,
        });
    }
    if block.own.k + block.levels == block.task.problem.facts as usize {
        return Err(Stopped::Failed {
            state: block.case(lane).number,
            left: left - 1,
        });
    }
    walk_below(block, lane, left, lines, tables)
}

// The walk from a case at the edge of its block, which begins a block of its own.
#[cycle(cases)]
fn walk_below<L: Lines>(
    block: &Block,
    lane: usize,
    left: u64,
    lines: &mut L,
    tables: &mut Tables,
) -> Result<Closed, Stopped>
    requires edge { OnLevel lane block.now.levels }
    requires some { block.now.own.k + block.now.levels < block.now.task.now.problem.now.facts }
    requires stands { At tables.old block.now }
    ensures stands { At tables.new block.now }
    ensures walks { Walks (L.gives (limits_of block.now)) (walk_at block.now block.now.levels lane) left lines.old result lines.new }
{
    let problem = block.task.problem;
    let own = block.case(lane);
    let above = block.own.in_table(problem.limits.width);
    let here = own.in_table(problem.limits.width);
    tables.go(block.own.k, above, here);
    let levels = (problem.facts as usize - own.k).min(LEVELS);
    let looks = tables.look(block.task, own.k, levels);
    let below = Block {
        task: block.task,
        own,
        levels,
        looks,
    };
    let walked = walk_block(&below, left, lines, tables);
    tables.go(block.own.k, here, above);
    walked
}

// The walk of a whole task, from the case that fixes no fact. Whoever walks twice has one walk's tables on the stack at a time.
#[inline(never)]
pub fn walk_task<L: Lines>(task: &Task, grant: u64, lines: &mut L) -> Result<Closed, Stopped>
    ensures { Walks (L.gives task.now.problem.now.limits) (walked (task_of task.now)) grant lines.old result lines.new }
{
    let facts = task.problem.facts;
    let mut tables = Tables::first(facts);
    let looks = tables.look(task, 0, first_levels(facts as usize));
    walk_block(&Block::first(task, looks), grant, lines, &mut tables)
}
