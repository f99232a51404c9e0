// The operations on a list that somebody else may have written: where its first lines end, and whether it passes.
ghost use Rattle.std.specs.Prelude.{◌≡◌, ◌+◌, ◌*◌, ◌≤◌, ◌<◌, length, IfOk};
ghost use Rattle.model.specs.Read.{head_bytes};
ghost use Rattle.model.specs.Limits.{limits_of};
ghost use Rattle.model.specs.WellFormed.{Sensible};
ghost use Rattle.model.specs.ListBytes.{lines_from, list_of};
ghost use Rattle.model.specs.Answer.{answered};
ghost use Rattle.model.specs.Operations.{follow_list, cover_after, follow_read, cover_read, read_both};
ghost use Rattle.model.specs.Answers.{plain_answer};
ghost use Rattle.blocks.specs.Values.{task as task_of};
ghost use Rattle.follow.specs.Follows.{OfAVersion, lines_counted, end_of_lines};
ghost use Rattle.follow.specs.Promise.{FollowPromised, CoverPromised};

use crate::covered::Covered;
use crate::follower::Follower;
use blocks::{Problem, Task};
use fields::check_list_header;
use lines::ListReader;
use model::{Fault, Limits, Refusal};

// How many lines a list block has: refused if its header is wrong, or if its last line is not whole.
fn count_lines(list: &[u8], limits: Limits) -> Result<usize, Refusal>
    requires { Sensible limits }
    ensures counted { lines_counted limits list.now result ≡ list_of limits list.now }
    ensures inside { IfOk result (λ count. head_bytes + limits.line * count ≤ length list.now) }
{
    check_list_header(list, limits)?;
    let body = list.len() - Limits::HEAD_BYTES;
    if body % limits.line != 0 {
        return Err(Fault::PartialLine.at_byte(list.len()));
    }
    Ok(body / limits.line)
}

// Follows the first so many lines, one after the other: what they cover together. Each version has the loop to itself, compiled by its numbers.
fn follow_lines(task: &Task, list: &[u8], limits: Limits, count: usize) -> Result<Covered, Refusal>
    requires version { OfAVersion limits }
    requires limits { limits ≡ task.now.problem.now.limits }
    requires inside { head_bytes + limits.line * count ≤ length list.now }
    ensures { plain_answer result ≡ end_of_lines (task_of task.now) (lines_from limits list.now count head_bytes) }
{
    if limits.version == 2 {
        return follow_lines_by(task, list, Limits::version2(), count);
    }
    follow_lines_by(task, list, Limits::version1(), count)
}

// The same, by numbers that the compiler knows where it is called.
#[inline(always)]
fn follow_lines_by(
    task: &Task,
    list: &[u8],
    limits: Limits,
    count: usize,
) -> Result<Covered, Refusal>
    requires limits { limits ≡ task.now.problem.now.limits }
    requires inside { head_bytes + limits.line * count ≤ length list.now }
    ensures { plain_answer result ≡ end_of_lines (task_of task.now) (lines_from limits list.now count head_bytes) }
{
    let mut follower = Follower::new(task);
    let mut reader = ListReader::new(list, limits);
    while reader.line < count {
        follower.follow(reader.cursor())?;
        reader = reader.next_line();
    }
    Ok(follower.covered)
}

// What the first so many lines of a list for a task that was read cover, or all where it has fewer: the refusals of the list's block, those of these
// lines, or how many numbers that is, which are all below where it ends.
pub fn cover_after_task(task: &Task, list: &[u8], lines: usize) -> Result<Covered, Refusal>
    requires { OfAVersion task.now.problem.now.limits }
    ensures { plain_answer result ≡ cover_read task.now.problem.now.limits (answered (task_of task.now)) list.now lines }
{
    let limits = task.problem.limits;
    let count = count_lines(list, limits)?;
    follow_lines(task, list, limits, lines.min(count))
}

// Follows a list for a task that was read: 60 to 71, or the line count of a list that passes. After the last line the running value is all that is
// asked.
pub fn follow_list_task(task: &Task, list: &[u8]) -> Result<usize, Refusal>
    requires { OfAVersion task.now.problem.now.limits }
    ensures { plain_answer result ≡ follow_read task.now.problem.now.limits (answered (task_of task.now)) list.now }
{
    let limits = task.problem.limits;
    let count = count_lines(list, limits)?;
    let covered = follow_lines(task, list, limits, count)?;
    if !covered.is_whole(limits.width) {
        return Err(Fault::ListEnds.at(count as u64));
    }
    Ok(count)
}

// What the first so many lines of a list cover: the refusals of problem and plan, and then those of the task that they make; or how many numbers.
pub fn cover_after(
    problem: &[u8],
    plan: &[u8],
    list: &[u8],
    lines: usize,
) -> Result<Covered, Refusal>
    ensures answer { plain_answer result ≡ cover_after (limits_of problem.now) problem.now plan.now list.now lines }
    ensures promised { CoverPromised (limits_of problem.now) (read_both problem.now plan.now) list.now lines (plain_answer result) }
{
    let found = Problem::read(problem)?;
    let task = found.plan(plan)?;
    cover_after_task(&task, list, lines)
}

// Follow a list: the refusals of problem and plan, and then those of the task that they make; or the line count of a list that passes.
pub fn follow_list(problem: &[u8], plan: &[u8], list: &[u8]) -> Result<usize, Refusal>
    ensures answer { plain_answer result ≡ follow_list (limits_of problem.now) problem.now plan.now list.now }
    ensures promised { FollowPromised (limits_of problem.now) (read_both problem.now plan.now) list.now (plain_answer result) }
{
    let found = Problem::read(problem)?;
    let task = found.plan(plan)?;
    follow_list_task(&task, list)
}
