// Writing the list. The walk goes twice: first to know, under the grant and keeping no line, and then to write, so that a refusal changes no
// byte.
ghost use Rattle.std.specs.Prelude.{◌≡◌, ◌+◌, ◌≤◌, length};
ghost use Rattle.numbers.specs.Writing.{HasRoom, Writes};
ghost use Rattle.model.specs.Limits.{limits_of};
ghost use Rattle.model.specs.Read.{head_bytes};
ghost use Rattle.model.specs.Walk.{walked};
ghost use Rattle.model.specs.Answer.{answered};
ghost use Rattle.model.specs.Operations.{write_list, write_read, read_both};
ghost use Rattle.model.specs.Answers.{plain_answer};
ghost use Rattle.blocks.specs.Values.{task as task_of};
ghost use Rattle.certificate.specs.Promise.{WritePromised};
ghost use Rattle.certificate.specs.Writing.{head_of, WritesTask};

use blocks::{Problem, Task};
use model::{Fault, Limits, Refusal};
use numbers::Writer;
use walk::{Page, Stopped, Unkept, walk_task};

// A block's version and the length of its body.
fn put_header(writer: &mut Writer, limits: Limits, body: u64)
    requires { HasRoom writer.old (head_of limits body) }
    ensures { Writes writer.old (head_of limits body) writer.new }
{
    writer.put(limits.version);
    writer.put_number(body, Limits::HEAD_BYTES - 1);
}

// The block of a right plan's list, whose length is known.
fn write_task(task: &Task, grant: u64, body: usize, out: &mut [u8])
    requires { head_bytes + body ≤ length out.old }
    ensures { WritesTask task.now.problem.now.limits (walked (task_of task.now)) grant body out.old out.new }
{
    put_header(&mut Writer { out, at: 0 }, task.problem.limits, body as u64);
    let mut page = Page {
        out,
        at: Limits::HEAD_BYTES,
    };
    let _ended = walk_task(task, grant, &mut page);
}

// Writes the list of a task that was read: 50 undecided and 51 wrong, with the visits; 52 too many lines and 53 too short a buffer, with the lines;
// or the list block in the first bytes, and its length.
pub fn write_list_task(task: &Task, grant: u64, out: &mut [u8]) -> Result<usize, Refusal>
    ensures answer { plain_answer result ≡ (write_read task.now.problem.now.limits (answered (task_of task.now)) grant out.old).answer }
    ensures buffer { out.new ≡ (write_read task.now.problem.now.limits (answered (task_of task.now)) grant out.old).buffer }
{
    match walk_task(task, grant, &mut Unkept) {
        Err(Stopped::OutOfVisits) => Err(Fault::Undecided.at(grant)),
        Err(Stopped::Failed { state: _, left }) => Err(Fault::Wrong.at(grant - left)),
        Ok(closed) => {
            let limits = task.problem.limits;
            let lines = closed.lines;
            if lines > limits.lines as u64 {
                return Err(Fault::TooManyLines.at(lines));
            }
            let body = limits.line * lines as usize;
            let length = Limits::HEAD_BYTES + body;
            let short = out.len() < length;
            if short {
                return Err(Fault::ShortBuffer.at(lines));
            }
            write_task(task, grant, body, out);
            Ok(length)
        }
    }
}

// Write the list with a grant: the refusals of problem and plan, and then those of the task that they make; or its list's length.
pub fn write_list(problem: &[u8], plan: &[u8], grant: u64, out: &mut [u8]) -> Result<usize, Refusal>
    ensures answer { plain_answer result ≡ (write_list (limits_of problem.now) problem.now plan.now grant out.old).answer }
    ensures buffer { out.new ≡ (write_list (limits_of problem.now) problem.now plan.now grant out.old).buffer }
    ensures promised { WritePromised (limits_of problem.now) (read_both problem.now plan.now) grant out.old (plain_answer result) out.new }
{
    let found = Problem::read(problem)?;
    let task = found.plan(plan)?;
    write_list_task(&task, grant, out)
}
