// The page for the bytes of a problem and of a plan: the plan is judged, and what the judge answers is written.
ghost use Rattle.std.specs.Prelude.{◌≡◌, ◌≤◌, ◌+◌, ◌*◌, length, OnOk, IfOk};
ghost use Rattle.std.specs.Io.KnownBytes.{Appends};
ghost use Rattle.model.specs.Read.{head_bytes};
ghost use Rattle.model.specs.Limits.{limits_of};
ghost use Rattle.model.specs.WellFormed.{Sensible};
ghost use Rattle.model.specs.Answers.{judge_answer};
ghost use Rattle.model.specs.Operations.{judge};
ghost use Rattle.model.specs.ListBytes.{lines_from};
ghost use Rattle.model.specs.DeskText.{lines_text, desk_grant, desk_text};
ghost use Rattle.page.specs.Pages.{PageOf};
ghost use Rattle.page.specs.Rest.{page_text};

use answers::Facts;
use blocks::Problem;
use judge::judge_task;
use model::{CaseList, Limits, Refusal, Verdict};
use page::{FirstLine, ListLines, Page, Rest, TooLong};
use std::io;
use std::io::Write;

// The program's grant is fixed.
const GRANT: u64 = 1000000;

fn refused(refusal: Refusal, limits: Limits) -> FirstLine
    requires { Sensible limits }
    ensures limits { result.facts.limits ≡ limits }
    ensures answer { result.answer ≡ Err refusal }
{
    FirstLine {
        facts: Facts { limits, count: 0 },
        answer: Err(refusal),
    }
}

// The first line for a problem and a plan, with the lines of a right plan in `list` where a list block has them.
fn judge_blocks(problem: &[u8], plan: &[u8], list: &mut [u8]) -> FirstLine
    requires { let F = limits_of problem.now in head_bytes + F.line * F.lines ≤ length list.old }
    ensures { PageOf problem.now plan.now list.new result }
{
    let limits = Limits::of(problem);
    let found = match Problem::read(problem) {
        Err(refusal) => return refused(refusal, limits),
        Ok(found) => found,
    };
    let task = match found.plan(plan) {
        Err(refusal) => return refused(refusal, limits),
        Ok(task) => task,
    };
    let mut lines = walk::Page {
        out: list,
        at: Limits::HEAD_BYTES,
    };
    let verdict = judge_task(&task, GRANT, &mut lines);
    FirstLine {
        facts: Facts {
            limits: found.limits,
            count: found.facts,
        },
        answer: Ok(verdict),
    }
}

// Writes the lines of a list, each by one write of its whole text.
fn write_list<W: Write>(writer: &mut W, lines: &ListLines) -> io::Result<()>
    ensures { let F = lines.now.facts.limits in OnOk result (Appends (W.contents writer.old) (W.contents writer.new) (lines_text F lines.now.facts.count (lines_from F lines.now.list.now lines.now.count head_bytes))) }
{
    for number in 0..lines.count {
        writer.write_all(lines.line(number).text().as_bytes())?;
    }
    Ok(())
}

// Writes the lines of a page, each by one write of its whole text.
fn write_lines<W: Write>(writer: &mut W, page: &Page) -> io::Result<()>
    ensures { OnOk result (Appends (W.contents writer.old) (W.contents writer.new) (page_text page.now)) }
{
    writer.write_all(page.first.text().as_bytes())?;
    match page.rest() {
        Rest::Nothing => Ok(()),
        Rest::TooLong => writer.write_all(TooLong.text().as_bytes()),
        Rest::Lines(lines) => write_list(writer, &lines),
    }
}

// Writes the page for the bytes of a problem and of a plan: the judge's answer, which it shows.
pub fn write_page<W: Write>(
    writer: &mut W,
    problem: &[u8],
    plan: &[u8],
) -> io::Result<Result<Verdict, Refusal>>
    ensures page { OnOk result (Appends (W.contents writer.old) (W.contents writer.new) (desk_text (limits_of problem.now) problem.now plan.now)) }
    ensures answer { IfOk result (λ a. judge_answer a ≡ judge (limits_of problem.now) problem.now plan.now desk_grant) }
{
    let mut list = [0u8; CaseList::MAX_BYTES];
    let first = judge_blocks(problem, plan, &mut list);
    let page = Page { first, list: &list };
    write_lines(writer, &page)?;
    Ok(first.answer)
}
