// The desk program: judges the plan in one file for the problem in another, and prints the verdict and its list. What is wrong it says in
// words on standard error, and by its exit status.

#![tactic(auto)]

ghost use Rattle.std.specs.Prelude.{◌≡◌, ◌≤◌, [], length, take, IfOk, IfErr};

mod judging;
mod lacks;

use answers::{Answer, RefusalWords, Status};
use files::{ErrorWords, read_path};
use judging::write_page;
use lacks::{Lack, Lacks};
use model::{Plan, Problem, Refusal, Verdict};
use std::env::{Env, FillError};
use std::io::{BufWriter, ErrorKind, Write};
use std::process::ExitCode;
use std::rt::Files;
use std::{io, str};

// One byte more than a block may have: a longer file is cut there, and still refused as too long.
const PROBLEM_ROOM: usize = Problem::MAX_BYTES + 1;

const PLAN_ROOM: usize = Plan::MAX_BYTES + 1;

// The bytes of a path, and one after them.
const PATH_ROOM: usize = 4096;

// Reads the file that an argument names: how many bytes came, which begin buf.
fn load<R: Env + Files>(rt: &R, argument: usize, buf: &mut [u8]) -> Result<usize, Lack>
    ensures { IfOk result (λ n. n ≤ length buf.new) }
{
    let mut name = [0u8; PATH_ROOM];
    let length = match rt.arg(argument, &mut name) {
        Ok(length) => length,
        Err(FillError::NotPresent) => return Err(Lack::NoName),
        Err(FillError::TooLong) => return Err(Lack::Unread(ErrorKind::InvalidFilename)),
    };
    let Ok(path) = str::from_utf8(&name[..length]) else {
        return Err(Lack::NoText);
    };
    match read_path(rt, path, buf) {
        Ok(n) => Ok(n),
        Err(error) => Err(Lack::Unread(error.kind())),
    }
}

// What was read, which begins buf: nothing where no file was.
fn begun(buf: &[u8], read: Result<usize, Lack>) -> &[u8]
    requires { IfOk read (λ n. n ≤ length buf.now) }
    ensures read { IfOk read (λ n. result.now ≡ take n buf.now) }
    ensures unread { IfErr read (λ _. result.now ≡ []) }
{
    match read {
        Ok(n) => &buf[..n],
        Err(_) => &[],
    }
}

// Whether the command line has more words than the names of a problem and of a plan.
fn has_more<R: Env>(rt: &R) -> bool {
    match rt.arg(3, &mut []) {
        Err(FillError::NotPresent) => false,
        _ => true,
    }
}

// Prints the page, and gives the judge's answer. Where there is no memory for a buffer, each line is a write of its own.
fn print_page<R: Print + AllocGlobal>(
    rt: &R,
    problem: &[u8],
    plan: &[u8],
) -> io::Result<Result<Verdict, Refusal>> {
    let Ok(mut output) = BufWriter::new(rt.alloc(), io::writer(rt)) else {
        return write_page(&mut io::writer(rt), problem, plan);
    };
    let answer = write_page(&mut output, problem, plan)?;
    output.flush()?;
    Ok(answer)
}

// Says on standard error what is wrong. A block that could not be read is not told of as malformed too.
fn complain<R: Eprint>(
    rt: &R,
    lacks: Lacks,
    printed: io::Result<Result<Verdict, Refusal>>,
) -> io::Result<()> {
    if let Some(lack) = lacks.problem {
        eprintln!(rt; "larkhammock: problem: {lack}")?;
    }
    if let Some(lack) = lacks.plan {
        eprintln!(rt; "larkhammock: plan: {lack}")?;
    }
    if lacks.more {
        eprintln!(rt;
            "larkhammock: one problem and one plan are judged, and there are more words"
        )?;
    }
    match printed {
        Err(error) => {
            let words = ErrorWords(error.kind());
            eprintln!(rt; "larkhammock: standard output: {words}")
        }
        Ok(Err(refusal)) if lacks.has_files() => {
            let words = RefusalWords(refusal);
            eprintln!(rt; "larkhammock: {words}")
        }
        Ok(_) => Ok(()),
    }
}

fn main(rt: HostRuntime) -> ExitCode {
    let mut problem = [0u8; PROBLEM_ROOM];
    let mut plan = [0u8; PLAN_ROOM];
    let problem_read = load(&rt, 1, &mut problem);
    let plan_read = load(&rt, 2, &mut plan);
    let printed = print_page(&rt, begun(&problem, problem_read), begun(&plan, plan_read));
    let lacks = Lacks {
        problem: problem_read.err(),
        plan: plan_read.err(),
        more: has_more(&rt),
    };
    // What standard error cannot say, the status does.
    let _ = complain(&rt, lacks, printed);
    let status = match printed {
        Ok(answer) => lacks.status(Status::of(answer.map(Answer::Judged))),
        Err(_) => Status::Unwritten,
    };
    ExitCode::from(status)
}
