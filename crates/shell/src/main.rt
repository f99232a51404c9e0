// The program of the shell: one command a question, which is answered on standard output, and by the exit status. What is wrong is told in
// words on standard error.
#![tactic(auto)]

mod inputs;
mod output;
mod session;

use answers::Status;
use commands::Request;
use grammar::command_line;
use reply::Failure;
use session::answer;
use std::env::Env;
use std::process::ExitCode;
use std::rt::Files;

fn main(rt: HostRuntime) -> ExitCode {
    let status = match run(&rt) {
        Ok(status) => status,
        Err(failure) => {
            // What standard error cannot say, the status does.
            let _ = eprintln!(rt; "larkhammock: {failure}");
            failure.status()
        }
    };
    ExitCode::from(status)
}

// Reads the command line, and answers its command.
fn run<R: Env + Files + Print + Eprint + AllocGlobal>(rt: &R) -> Result<Status, Failure> {
    let Ok(words) = std::env::args(rt) else {
        return Err(Failure::WordNoText);
    };
    let words: Vec<String> = words.collect(rt.alloc())?;
    answer_words(rt, &words)
}

fn answer_words<R: Files + Print + Eprint + AllocGlobal>(
    rt: &R,
    words: &[String],
) -> Result<Status, Failure> {
    match command_line(rt.alloc())?.try_get_matches_from(words) {
        Ok(matches) => match Request::of(&matches) {
            Some(request) => answer(rt, &request),
            None => Err(Failure::NoCommand),
        },
        Err(error) => output::show_usage(rt, &error),
    }
}
