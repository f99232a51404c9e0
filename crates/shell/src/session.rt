// A command: its files are read, what is replied to them is written to files, and then printed.
use crate::inputs::Inputs;
use crate::output::print;
use answers::{RefusalWords, Status};
use ask::commands::{explain, facts, follow, judge, run, search, write};
use commands::{Command, FilePath, Request};
use files::{Role, lead_to_one_file, save};
use reply::{Failure, Reply, Telling};
use std::alloc::Global;
use std::rt::Files;
use texts::Made;

// Answers a command.
pub fn answer<R: Files + Print + Eprint + AllocGlobal>(
    rt: &R,
    request: &Request,
) -> Result<Status, Failure> {
    let inputs = Inputs::read(rt, request)?;
    keep_files(rt, request)?;
    give(rt, request, &made_of(rt.alloc(), request, &inputs)?)
}

// Writes and prints what is replied to a command.
fn give<R: Files + Print + Eprint + AllocGlobal>(
    rt: &R,
    request: &Request,
    made: &Made,
) -> Result<Status, Failure> {
    let [plan, file] = request.outputs();
    save_file(rt, plan, &made.plan)?;
    save_file(rt, file, &made.reply.file)?;
    tell(rt, &made.reply)
}

// Nothing is written over what is read, nor over what else is written.
fn keep_files<R: Files>(rt: &R, request: &Request) -> Result<(), Failure> {
    let [first, second] = request.outputs();
    for input in request.inputs() {
        keep_file(rt, first, input)?;
        keep_file(rt, second, input)?;
    }
    keep_file(rt, second, first)
}

fn keep_file<R: Files>(
    rt: &R,
    written: Option<FilePath>,
    kept: Option<FilePath>,
) -> Result<(), Failure> {
    match (written, kept) {
        (Some(written), Some(kept)) if lead_to_one_file(rt, written.path, kept.path) => {
            Err(Failure::OneFile(written.role, kept.role))
        }
        _ => Ok(()),
    }
}

// What is replied to a command, and the block of a plan that goes with it.
fn made_of(alloc: Global, request: &Request, inputs: &Inputs) -> Result<Made, Failure> {
    let telling = Telling::read(alloc, inputs.text(Role::Names)?, request.json)?;
    reply_to(&telling, &request.command, inputs)
}

fn reply_to(telling: &Telling, command: &Command, inputs: &Inputs) -> Result<Made, Failure> {
    let blocks = inputs.blocks();
    let reply = match *command {
        Command::Judge { grant, .. } => judge(telling, blocks, grant),
        Command::Write { grant, .. } => write(telling, blocks, grant),
        Command::Follow { .. } => follow(telling, blocks, inputs.get(Role::List).unwrap_or(&[])),
        Command::Run { state, .. } => run(telling, blocks, state.as_bytes()),
        Command::Facts { state, .. } => facts(telling, blocks, state.as_bytes()),
        Command::Search { longest, grant, .. } => search(telling, blocks.problem, longest, grant),
        Command::Explain { grant, .. } => explain(telling, blocks, grant),
        Command::Show { .. } => texts::show(telling, blocks.problem, inputs.get(Role::Plan)),
        Command::Make { plan, .. } => return make_of(telling, inputs, plan.is_some()),
    };
    Ok(Made {
        reply: reply?,
        plan: None,
    })
}

// The blocks of the text that was read; where a plan is wanted, it has to have one.
fn make_of(telling: &Telling, inputs: &Inputs, wanted: bool) -> Result<Made, Failure> {
    let text = inputs.text(Role::Text)?.unwrap_or(&[]);
    Ok(texts::make(telling, text, wanted)?)
}

// Writes a file whole, or leaves it as it was; where there is nothing to write, or no path for it, nothing is done.
fn save_file<R: Files + AllocGlobal>(
    rt: &R,
    to: Option<FilePath>,
    bytes: &Option<Vec<u8>>,
) -> Result<(), Failure> {
    let (Some(to), Some(bytes)) = (to, bytes) else {
        return Ok(());
    };
    match save(rt, to.path, bytes) {
        Ok(()) => Ok(()),
        Err(error) => Err(Failure::File(to.role, error.kind())),
    }
}

// Prints a reply; a refusal on standard error too, in words.
fn tell<R: Print + Eprint + AllocGlobal>(rt: &R, reply: &Reply) -> Result<Status, Failure> {
    print(rt, reply.text.as_str())?;
    if let Some(refusal) = reply.refusal {
        let words = RefusalWords(refusal);
        // What standard error cannot say, the status does.
        let _ = eprintln!(rt; "larkhammock: {words}");
    }
    Ok(reply.status)
}
