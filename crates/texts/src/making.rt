// The command that makes blocks of a text.
ghost use Rattle.std.specs.Prelude.{◌≡◌, ◌&&◌, is_none, length, option_map, IfOk, Some};
ghost use Rattle.std.specs.String.{string_bytes};
ghost use Rattle.texts.specs.Making.{made_text, made_reply, GivesMade, made_of};

use crate::place::line_of;
use answers::Status;
use make::Blocks;
use objects::texts::json_made;
use reply::{Reply, Telling, Unanswered};
use std::alloc::AllocError;
use std::fmt;
use words::MakeError;

// The reply, whose file is the block of the problem, and the block of the plan, if the text has one.
#[derive(Drop)]
pub struct Made {
    pub reply: Reply,
    pub plan: Option<Vec<u8>>,
}

// Whether a plan is wanted that is not there.
fn lacks_plan(blocks: &Blocks, wanted: bool) -> bool
    ensures { result ≡ (wanted && is_none blocks.now.plan) }
{
    wanted && blocks.plan.is_none()
}

// That a problem's block was made, with its length.
#[derive(Clone, Copy)]
pub struct MadeLine(pub usize);

impl fmt::Display for MadeLine {
    ghost use Rattle.texts.specs.Texts.{made_line};

    ghost output = { λ m. Some (made_line m.0) };

    fn fmt<W: fmt::Write>(&self, f: &mut fmt::Formatter<W>) -> fmt::Result {
        let length = self.0;
        writeln!(f, "made {length} bytes")
    }
}

// The same as it is printed.
#[tactic(auto, unfolding(reply::specs::Replies::printed))]
fn made_text(telling: &Telling, length: usize) -> Result<String, AllocError>
    ensures { IfOk result (λ s. string_bytes s ≡ made_text telling.now.json length) }
{
    if telling.json {
        let mut line = json_made(telling.alloc, length as u64)?;
        line.push_str("\n")?;
        return Ok(line);
    }
    let line = MadeLine(length);
    format!(in telling.alloc; "{line}")
}

// The reply with the blocks that were made.
#[tactic(auto, unfolding(crate::specs::Making::made_reply))]
fn reply_with(telling: &Telling, blocks: Blocks, wanted: bool) -> Result<Made, Unanswered>
    ensures { GivesMade (made_reply telling.now.json wanted blocks.problem.items (option_map (λ p. p.items) blocks.plan)) result }
{
    if lacks_plan(&blocks, wanted) {
        return Err(Unanswered::NoPlan);
    }
    let text = made_text(telling, blocks.problem.len())?;
    let Blocks { problem, plan } = blocks;
    let reply = Reply {
        text,
        status: Status::Yes,
        refusal: None,
        file: Some(problem),
    };
    Ok(Made { reply, plan })
}

// The blocks of what a text says; where a plan is wanted, it has to have one.
#[tactic(auto, unfolding(crate::specs::Making::made_of))]
pub fn make(telling: &Telling, text: &[u8], wanted: bool) -> Result<Made, Unanswered>
    ensures { GivesMade (made_of telling.now.json wanted text.now) result }
{
    match make::make(telling.alloc, text) {
        Ok(blocks) => reply_with(telling, blocks, wanted),
        Err(MakeError::Text(complaint, left)) => {
            Err(Unanswered::Text(complaint, line_of(text, left)))
        }
        Err(MakeError::OutOfMemory) => Err(Unanswered::OutOfMemory),
    }
}
