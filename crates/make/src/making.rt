// The blocks of a problem and of a plan, made of a text.
ghost use Rattle.std.specs.Prelude.{◌≡◌, ◌≤◌, ◌∷◌, ◌++◌, length, IfOk, vec_len};
ghost use Rattle.model.specs.Limits.{max_actions};
ghost use Rattle.model.specs.Read.{block as block_of};
ghost use Rattle.make.specs.Reads.{Reads};
ghost use Rattle.make.specs.SourceText.{plan as plan_of, source as source_of, rest as rest_of};
ghost use Rattle.make.specs.Views.{texts, fact_names, IsPlan};
ghost use Rattle.make.specs.Made.{BlocksOf, Makes};

use crate::formulas::FactNames;
use crate::problems::{Actions, expect_key, facts, steps, version};
use model::{Limits, Problem};
use numbers::put_number;
use std::alloc::{AllocError, Global};
use words::{Complaint, MakeError, Text};

// The block of a problem, and that of the plan where the text has one.
#[derive(Drop)]
pub struct Blocks {
    pub problem: Vec<u8>,
    pub plan: Option<Vec<u8>>,
}

// A body after its header.
fn block(alloc: Global, version: u8, body: &[u8]) -> Result<Vec<u8>, AllocError>
    ensures { IfOk result (λ block. block.items ≡ block_of version body.now) }
{
    let mut length = [0; Limits::HEAD_BYTES - 1];
    put_number(&mut length, body.len() as u64);
    let mut block = Vec::new(alloc);
    block.push(version)?;
    block.extend_from_slice(&length)?;
    block.extend_from_slice(body)?;
    Ok(block)
}

// The plan's block, where there is a plan.
fn plan(alloc: Global, names: &[&[u8]], text: &mut Text) -> Result<Option<Vec<u8>>, MakeError>
    requires { length names.now ≤ max_actions }
    ensures { Reads (plan_of (texts names.now) text.old.bytes.now) result text.new.bytes.now IsPlan }
{
    let word = text.word();
    if word.bytes != b"plan".as_slice() {
        return Ok(None);
    }
    *text = word.after;
    let steps = steps(alloc, names, text)?;
    Ok(Some(block(alloc, Limits::PLAN_VERSION, &steps)?))
}

// What a problem has besides its facts, in bytes.
#[derive(Drop)]
struct Parts<'a> {
    initial: Vec<u8>,
    goal: Vec<u8>,
    actions: Actions<'a>,
}

impl FactNames<'_> {
    // The problem's block.
    fn problem(&self, version: u8, parts: &Parts) -> Result<Vec<u8>, AllocError>
        requires { vec_len parts.now.actions.names ≤ max_actions }
        ensures { IfOk result
            (λ block. block.items ≡ block_of version
            (length self.now.names.now ∷ length parts.now.actions.names.items ∷
            (parts.now.initial.items ++ (parts.now.goal.items ++ parts.now.actions.bytes.items)))) }
    {
        let mut body = Vec::new(self.alloc);
        body.push(self.names.len() as u8)?;
        body.push(parts.actions.names.len() as u8)?;
        body.extend_from_slice(&parts.initial)?;
        body.extend_from_slice(&parts.goal)?;
        body.extend_from_slice(&parts.actions.bytes)?;
        block(self.alloc, version, &body)
    }

    // What follows the facts, up to the end of the text.
    fn blocks(&self, limits: &Limits, text: &mut Text) -> Result<Blocks, MakeError>
        ensures { Reads (rest_of limits.now (fact_names self.now) text.old.bytes.now) result text.new.bytes.now BlocksOf }
    {
        expect_key(b"start".as_slice(), Complaint::NoStart, text)?;
        let initial = self.formula(text)?;
        expect_key(b"goal".as_slice(), Complaint::NoGoal, text)?;
        let goal = self.formula(text)?;
        let actions = self.actions(limits, text)?;
        let plan = plan(self.alloc, &actions.names, text)?;
        let word = text.word();
        if !word.bytes.is_empty() {
            return Err(Complaint::WordLeft.at(word.left));
        }
        let parts = Parts {
            initial,
            goal,
            actions,
        };
        let problem = self.problem(limits.version, &parts)?;
        if problem.len() > Problem::MAX_BYTES {
            return Err(Complaint::TooLong.at(word.left));
        }
        Ok(Blocks { problem, plan })
    }
}

// The version, the facts, and the rest.
fn source(alloc: Global, text: &mut Text) -> Result<Blocks, MakeError>
    ensures { Reads (source_of text.old.bytes.now) result text.new.bytes.now BlocksOf }
{
    let limits = version(text)?;
    let place = text.word().left;
    let names = facts(alloc, limits.facts, text)?;
    if names.is_empty() {
        return Err(Complaint::NoFact.at(place));
    }
    let facts = FactNames {
        alloc,
        names: &names,
    };
    facts.blocks(&limits, text)
}

// The blocks of what a text says, or what is wrong with it, and where: memory may run out.
pub fn make(alloc: Global, text: &[u8]) -> Result<Blocks, MakeError>
    ensures { Makes text.now result }
{
    source(alloc, &mut Text { bytes: text })
}
