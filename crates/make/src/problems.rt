// The parts of a problem in a text: its version, its facts, its actions, and its plan.
ghost use Rattle.std.specs.Prelude.{◌≡◌, ◌≤◌, length, [], IfOk, vec_len};
ghost use Rattle.model.specs.Limits.{max_facts, max_actions, max_steps};
ghost use Rattle.make.specs.SourceText.{new_name as new_name_of, key as key_of, limits_named, version as version_of, facts as facts_of, steps as steps_of};
ghost use Rattle.make.specs.Reads.{Reads};
ghost use Rattle.make.specs.Views.{texts, IsText, IsNothing, IsVersion, AreNames, AreSteps};

use crate::formulas::{FactNames, index_of, next_word};
use model::{Limits, Plan, Problem};
use names::is_name;
use std::alloc::Global;
use words::{Complaint, MakeError, Text};

// A name that none has yet.
fn new_name<'a>(taken: &[&[u8]], text: &mut Text<'a>) -> Result<&'a [u8], MakeError>
    ensures { Reads (new_name_of (texts taken.now) text.old.bytes.now) result text.new.bytes.now IsText }
{
    let word = next_word(text);
    if !is_name(word.bytes) {
        return Err(Complaint::NoName.at(word.left));
    }
    if index_of(taken, word.bytes).is_some() {
        return Err(Complaint::NameTaken.at(word.left));
    }
    Ok(word.bytes)
}

// A word that has to stand here.
pub fn expect_key(key: &[u8], missing: Complaint, text: &mut Text) -> Result<(), MakeError>
    ensures { Reads (key_of key.now missing text.old.bytes.now) result text.new.bytes.now IsNothing }
{
    let word = next_word(text);
    if word.bytes != key {
        return Err(missing.at(word.left));
    }
    Ok(())
}

// The limits of the version that a word is.
#[tactic(auto, unfolding(crate::specs::SourceText::limits_named))]
fn limits_named(word: &[u8]) -> Option<Limits>
    ensures { result ≡ limits_named word.now }
{
    if word == b"1".as_slice() {
        return Some(Limits::version1());
    }
    if word == b"2".as_slice() {
        return Some(Limits::version2());
    }
    None
}

// The version, as its limits.
pub fn version(text: &mut Text) -> Result<Limits, MakeError>
    ensures { Reads (version_of text.old.bytes.now) result text.new.bytes.now IsVersion }
{
    expect_key(b"version".as_slice(), Complaint::NoVersion, text)?;
    let word = next_word(text);
    let Some(limits) = limits_named(word.bytes) else {
        return Err(Complaint::NoVersion.at(word.left));
    };
    Ok(limits)
}

// The names of the facts, so many at most.
pub fn facts<'a>(alloc: Global, most: u8, text: &mut Text<'a>) -> Result<Vec<&'a [u8]>, MakeError>
    ensures read { Reads (facts_of most [] text.old.bytes.now) result text.new.bytes.now AreNames }
    ensures few { IfOk result (λ names. vec_len names ≤ most) }
{
    let mut names = Vec::new(alloc);
    loop {
        let word = text.word();
        if word.bytes != b"fact".as_slice() {
            return Ok(names);
        }
        if names.len() == most as usize {
            return Err(Complaint::TooManyFacts.at(word.left));
        }
        *text = word.after;
        let name = new_name(&names, text)?;
        names.push(name)?;
    }
}

// The names of actions, and their bytes, one after the other.
#[derive(Drop)]
pub struct Actions<'a> {
    pub names: Vec<&'a [u8]>,
    pub bytes: Vec<u8>,
}

impl FactNames<'_> {
    ghost use Rattle.make.specs.SourceText.{actions as actions_of};
    ghost use Rattle.make.specs.Views.{fact_names, AreActions};

    // The actions of a problem.
    pub fn actions<'a>(
        &self,
        limits: &Limits,
        text: &mut Text<'a>,
    ) -> Result<Actions<'a>, MakeError>
        ensures { Reads (actions_of limits.now (fact_names self.now) max_actions [] text.old.bytes.now) result text.new.bytes.now AreActions }
    {
        let mut actions = Actions {
            names: Vec::new(self.alloc),
            bytes: Vec::new(self.alloc),
        };
        loop {
            let word = text.word();
            if word.bytes != b"action".as_slice() {
                return Ok(actions);
            }
            if actions.names.len() == Problem::MAX_ACTIONS {
                return Err(Complaint::TooManyActions.at(word.left));
            }
            *text = word.after;
            let name = new_name(&actions.names, text)?;
            let action = self.action(limits, text)?;
            actions.names.push(name)?;
            actions.bytes.extend_from_slice(&action)?;
        }
    }
}

// The steps of a plan, up to the end of the text: the numbers of the actions that they name.
pub fn steps(alloc: Global, names: &[&[u8]], text: &mut Text) -> Result<Vec<u8>, MakeError>
    requires { length names.now ≤ max_actions }
    ensures { Reads (steps_of (texts names.now) max_steps text.old.bytes.now) result text.new.bytes.now AreSteps }
{
    let mut steps = Vec::new(alloc);
    loop {
        let word = text.word();
        if word.bytes.is_empty() {
            return Ok(steps);
        }
        if steps.len() == Plan::MAX_STEPS {
            return Err(Complaint::TooManySteps.at(word.left));
        }
        let Some(action) = index_of(names, word.bytes) else {
            return Err(Complaint::UnknownAction.at(word.left));
        };
        *text = word.after;
        steps.push(action as u8)?;
    }
}
