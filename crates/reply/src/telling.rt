// How answers are told, and what an answer about a problem speaks of.
ghost use Rattle.std.specs.Prelude.{◌≡◌, option_map};
ghost use Rattle.names.specs.Views.{names as names_of};
ghost use Rattle.blocks.specs.Values.{problem as problem_of};
ghost use Rattle.reply.specs.Spoken.{names_for};
ghost use Rattle.reply.specs.Views.{given, Speaks, TellsBy};

use crate::unanswered::Unanswered;
use answers::Facts;
use blocks::Problem;
use model::Refusal;
use names::{NameList, Names};
use std::alloc::Global;

// How answers are told: in which names, if any were given, and whether as JSON.
#[derive(Drop)]
pub struct Telling<'a> {
    pub alloc: Global,
    pub names: Option<NameList<'a>>,
    pub json: bool,
}

// The problem that an answer speaks of, and in which names.
#[derive(Clone, Copy)]
pub struct Spoken<'a> {
    pub names: Names<'a>,
    pub problem: Problem<'a>,
}

// Why a problem is not spoken of.
#[derive(Clone, Copy)]
pub enum Unspoken {
    Refused(Refusal),
    OtherNames,
}

impl Spoken<'_> {
    pub fn facts(&self) -> Facts
        ensures limits { result.limits ≡ self.now.problem.limits }
        ensures count { result.count ≡ self.now.problem.facts }
    {
        Facts {
            limits: self.problem.limits,
            count: self.problem.facts,
        }
    }
}

impl<'a> Telling<'a> {
    // In the names that a text gives, if there is one.
    pub fn read(
        alloc: Global,
        text: Option<&'a [u8]>,
        json: bool,
    ) -> Result<Telling<'a>, Unanswered>
        ensures { TellsBy (option_map (λ t. t.now) text.entry) json result }
    {
        let Some(text) = text else {
            return Ok(Telling {
                alloc,
                names: None,
                json,
            });
        };
        let names = NameList::read(alloc, text)?;
        Ok(Telling {
            alloc,
            names: Some(names),
            json,
        })
    }

    // In which names a problem is spoken of: in those that were given, if they are as many as its facts and actions; in numbers, if none
    // were.
    fn names_for(&self, problem: &Problem) -> Option<Names<'_>>
        ensures { option_map names_of result ≡ names_for (given self.now) (problem_of problem.now) }
    {
        let Some(list) = &self.names else {
            return Some(Names::numbers());
        };
        if !list.fits(problem.facts, problem.actions.count) {
            return None;
        }
        Some(list.names())
    }

    // The problem in a block, in its names.
    pub fn spoken<'s>(&'s self, block: &'s [u8]) -> Result<Spoken<'s>, Unspoken>
        ensures { Speaks (given self.entry.now) block.entry.now result }
    {
        let problem = match Problem::read(block) {
            Ok(problem) => problem,
            Err(refusal) => return Err(Unspoken::Refused(refusal)),
        };
        let Some(names) = self.names_for(&problem) else {
            return Err(Unspoken::OtherNames);
        };
        Ok(Spoken { names, problem })
    }
}
