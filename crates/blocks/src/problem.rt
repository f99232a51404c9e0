// A problem as a value: reading it from its block.
ghost use Rattle.std.specs.Prelude.{◌≡◌, ◌≤◌, IfOk};
ghost use Rattle.model.specs.Limits.{limits_of};
ghost use Rattle.model.specs.WellFormed.{Sensible};
ghost use Rattle.blocks.specs.Actions.{Sized};
ghost use Rattle.blocks.specs.Problems.{problem_in};

use crate::actions::Actions;
use fields::{check_header, count_at};
use formula::{Formula, find_formula};
use model::{Block, Fault, Limits, Problem as Bounds, Refusal};

// A problem by the numbers of a version.
#[derive(Clone, Copy)]
pub struct Problem<'a> {
    pub limits: Limits,
    pub facts: u8,
    pub initial: Formula<'a>,
    pub goal: Formula<'a>,
    pub actions: Actions<'a>,
    block: &'a [u8],
    pub ghost sensible: { Sensible limits },
    pub ghost some_facts: { 1 ≤ facts },
    pub ghost few_facts: { facts ≤ limits.facts },
    pub ghost its_facts: { actions.facts ≡ facts },
    pub ghost sized: { Sized limits (problem_in facts initial goal actions) block.now },
}

impl<'a> Problem<'a> {
    ghost use Rattle.std.specs.Prelude.{length};
    ghost use Rattle.model.specs.ProblemBytes.{problem_of, actions_bytes};
    ghost use Rattle.blocks.specs.Values.{problem, problem_read};

    // The problem in a block, by the numbers of the version that it begins with.
    pub fn read(block: &'a [u8]) -> Result<Problem<'a>, Refusal>
        ensures read { problem_read result ≡ problem_of (limits_of block.entry.now) block.entry.now }
        ensures limits { IfOk result (λ p. p.limits ≡ limits_of block.entry.now) }
    {
        Problem::read_with(block, Limits::of(block))
    }

    // The problem in a block, by the numbers of a version.
    fn read_with(block: &'a [u8], limits: Limits) -> Result<Problem<'a>, Refusal>
        requires { Sensible limits }
        ensures read { problem_read result ≡ problem_of limits block.entry.now }
        ensures limits { IfOk result (λ p. p.limits ≡ limits) }
    {
        let body = check_header(block, Block::Problem, Bounds::MAX_BYTES, limits.version)?;
        let facts = count_at(block, body, Fault::FactCount, 1, limits.facts)?;
        let count = count_at(
            block,
            body + 1,
            Fault::ActionCount,
            0,
            Bounds::MAX_ACTIONS as u8,
        )?;
        let initial = find_formula(block, body + 2, facts)?;
        let goal = find_formula(block, initial.next, facts)?;
        let actions = Actions::read(block, limits, goal.next, facts, count)?;
        Ok(Problem {
            limits,
            facts,
            initial: initial.formula,
            goal: goal.formula,
            actions,
            block,
        })
    }

    // How many bytes its actions take: what the rest of its block leaves.
    pub fn actions_len(&self) -> usize
        ensures { result ≡ length (actions_bytes (problem self.now).actions) }
    {
        let formulas = 2 * Bounds::LENGTH_BYTES + self.initial.len() + self.goal.len();
        self.block.len() - Bounds::BEGIN - formulas
    }
}
