// Two halls as one problem.
use crate::both::Both;
use crate::write::{put_action, put_both};
use blocks::Problem;
use model::{Fault, Limits, Problem as Bounds, Refusal};
use numbers::Writer;

// Both are sound; what they are together may be over a limit, which `check` tells.
#[derive(Clone, Copy)]
pub struct Halls<'a> {
    pub first: &'a Problem<'a>,
    pub second: &'a Problem<'a>,
}

impl<'a> Halls<'a> {
    ghost use Rattle.std.specs.Prelude.{◌≡◌, length};
    ghost use Rattle.model.specs.Limits.{version2};
    ghost use Rattle.model.specs.Answer.{answered};
    ghost use Rattle.model.specs.ProblemBytes.{actions_bytes, encode_problem};
    ghost use Rattle.model.specs.Merging.{sized};
    ghost use Rattle.numbers.specs.Writing.{HasRoom, Writes};
    ghost use Rattle.merge.specs.Views.{both_of, halls_of, ChecksSize};
    ghost use Rattle.merge.specs.Writing.{problem_head};

    // Which limit of a problem they are over together, if they are.
    pub fn check(&self) -> Result<(), Refusal>
        ensures { ChecksSize (halls_of self.now) result }
    {
        if self.facts() > Bounds::MAX_FACTS_V2 {
            return Err(Fault::MergedFacts.at(0));
        }
        if self.actions() as usize > Bounds::MAX_ACTIONS {
            return Err(Fault::MergedActions.at(0));
        }
        if self.initial().is_over() || self.goal().is_over() {
            return Err(Fault::MergedFormula.at(0));
        }
        if self.len() > Bounds::MAX_BYTES {
            return Err(Fault::MergedBytes.at(0));
        }
        Ok(())
    }

    fn initial(&self) -> Both<'a>
        ensures { both_of result ≡ (halls_of self.now).initial }
    {
        Both::of(self.first.initial, self.second.initial, self.first.facts)
    }

    fn goal(&self) -> Both<'a>
        ensures { both_of result ≡ (halls_of self.now).goal }
    {
        Both::of(self.first.goal, self.second.goal, self.first.facts)
    }

    fn facts(&self) -> u8
        ensures { result ≡ (halls_of self.now).facts }
    {
        self.first.facts + self.second.facts
    }

    // How many actions both have.
    pub fn actions(&self) -> u8
        ensures { result ≡ length (halls_of self.now).actions }
    {
        self.first.actions.count + self.second.actions.count
    }

    // How many bytes their problem takes.
    pub fn len(&self) -> usize
        ensures { result ≡ length (encode_problem version2 (halls_of self.now)) }
    {
        let formulas = 2 * Bounds::LENGTH_BYTES + self.initial().len() + self.goal().len();
        let actions = self.first.actions_len() + self.second.actions_len();
        Bounds::BEGIN + formulas + actions
    }

    // What stands before the initial formula: the header, and the counts of facts and of actions.
    #[tactic(auto, unfolding(crate::specs::Writing::problem_head))]
    fn put_head(&self, writer: &mut Writer)
        requires { HasRoom writer.old (problem_head (halls_of self.now)) }
        ensures { Writes writer.old (problem_head (halls_of self.now)) writer.new }
    {
        let body = self.len() - Limits::HEAD_BYTES;
        writer.put(Limits::version2().version);
        writer.put_number(body as u64, Limits::HEAD_BYTES - 1);
        writer.put_pair(self.facts(), self.actions());
    }

    // The actions of both, the first hall's first.
    fn put_actions(&self, writer: &mut Writer)
        requires { HasRoom writer.old (actions_bytes (halls_of self.now).actions) }
        ensures { Writes writer.old (actions_bytes (halls_of self.now).actions) writer.new }
    {
        // Its place stays in a register. A store to the buffer might change that of `writer`, for all that the compiler knows.
        let mut place = Writer {
            out: &mut *writer.out,
            at: writer.at,
        };
        for step in 0..self.first.actions.count {
            put_action(&mut place, self.first.actions.get(step), 0);
        }
        for step in 0..self.second.actions.count {
            put_action(&mut place, self.second.actions.get(step), self.first.facts);
        }
        writer.at = place.at;
    }

    // Writes their problem, of version 2.
    pub fn put(&self, writer: &mut Writer)
        requires sized { sized (halls_of self.now) ≡ answered (halls_of self.now) }
        requires room { HasRoom writer.old (encode_problem version2 (halls_of self.now)) }
        ensures { Writes writer.old (encode_problem version2 (halls_of self.now)) writer.new }
    {
        self.put_head(writer);
        put_both(writer, self.initial());
        put_both(writer, self.goal());
        self.put_actions(writer);
    }
}
