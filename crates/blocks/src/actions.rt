// The actions of a problem as a value: where each stands in the block.
ghost use Rattle.std.specs.Prelude.{◌≡◌, ◌<◌, ◌≤◌, IfOk};
ghost use Rattle.model.specs.Limits.{max_actions, max_facts};
ghost use Rattle.model.specs.Answers.{result_answer};
ghost use Rattle.model.specs.Read.{answer_of};
ghost use Rattle.model.specs.WellFormed.{Sensible};
ghost use Rattle.blocks.specs.Actions.{Begin, End, last_actions};

use fields::{Action, read_action};
use model::{Fault, Limits, Problem as Bounds, Refusal};

// The actions in a block, over so many facts. Action i begins where `at` says, and ends where the next one begins.
#[derive(Clone, Copy)]
pub struct Actions<'a> {
    pub count: u8,
    pub facts: u8,
    block: &'a [u8],
    at: [usize; Bounds::MAX_ACTIONS + 1],
    pub ghost few: { count ≤ max_actions },
    pub ghost few_facts: { facts ≤ max_facts },
    ghost stand: { Begin facts count at block.now },
    ghost end: { End count at block.now },
}

impl<'a> Actions<'a> {
    ghost use Rattle.model.specs.ProblemBytes.{action_at};
    ghost use Rattle.fields.specs.Actions.{action};
    ghost use Rattle.blocks.specs.Problems.{actions_of};

    // Reads so many actions from `begin` on, which end the block.
    pub(crate) fn read(
        block: &'a [u8],
        limits: Limits,
        begin: usize,
        facts: u8,
        count: u8,
    ) -> Result<Actions<'a>, Refusal>
        requires limits { Sensible limits }
        requires facts { facts ≤ limits.facts }
        requires count { count ≤ max_actions }
        ensures read { result_answer actions_of result ≡ answer_of (last_actions limits block.entry.now facts count begin) }
        ensures facts { IfOk result (λ a. a.facts ≡ facts) }
        ensures count { IfOk result (λ a. a.count ≡ count) }
    {
        let mut at = [0usize; Bounds::MAX_ACTIONS + 1];
        let mut next = begin;
        for i in 0..count as usize {
            at[i] = next;
            next = read_action(block, limits, next, facts)?;
        }
        if next < block.len() {
            return Err(Fault::BytesLeft.at_byte(next));
        }
        at[count as usize] = next;
        Ok(Actions {
            count,
            facts,
            block,
            at,
        })
    }

    // The action that a step names.
    #[inline(always)]
    pub fn get(&self, step: u8) -> Action<'a>
        requires { step < self.now.count }
        ensures is { action result ≡ action_at (actions_of self.now) step }
        ensures facts { result.effects.facts ≡ self.now.facts }
    {
        Action::of(&self.block[self.at[step as usize]..], self.facts)
    }
}
