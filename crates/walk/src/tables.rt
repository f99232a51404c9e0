// The tables that a walk writes over.
ghost use Rattle.std.specs.Prelude.{◌≡◌, ◌≤◌};

use blocks::Task;
use cases::{Case as TableCase, Cases};
use runs::{Looks, look};
use step::Conditions;

// The case at which the walk stands, in every lane: set on the way down, and set back. The lanes of the block that is looked at, which the look
// uses up. And the conditions of an action.
#[derive(Drop)]
pub struct Tables {
    case: Cases,
    lanes: Cases,
    pub conditions: Conditions,
    pub ghost same: { lanes.facts ≡ case.facts },
}

impl Tables {
    ghost use Rattle.std.specs.Prelude.{ℕ, ◌+◌, ◌<◌};
    ghost use Rattle.model.specs.Limits.{max_facts};
    ghost use Rattle.blocks.specs.Values.{task as task_of};
    ghost use Rattle.cases.specs.Blocks.{max_levels};
    ghost use Rattle.cases.specs.declared.case.Case as table;
    ghost use Rattle.cases.specs.Cases.{values_of, Common};
    ghost use Rattle.runs.specs.Looks.{LooksAt};
    ghost use Rattle.walk.specs.Tables.{facts_of, StandsAt, AtFirst, block_at};

    // They stand at the case that fixes no fact.
    pub fn first(facts: u8) -> Tables
        requires { facts ≤ max_facts }
        ensures { AtFirst result facts }
    {
        Tables {
            case: Cases::first_case(facts),
            lanes: Cases::empty_state(facts),
            conditions: Conditions::new(),
        }
    }

    // What a visit finds of the case at which they stand and of those below it, so many levels of them.
    pub fn look(&mut self, task: &Task, k: usize, levels: usize) -> Looks
        requires facts { facts_of self.old ≡ task.now.problem.now.facts }
        requires few { levels ≤ max_levels }
        requires inside { k + levels ≤ facts_of self.old }
        ensures stands { self.new.case ≡ self.old.case }
        ensures looks { LooksAt (task_of task.now) (block_at self.old k levels) result }
    {
        self.lanes.copy_from(&self.case);
        self.lanes.fix_levels(k, levels);
        look(task, &mut self.lanes, &mut self.conditions)
    }

    // Go from one case to another which has the same first facts.
    pub fn go(&mut self, common: usize, from: TableCase, to: TableCase)
        requires from { from.fixed ≤ facts_of self.old }
        requires to { to.fixed ≤ facts_of self.old }
        requires common { Common from to common }
        ensures facts { facts_of self.new ≡ facts_of self.old }
        ensures stands { StandsAt self.old (values_of (facts_of self.old) from) → StandsAt self.new (values_of (facts_of self.old) to) }
    {
        self.case.set_case(common, from, to);
    }
}
