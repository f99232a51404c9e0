// The steps of a run, told one after the other.
ghost use Rattle.std.specs.Prelude.{◌≡◌, ◌++◌, OnOk};
ghost use Rattle.std.specs.String.{string_bytes};
ghost use Rattle.blocks.specs.Values.{problem as problem_of};
ghost use Rattle.fields.specs.Actions.{action as action_of};
ghost use Rattle.cases.specs.Cases.{case_of};
ghost use Rattle.step.specs.Actions.{Hinders};
ghost use Rattle.names.specs.Views.{names as names_of};
ghost use Rattle.explain.specs.States.{state_in, IsKnown};
ghost use Rattle.explain.specs.Told.{block_text, end_text};
ghost use Rattle.explain.specs.Tells.{told_from};

use crate::formulas::push_false_part;
use crate::steps::{StepHead, push_changes};
use blocks::Task;
use cases::{Cases, evaluate};
use fields::Action;
use names::{ActionName, FactName, Names};
use std::alloc::AllocError;
use step::{Conditions, Hindrance, obey};

// A task, and the names that it is told in.
#[derive(Clone, Copy)]
pub struct Telling<'a> {
    pub names: Names<'a>,
    pub task: &'a Task<'a>,
}

impl Telling<'_> {
    // Why an action is not applicable in the state in lane 0.
    fn push_block(
        self,
        out: &mut String,
        action: Action,
        cases: &Cases,
        hindrance: Hindrance,
    ) -> Result<(), AllocError>
        requires facts { cases.now.facts ≡ self.task.now.problem.now.facts }
        requires known { IsKnown cases.now }
        requires hinders { Hinders cases.now.facts (action_of action) (case_of cases.now 0) hindrance }
        ensures { OnOk result (string_bytes out.new ≡ string_bytes out.old ++ block_text (names_of self.entry.names) (problem_of self.entry.task.now.problem.now) (action_of action.entry) (state_in cases.now)) }
    {
        match hindrance {
            Hindrance::Precondition => {
                out.push_str(" blocked, as this is false:\n")?;
                push_false_part(out, self.names, action.precondition, cases)
            }
            Hindrance::Conflict(fact) => {
                let name = FactName {
                    names: self.names,
                    fact: fact as u8,
                };
                writeln!(out, " blocked, as it would set and clear {name}")
            }
        }
    }

    // How the run ends in the state in lane 0.
    fn push_end(self, out: &mut String, cases: &Cases) -> Result<(), AllocError>
        requires { IsKnown cases.now }
        ensures { OnOk result (string_bytes out.new ≡ string_bytes out.old ++ end_text (names_of self.entry.names) (problem_of self.entry.task.now.problem.now) (state_in cases.now)) }
    {
        let goal = self.task.problem.goal;
        if evaluate(goal, cases).is_yes(0) {
            return out.push_str("end: the goal is reached\n");
        }
        out.push_str("end: the goal is missed, as this is false:\n")?;
        push_false_part(out, self.names, goal, cases)
    }

    // The run from the state in lane 0.
    pub fn push_run(self, out: &mut String, start: &Cases) -> Result<(), AllocError>
        requires facts { start.now.facts ≡ self.task.now.problem.now.facts }
        requires known { IsKnown start.now }
        ensures { OnOk result (string_bytes out.new ≡ string_bytes out.old ++ told_from (names_of self.entry.names) (problem_of self.entry.task.now.problem.now) self.entry.task.now.steps.now 0 (state_in start.now)) }
    {
        let names = self.names;
        let mut current = *start;
        let mut conditions = Conditions::new();
        for i in 0..self.task.steps.len() {
            let step = self.task.steps[i];
            let action = self.task.action(i);
            let head = StepHead {
                number: i,
                action: ActionName {
                    names,
                    action: step,
                },
            };
            write!(out, "{head}")?;
            let before = current;
            if let Err(hindrance) = obey(action, &mut current, &mut conditions, 1) {
                return self.push_block(out, action, &before, hindrance);
            }
            push_changes(out, names, &before, &current)?;
            out.push_str("\n")?;
        }
        self.push_end(out, &current)
    }
}
