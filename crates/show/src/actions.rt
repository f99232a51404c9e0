// Actions as text.
ghost use Rattle.std.specs.Prelude.{◌≡◌, [], ◌∷◌, ◌++◌, string_bytes, OnOk};
ghost use Rattle.blocks.specs.Values.{problem as problem_of};
ghost use Rattle.fields.specs.Actions.{action as action_of};
ghost use Rattle.names.specs.Views.{names as names_of};
ghost use Rattle.names.specs.ProblemText.{actions_text};

use crate::effects::push_effects;
use crate::formulas::push_need;
use blocks::Problem;
use fields::Action;
use names::{ActionName, Names};
use std::alloc::AllocError;

// Appends the text of an action: its name, what it asks for, and its effects.
fn push_action(out: &mut String, name: ActionName, action: Action) -> Result<(), AllocError>
    ensures { OnOk result (string_bytes out.new ≡ string_bytes out.old ++ actions_text (names_of name.entry.names) name.entry.action (action_of action.entry ∷ [])) }
{
    writeln!(out, "action {name}")?;
    push_need(out, name.names, action.precondition)?;
    push_effects(out, name.names, action.effects)
}

// Appends all actions of a problem.
pub fn push_actions(out: &mut String, names: Names, problem: &Problem) -> Result<(), AllocError>
    ensures { OnOk result (string_bytes out.new ≡ string_bytes out.old ++ actions_text (names_of names.entry) 0 (problem_of problem.now).actions) }
{
    for action in 0..problem.actions.count {
        push_action(
            out,
            ActionName { names, action },
            problem.actions.get(action),
        )?;
    }
    Ok(())
}
