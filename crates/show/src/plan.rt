// A plan as text.
ghost use Rattle.std.specs.Prelude.{◌≡◌, ◌++◌, string_bytes, OnOk};
ghost use Rattle.names.specs.Views.{names as names_of};
ghost use Rattle.names.specs.ProblemText.{steps_text, plan_text};

use names::{ActionName, Names};
use std::alloc::AllocError;

// Appends the actions that the steps name, a line each.
fn push_steps(out: &mut String, names: Names, steps: &[u8]) -> Result<(), AllocError>
    ensures { OnOk result (string_bytes out.new ≡ string_bytes out.old ++ steps_text (names_of names.entry) steps.entry.now) }
{
    for step in steps {
        let action = *step;
        writeln!(out, "  {}", ActionName { names, action })?;
    }
    Ok(())
}

// Appends the text of a plan.
pub fn push_plan(out: &mut String, names: Names, steps: &[u8]) -> Result<(), AllocError>
    ensures { OnOk result (string_bytes out.new ≡ string_bytes out.old ++ plan_text (names_of names.entry) steps.entry.now) }
{
    out.push_str("plan\n")?;
    push_steps(out, names, steps)
}
