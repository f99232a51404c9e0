// A problem as text.
ghost use Rattle.std.specs.Prelude.{◌≡◌, ◌++◌, string_bytes, OnOk};
ghost use Rattle.blocks.specs.Values.{problem as problem_of};
ghost use Rattle.names.specs.Views.{names as names_of};
ghost use Rattle.names.specs.ProblemText.{facts_text, problem_text};

use crate::actions::push_actions;
use blocks::Problem;
use names::{FactName, Names, push_formula};
use std::alloc::AllocError;

// Appends so many facts, a line each.
fn push_facts(out: &mut String, names: Names, count: u8) -> Result<(), AllocError>
    ensures { OnOk result (string_bytes out.new ≡ string_bytes out.old ++ facts_text (names_of names.entry) 0 count) }
{
    for fact in 0..count {
        writeln!(out, "fact {}", FactName { names, fact })?;
    }
    Ok(())
}

// Appends the text of a problem.
pub fn push_problem(out: &mut String, names: Names, problem: &Problem) -> Result<(), AllocError>
    ensures { OnOk result (string_bytes out.new ≡ string_bytes out.old ++ problem_text (names_of names.entry) problem.now.limits (problem_of problem.now)) }
{
    writeln!(out, "version {}", problem.limits.version)?;
    push_facts(out, names, problem.facts)?;
    out.push_str("start ")?;
    push_formula(out, names, problem.initial)?;
    out.push_str("\ngoal ")?;
    push_formula(out, names, problem.goal)?;
    out.push_str("\n")?;
    push_actions(out, names, problem)
}
