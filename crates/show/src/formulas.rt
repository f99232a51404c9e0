// Preconditions and conditions: one that is always true is left out.
ghost use Rattle.std.specs.Prelude.{◌≡◌, ◌++◌, string_bytes, OnOk, codes};
ghost use Rattle.formula.specs.Views.{formula as formula_of};
ghost use Rattle.names.specs.Views.{names as names_of};
ghost use Rattle.names.specs.ProblemText as text;

use formula::{Formula, Next};
use model::Group;
use names::{Names, push_formula};
use std::alloc::AllocError;

// Whether a group of this kind, with so many members, is the "all" of nothing, which is always true.
fn is_all_of_none(group: Group, count: u8) -> bool
    ensures { result ≡ text.is_all_of_none group count }
{
    group == Group::All && count == 0
}

// Whether a formula is the "all" of nothing.
fn is_always(formula: Formula) -> bool
    ensures { result ≡ text.is_always (formula_of formula.entry) }
{
    match formula.alone().next() {
        Next::Group(members) => is_all_of_none(members.group, members.count),
        Next::Literal(..) => false,
    }
}

// Appends what an action asks for, on a line of its own.
#[tactic(auto, unfolding(names::specs::ProblemText::needs_text))]
pub fn push_need(out: &mut String, names: Names, formula: Formula) -> Result<(), AllocError>
    ensures { OnOk result (string_bytes out.new ≡ string_bytes out.old ++ text.needs_text (names_of names.entry) (formula_of formula.entry)) }
{
    if is_always(formula) {
        return Ok(());
    }
    out.push_str("  needs ")?;
    push_formula(out, names, formula)?;
    out.push_str("\n")
}

// Appends the condition of an effect.
#[tactic(auto, unfolding(names::specs::ProblemText::unless_always))]
pub fn push_condition(out: &mut String, names: Names, formula: Formula) -> Result<(), AllocError>
    ensures { OnOk result (string_bytes out.new ≡ string_bytes out.old ++ text.unless_always (names_of names.entry) (codes " if ") (formula_of formula.entry)) }
{
    if is_always(formula) {
        return Ok(());
    }
    out.push_str(" if ")?;
    push_formula(out, names, formula)
}
