// The facts that a formula names.
ghost use Rattle.std.specs.Prelude.{ℕ, ◌≡◌, ◌<◌};
ghost use Rattle.model.specs.Limits.{max_facts};
ghost use Rattle.model.specs.Relevance.{names};
ghost use Rattle.formula.specs.Views.{formula as formula_of};
ghost use Rattle.backward.specs.Facts.{has_fact};

use crate::facts::FactSet;
use formula::{Formula, Next};

// A fact's literal and its denial name it. Most formulas are one literal.
pub fn named_facts(formula: Formula) -> FactSet
    ensures { (f : ℕ) → f < max_facts → has_fact result f ≡ names (formula_of formula.entry) f }
{
    if let Next::Literal(literal, _) = formula.alone().next() {
        return FactSet::of(literal.fact());
    }
    let mut facts = FactSet::EMPTY;
    for literal in formula.literals() {
        facts = facts | FactSet::of(literal.fact());
    }
    facts
}
