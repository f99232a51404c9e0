// Effects as text, a line each.
ghost use Rattle.std.specs.Prelude.{◌≡◌, [], ◌∷◌, ◌++◌, Some, string_bytes, OnOk};
ghost use Rattle.fields.specs.Actions.{effect as effect_of, effects as effects_of};
ghost use Rattle.formula.specs.Views.{literal as literal_of};
ghost use Rattle.names.specs.Views.{names as names_of};
ghost use Rattle.names.specs.ProblemText.{literal_set, effects_text};

use crate::formulas::push_condition;
use fields::{Effect, Effects};
use formula::Literal;
use names::{FactName, Names};
use std::alloc::AllocError;
use std::fmt;

// What an effect does to its fact.
#[derive(Clone, Copy)]
struct Change<'a> {
    names: Names<'a>,
    literal: Literal,
}

impl fmt::Display for Change<'_> {
    ghost output = { λ c. Some (literal_set (names_of c.names) (literal_of c.literal)) };

    fn fmt<W: fmt::Write>(&self, f: &mut fmt::Formatter<W>) -> fmt::Result {
        let fact = FactName {
            names: self.names,
            fact: self.literal.fact(),
        };
        if self.literal.is_denial() {
            write!(f, "  clears {fact}")
        } else {
            write!(f, "  sets {fact}")
        }
    }
}

// Appends the line of an effect.
fn push_effect(out: &mut String, names: Names, effect: Effect) -> Result<(), AllocError>
    ensures { OnOk result (string_bytes out.new ≡ string_bytes out.old ++ effects_text (names_of names.entry) (effect_of effect.entry ∷ [])) }
{
    let literal = effect.literal;
    write!(out, "{}", Change { names, literal })?;
    push_condition(out, names, effect.condition)?;
    out.push_str("\n")
}

// Appends the lines of effects.
pub fn push_effects(out: &mut String, names: Names, effects: Effects) -> Result<(), AllocError>
    ensures { OnOk result (string_bytes out.new ≡ string_bytes out.old ++ effects_text (names_of names.entry) (effects_of effects.entry)) }
{
    for effect in effects {
        push_effect(out, names, effect)?;
    }
    Ok(())
}
