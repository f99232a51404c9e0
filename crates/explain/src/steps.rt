// The line of a step: its head, and the facts that it changed.
ghost use Rattle.std.specs.Prelude.{◌≡◌, ◌<◌, ◌≤◌, ◌++◌, false, get_or, OnOk, Some};
ghost use Rattle.std.specs.String.{string_bytes};
ghost use Rattle.names.specs.Views.{names as names_of};
ghost use Rattle.explain.specs.States.{state_in};
ghost use Rattle.explain.specs.Told.{changes_text};

use cases::Cases;
use formula::Literal;
use names::{ActionName, FactName, Names};
use std::alloc::AllocError;
use std::fmt;

// Which step it is, and its action.
#[derive(Clone, Copy)]
pub struct StepHead<'a> {
    pub number: usize,
    pub action: ActionName<'a>,
}

impl fmt::Display for StepHead<'_> {
    ghost use Rattle.explain.specs.Told.{step_head};
    ghost use Rattle.names.specs.Views.{names};

    ghost output = { λ s. Some (step_head (names s.action.names) s.number s.action.action) };

    fn fmt<W: fmt::Write>(&self, f: &mut fmt::Formatter<W>) -> fmt::Result {
        let StepHead { number, action } = *self;
        write!(f, "step {number} {action}:")
    }
}

// What became of a fact.
#[derive(Clone, Copy)]
pub struct Change<'a> {
    pub fact: FactName<'a>,
    pub was: bool,
    pub is: bool,
}

impl fmt::Display for Change<'_> {
    ghost use Rattle.explain.specs.Told.{change_text};
    ghost use Rattle.names.specs.Views.{names};

    ghost output = { λ c. Some (change_text (names c.fact.names) c.was c.is c.fact.fact) };

    fn fmt<W: fmt::Write>(&self, f: &mut fmt::Formatter<W>) -> fmt::Result {
        let fact = self.fact;
        match (self.was, self.is) {
            (true, false) => write!(f, " -{fact}"),
            (false, true) => write!(f, " +{fact}"),
            (true, true) | (false, false) => Ok(()),
        }
    }
}

// Whether a fact is true in lane 0.
fn is_true(cases: &Cases, fact: u8) -> bool
    requires { fact < cases.now.facts }
    ensures { result ≡ get_or (state_in cases.now) fact false }
{
    cases.value(Literal::of(fact)).is_yes(0)
}

// Each fact that lane 0 has otherwise after a step than before it.
pub fn push_changes(
    out: &mut String,
    names: Names,
    before: &Cases,
    after: &Cases,
) -> Result<(), AllocError>
    requires { after.now.facts ≡ before.now.facts }
    ensures { OnOk result (string_bytes out.new ≡ string_bytes out.old ++ changes_text (names_of names.entry) (state_in before.now) (state_in after.now) 0 before.now.facts) }
{
    for fact in 0..before.facts {
        let change = Change {
            fact: FactName { names, fact },
            was: is_true(before, fact),
            is: is_true(after, fact),
        };
        write!(out, "{change}")?;
    }
    Ok(())
}
