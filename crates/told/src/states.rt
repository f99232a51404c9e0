// A state as text.
ghost use Rattle.std.specs.Prelude.{◌≡◌, ◌<◌, Some};
ghost use Rattle.model.specs.Case.{bit};

use answers::{Facts, Marks};
use names::{FactName, Names};
use std::fmt;

// A state by its number: a mark for each fact, or the names of the true ones where facts have names.
#[derive(Clone, Copy)]
pub struct StateText<'a> {
    pub names: Names<'a>,
    pub facts: Facts,
    pub state: u64,
}

// The facts of a state that are true, each with a space before it.
#[derive(Clone, Copy)]
struct TrueFacts<'a>(StateText<'a>);

impl StateText<'_> {
    // Whether a fact is true.
    fn holds(&self, fact: u8) -> bool
        requires { fact < self.now.facts.limits.width }
        ensures { result ≡ bit self.now.facts.limits.width self.now.state fact }
    {
        (self.state >> (self.facts.limits.width - 1 - fact)) % 2 == 1
    }
}

impl fmt::Display for TrueFacts<'_> {
    ghost use Rattle.names.specs.Views.{names};
    ghost use Rattle.told.specs.States.{true_facts};

    ghost output = { λ t. Some (true_facts (names t.0.names) (bit t.0.facts.limits.width t.0.state) 0 t.0.facts.count) };

    fn fmt<W: fmt::Write>(&self, f: &mut fmt::Formatter<W>) -> fmt::Result {
        let StateText { names, facts, .. } = self.0;
        for fact in 0..facts.count {
            if self.0.holds(fact) {
                write!(f, " {}", FactName { names, fact })?;
            }
        }
        Ok(())
    }
}

impl fmt::Display for StateText<'_> {
    ghost use Rattle.names.specs.Views.{names};
    ghost use Rattle.told.specs.States.{state_text};

    ghost output = { λ s. Some (state_text (names s.names) s.facts.limits s.facts.count s.state) };

    fn fmt<W: fmt::Write>(&self, f: &mut fmt::Formatter<W>) -> fmt::Result {
        if self.names.facts.is_empty() {
            let marks = Marks {
                facts: self.facts,
                k: self.facts.count,
                value: self.state,
            };
            return write!(f, "{marks}");
        }
        write!(f, "{{{} }}", TrueFacts(*self))
    }
}
