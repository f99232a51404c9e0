// Facts and actions by name, or by number.
ghost use Rattle.std.specs.Prelude.{◌≡◌, Some};
ghost use Rattle.names.specs.Names.{numbers};

use std::fmt;

// The names of the first facts and of the first actions; the others are known by their numbers.
#[derive(Clone, Copy)]
pub struct Names<'a> {
    pub facts: &'a [&'a str],
    pub actions: &'a [&'a str],
}

impl Names<'_> {
    ghost use Rattle.names.specs.Views.{names};

    // Everything by its number.
    pub fn numbers() -> Names<'static>
        ensures { names result ≡ numbers }
    {
        Names {
            facts: &[],
            actions: &[],
        }
    }
}

// A fact, as it is spoken of.
#[derive(Clone, Copy)]
pub struct FactName<'a> {
    pub names: Names<'a>,
    pub fact: u8,
}

impl fmt::Display for FactName<'_> {
    ghost use Rattle.names.specs.Texts.{fact_name};
    ghost use Rattle.names.specs.Views.{names};

    ghost output = { λ f. Some (fact_name (names f.names) f.fact) };

    fn fmt<W: fmt::Write>(&self, f: &mut fmt::Formatter<W>) -> fmt::Result {
        match self.names.facts.get(self.fact as usize) {
            Some(name) => f.write_str(name),
            None => {
                let number = self.fact;
                write!(f, "{number}")
            }
        }
    }
}

// An action, as it is spoken of.
#[derive(Clone, Copy)]
pub struct ActionName<'a> {
    pub names: Names<'a>,
    pub action: u8,
}

impl fmt::Display for ActionName<'_> {
    ghost use Rattle.names.specs.Texts.{action_name};
    ghost use Rattle.names.specs.Views.{names};

    ghost output = { λ a. Some (action_name (names a.names) a.action) };

    fn fmt<W: fmt::Write>(&self, f: &mut fmt::Formatter<W>) -> fmt::Result {
        match self.names.actions.get(self.action as usize) {
            Some(name) => f.write_str(name),
            None => {
                let number = self.action;
                write!(f, "{number}")
            }
        }
    }
}
