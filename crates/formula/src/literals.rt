// The literals of formulas, one after the other.
ghost use Rattle.std.specs.Prelude.{◌≡◌};
ghost use Rattle.formula.specs.Views.{formula};

use crate::formulas::{Formula, Formulas, Next};
use crate::literal::Literal;

// The literals that are left, in order, whatever groups they are in.
#[derive(Clone, Copy)]
pub struct Literals<'a> {
    formulas: Formulas<'a>,
}

impl<'a> Formula<'a> {
    ghost use Rattle.formula.specs.Literals.{literals_left, literals};

    // Its literals.
    #[tactic(auto, using(crate::proofs::Leaves::alone_literals))]
    #[inline(always)]
    pub fn literals(self) -> Literals<'a>
        ensures { literals_left result ≡ literals (formula self.entry) }
    {
        Literals {
            formulas: self.alone(),
        }
    }
}

impl<'a> Iterator for Literals<'a> {
    ghost use Rattle.std.specs.Iterator.{YieldsFirstBy, item_count};
    ghost use Rattle.formula.specs.Views.{literal};
    ghost use Rattle.formula.specs.Literals.{literals_left};

    type Item = Literal;

    ghost next_gives = { YieldsFirstBy literal literals_left };

    ghost remaining = { item_count literals_left };

    #[inline(always)]
    fn next(&mut self) -> Option<Literal> {
        while !self.formulas.is_empty() {
            match self.formulas.next() {
                Next::Literal(literal, rest) => {
                    self.formulas = rest;
                    return Some(literal);
                }
                // A group's members are the next formulas.
                Next::Group(members) => {
                    self.formulas = members.formulas;
                }
            }
        }
        None
    }
}
