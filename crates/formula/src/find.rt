// Reading a formula as a value.
ghost use Rattle.std.specs.Prelude.{◌≡◌, ◌≤◌};
ghost use Rattle.model.specs.FormulaBytes.{formula as formula_reader};
ghost use Rattle.formula.specs.Reading.{read_of};

use crate::formulas::Formula;
use crate::read::read_formula;
use model::Refusal;

// A formula that was read, and the position after it.
#[derive(Clone, Copy)]
pub struct Found<'a> {
    pub formula: Formula<'a>,
    pub next: usize,
}

// Reads the formula whose length field stands at `at`, over the facts below `facts`.
pub fn find_formula<'a>(s: &'a [u8], at: usize, facts: u8) -> Result<Found<'a>, Refusal>
    requires { facts ≤ 64 }
    ensures { read_of result ≡ formula_reader s.entry.now facts at }
{
    // A slice's length is known to fit a word where it is read.
    let _len = s.len();
    let next = read_formula(s, at, facts)?;
    Ok(Found {
        formula: Formula::of(&s[at + 2..next]),
        next,
    })
}
