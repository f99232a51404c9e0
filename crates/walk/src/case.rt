// A case, and what becomes of its line.
ghost use Rattle.std.specs.Prelude.{◌<◌, List, [], ◌∷◌, ◌++◌, ⊤};
ghost use Rattle.model.specs.declared.Limits.{Limits};
ghost use Rattle.model.specs.WellFormed.{Sensible};
ghost use Rattle.model.specs.Walk as model;
ghost use Rattle.lines.specs.Lines.{line_of};

use cases::{Case as TableCase, word_of};
use lines::Line;
use model::{Kind, Limits};

// A case: it fixes the first k facts to the top bits of `number`.
#[derive(Clone, Copy)]
pub struct Case {
    pub k: usize,
    pub number: u64,
}

impl Case {
    ghost use Rattle.std.specs.Prelude.{◌≡◌, ◌^◌, ◌≤◌};
    ghost use Rattle.cases.specs.Words.{raised, SameCase};
    ghost use Rattle.walk.specs.Cases.{closed_line};

    // It as a table of cases takes it.
    #[inline(always)]
    pub(crate) fn in_table(self, width: u8) -> TableCase
        requires some { 0 < width }
        requires word { width ≤ 64 }
        requires fits { self.number < 2 ^ width }
        ensures fixed { result.fixed ≡ self.k }
        ensures raised { result.word ≡ raised width self.number }
        ensures same { SameCase width self.number result.word }
    {
        TableCase {
            fixed: self.k,
            word: word_of(width as usize, self.number),
        }
    }

    // The line that closes it.
    #[inline(always)]
    pub fn line(self, kind: Kind) -> Line
        requires { self.k < 256 }
        ensures { line_of result ≡ closed_line kind self }
    {
        Line {
            kind,
            k: self.k as u8,
            value: self.number,
        }
    }
}

// What becomes of the lines of closed cases.
pub trait Lines {
    // With these lines of that version, the first becomes the second.
    ghost gives: { Limits → Self → List model.Line → Self → Type 0 };

    fn put(&mut self, limits: &Limits, line: Line)
        requires { Sensible limits.now }
        ensures { gives limits.now self.old (line_of line ∷ []) self.new };

    ghost none: { (F : Limits) (s : Self) → gives F s [] s };

    ghost more: { (F : Limits) → Sensible F → (s t u : Self) (ls ms : List model.Line) → gives F s ls t → gives F t ms u → gives F s (ls ++ ms) u };
}

// Nothing: the lines are counted.
#[derive(Clone, Copy)]
pub struct Unkept;

impl Lines for Unkept {
    ghost gives = { λ _ _ _ _. ⊤ };

    fn put(&mut self, _limits: &Limits, _line: Line) {}

    ghost none = { λ _ _. tt };

    ghost more = { λ _ _ _ _ _ _ _ _ _. tt };
}
