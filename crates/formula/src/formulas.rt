// Formulas as they stand in a block, one after the other.
ghost use Rattle.std.specs.Prelude.{◌≡◌, ◌≤◌, IsTrue};
ghost use Rattle.model.specs.FormulaBytes.{member_count, member_bytes};
ghost use Rattle.formula.specs.Decoding.{decode, head, is_sound};

use crate::literal::Literal;
use model::Group;

// Sound formulas: a group's count is at most that of the formulas after it, and a literal is one of 64 facts.
#[derive(Clone, Copy)]
pub struct Formulas<'a> {
    bytes: &'a [u8],
    ghost sound: { IsTrue (is_sound bytes.now) },
}

// One of them.
#[derive(Clone, Copy)]
pub struct Formula<'a> {
    formulas: Formulas<'a>,
    ghost one: { member_count (decode formulas.bytes.now) ≡ 1 },
}

// The members of a group: so many of the formulas, the first ones. The others come after the group.
#[derive(Clone, Copy)]
pub struct Members<'a> {
    pub group: Group,
    pub count: u8,
    pub formulas: Formulas<'a>,
    pub ghost few: { count ≤ member_count (decode formulas.bytes.now) },
}

// What the first formula is: a literal, and the formulas after it; or a group, by its members.
#[derive(Clone, Copy)]
pub enum Next<'a> {
    Literal(Literal, Formulas<'a>),
    Group(Members<'a>),
}

impl<'a> Formulas<'a> {
    ghost use Rattle.std.specs.Prelude.{◌<◌, length, drop, eqb};
    ghost use Rattle.formula.specs.Views.{formulas, IsNext};

    // Those from byte n on.
    #[tactic(auto, using(crate::proofs::Decoding::part))]
    #[inline(always)]
    fn from(self, n: usize) -> Formulas<'a>
        requires inside { n ≤ length self.bytes.now }
        requires sound { IsTrue (is_sound (drop n self.bytes.now)) }
        ensures { result.bytes.now ≡ drop n self.entry.bytes.now }
    {
        Formulas {
            bytes: &self.bytes[n..],
        }
    }

    // How many bytes they take.
    #[tactic(auto, using(crate::proofs::Counting::bytes_length))]
    #[inline(always)]
    pub fn len(self) -> usize
        ensures { result ≡ length (member_bytes (formulas self.entry)) }
    {
        self.bytes.len()
    }

    // Whether there is none.
    #[tactic(auto, using(crate::proofs::Leaves::none_left))]
    #[inline(always)]
    pub fn is_empty(self) -> bool
        ensures { result ≡ eqb (member_count (formulas self.entry)) 0 }
    {
        self.bytes.len() == 0
    }

    #[inline(always)]
    pub fn next(self) -> Next<'a>
        requires { 0 < member_count (formulas self) }
        ensures { IsNext (formulas self.entry) result }
    {
        let b = self.bytes[0];
        if b < Literal::COUNT {
            return Next::Literal(Literal::of(b), self.from(1));
        }
        let group = if b == u8::from(Group::All) {
            Group::All
        } else {
            Group::Any
        };
        Next::Group(Members {
            group,
            count: self.bytes[1],
            formulas: self.from(2),
        })
    }
}

impl<'a> Members<'a> {
    ghost use Rattle.std.specs.Prelude.{◌<◌, ◌-◌};
    ghost use Rattle.formula.specs.Decoding.{after};
    ghost use Rattle.formula.specs.Views.{formulas};

    // Those after the first one, which these formulas follow.
    #[inline(always)]
    pub fn past_first(self, rest: Formulas<'a>) -> Members<'a>
        requires some { 0 < self.count }
        requires follow { formulas rest ≡ after 1 (formulas self.formulas) }
        ensures group { result.group ≡ self.entry.group }
        ensures count { result.count ≡ self.entry.count - 1 }
        ensures formulas { formulas result.formulas ≡ formulas rest.entry }
    {
        Members {
            group: self.group,
            count: self.count - 1,
            formulas: rest,
        }
    }
}

impl<'a> Formula<'a> {
    ghost use Rattle.std.specs.Prelude.{length};
    ghost use Rattle.model.specs.FormulaBytes.{formula_bytes};
    ghost use Rattle.formula.specs.Views.{formula, IsOne};

    // The formula whose bytes these are: a reader found it.
    pub fn of(bytes: &'a [u8]) -> Formula<'a>
        requires sound { IsTrue (is_sound bytes.now) }
        requires one { member_count (decode bytes.now) ≡ 1 }
        ensures { formula result ≡ head (decode bytes.now) }
    {
        Formula {
            formulas: Formulas { bytes },
        }
    }

    // How many bytes it takes, without its length field.
    #[tactic(auto, using(crate::proofs::Counting::bytes_length, crate::proofs::Counting::alone_length))]
    #[inline(always)]
    pub fn len(self) -> usize
        ensures { result ≡ length (formula_bytes (formula self.entry)) }
    {
        self.formulas.len()
    }

    // It alone, as formulas.
    #[tactic(auto, using(crate::proofs::Decoding::alone))]
    pub fn alone(self) -> Formulas<'a>
        ensures { IsOne (formula self.entry) result }
    {
        self.formulas
    }
}
