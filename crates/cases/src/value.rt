// A value in each of 64 lanes.
ghost use Rattle.std.specs.Prelude.{ℕ, ◌≤◌, ◌<◌};
ghost use Rattle.model.specs.Planes.{lane_bit};

use crate::words::{ONES, lane_bit};
use std::ops::{BitAnd, BitOr, Not};

// `some` where it is not no, `sure` where it is yes.
#[derive(Clone, Copy)]
pub struct Value {
    pub some: u64,
    pub sure: u64,
    pub ghost consistent: { (j : ℕ) → j < 64 → lane_bit j sure ≤ lane_bit j some },
}

impl Value {
    ghost use Rattle.std.specs.Prelude.{◌≡◌, eqb};
    ghost use Rattle.model.specs.Kleene.{Unknown, is_yes, known};
    ghost use Rattle.cases.specs.Cases.{value_at, Everywhere};

    // Unknown in every lane.
    #[inline(always)]
    pub fn unknown() -> Value
        ensures { Everywhere Unknown result }
    {
        Value {
            some: ONES,
            sure: 0,
        }
    }

    // Yes in these lanes, and no in the others.
    #[inline(always)]
    pub fn known(yes: u64) -> Value
        ensures { (j : ℕ) → j < 64 → value_at result j ≡ known (eqb (lane_bit j yes) 1) }
    {
        Value {
            some: yes,
            sure: yes,
        }
    }

    // Whether it is yes in a lane.
    #[inline(always)]
    pub fn is_yes(self, lane: usize) -> bool
        requires { lane < 64 }
        ensures { result ≡ is_yes (value_at self lane) }
    {
        lane_bit(self.sure, lane) == 1
    }
}

impl BitAnd for Value {
    ghost use Rattle.cases.specs.Cases.{GivesBoth};

    type Output = Value;

    ghost bitand_gives = { GivesBoth };

    #[inline(always)]
    fn bitand(self, other: Value) -> Value {
        Value {
            some: self.some & other.some,
            sure: self.sure & other.sure,
        }
    }
}

impl BitOr for Value {
    ghost use Rattle.cases.specs.Cases.{GivesEither};

    type Output = Value;

    ghost bitor_gives = { GivesEither };

    #[inline(always)]
    fn bitor(self, other: Value) -> Value {
        Value {
            some: self.some | other.some,
            sure: self.sure | other.sure,
        }
    }
}

impl Not for Value {
    ghost use Rattle.cases.specs.Cases.{GivesDenied};

    type Output = Value;

    ghost not_gives = { GivesDenied };

    #[inline(always)]
    fn not(self) -> Value {
        Value {
            some: ONES ^ self.sure,
            sure: ONES ^ self.some,
        }
    }
}
