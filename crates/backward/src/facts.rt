// Sets of facts.
ghost use Rattle.std.specs.Prelude.{ℕ, ◌≡◌, ◌-◌, ◌/◌, ◌^◌, ◌≤◌, ◌<◌, List, Bool, length, eqb, not, ◌&&◌};
ghost use Rattle.std.specs.Iterator.{at_most};
ghost use Rattle.model.specs.Limits.{max_facts};
ghost use Rattle.model.specs.Relevance.{some, number_of};
ghost use Rattle.backward.specs.Facts.{has_fact, HasFacts, GivesUnion, GivesCommon, GivesRest, TakesFirst};

use std::ops::{BitAnd, BitOr, Sub};

// A set of facts: a bit for each, fact 0 on top.
#[derive(Clone, Copy)]
pub struct FactSet {
    word: u64,
}

impl FactSet {
    pub const EMPTY: FactSet = FactSet { word: 0 };

    // The set of one fact.
    #[inline(always)]
    pub fn of(fact: u8) -> FactSet
        requires { fact < max_facts }
        ensures { (f : ℕ) → f < max_facts → has_fact result f ≡ eqb fact f }
    {
        FactSet {
            word: 1u64 << (63 - fact),
        }
    }

    #[inline(always)]
    pub fn has(self, fact: u8) -> bool
        requires { fact < max_facts }
        ensures { result ≡ has_fact self fact }
    {
        (self.word >> (63 - fact)) % 2 == 1
    }

    #[inline(always)]
    pub fn is_empty(self) -> bool
        ensures { result ≡ not (some max_facts (has_fact self)) }
    {
        self.word == 0
    }

    // The set itself where that is so, and else none.
    #[inline(always)]
    pub fn only_if(self, so: bool) -> FactSet
        ensures { (f : ℕ) → f < max_facts → has_fact result f ≡ (so && has_fact self f) }
    {
        if so { self } else { FactSet::EMPTY }
    }

    // The set as a state's number of so many bits: the top ones of its word. Where it has no fact past them, it is the number of the state that has its
    // facts.
    pub fn number_of(self, width: u8) -> u64
        requires some { 0 < width }
        requires word { width ≤ 64 }
        ensures value { result ≡ self.word / 2 ^ (64 - width) }
        ensures small { result < 2 ^ width }
        ensures number { (m : List Bool) → length m ≤ width → HasFacts self m → result ≡ number_of width m }
    {
        self.word >> (64 - width)
    }
}

// The facts of both sets.
impl BitOr for FactSet {
    type Output = FactSet;

    ghost bitor_gives = { GivesUnion };

    #[inline(always)]
    fn bitor(self, other: FactSet) -> FactSet {
        FactSet {
            word: self.word | other.word,
        }
    }
}

// The facts that are in both.
impl BitAnd for FactSet {
    type Output = FactSet;

    ghost bitand_gives = { GivesCommon };

    #[inline(always)]
    fn bitand(self, other: FactSet) -> FactSet {
        FactSet {
            word: self.word & other.word,
        }
    }
}

// The facts that are not in the other.
impl Sub for FactSet {
    type Output = FactSet;

    ghost sub_gives = { GivesRest };

    #[inline(always)]
    fn sub(self, other: FactSet) -> FactSet {
        FactSet {
            word: self.word & !other.word,
        }
    }
}

// Its facts, one after the other.
impl Iterator for FactSet {
    type Item = u8;

    ghost next_gives = { TakesFirst };

    ghost remaining = { λ s. at_most s.word };

    #[inline(always)]
    fn next(&mut self) -> Option<u8> {
        if self.word == 0 {
            return None;
        }
        let fact = self.word.leading_zeros() as u8;
        self.word &= !(1u64 << (63 - fact));
        Some(fact)
    }
}
