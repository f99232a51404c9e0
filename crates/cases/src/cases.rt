// 64 cases at once, a bit ("lane") each.
ghost use Rattle.std.proofs.Props.{props};
ghost use Rattle.std.specs.Prelude.{◌≤◌};
ghost use Rattle.model.specs.Limits.{max_facts};
ghost use Rattle.model.specs.Planes.{Table};
ghost use Rattle.cases.specs.Blocks.{max_levels};
ghost use Rattle.cases.specs.Lanes.{case_in};

use crate::block::value_of_level;
use crate::case::Case;
use crate::value::Value;
use crate::words::{self, LANES, TABLE, spread};
use formula::Literal;

// The two words of the literal with the byte b stand at twice b: in each lane its value in that lane's case, of so many facts.
#[derive(Clone, Copy)]
pub struct Cases {
    words: [u64; TABLE],
    pub facts: u8,
    ghost few: { facts ≤ max_facts },
    ghost hold: { Table words (case_in facts words) } by { Prim.hlevel props },
}

impl Cases {
    ghost use Rattle.std.specs.Prelude.{ℕ, ◌≡◌, ◌+◌, ◌<◌, ◌≤◌, IsTrue, replicate, set};
    ghost use Rattle.model.specs.Kleene.{Kleene, No, Unknown, three};
    ghost use Rattle.model.specs.Formula.{value_of};
    ghost use Rattle.model.specs.FormulaBytes.{is_literal};
    ghost use Rattle.formula.specs.Views.{literal as literal_of};
    ghost use Rattle.model.specs.Case.{case_of as case_numbered};
    ghost use Rattle.model.specs.Planes.{lane_bit};
    ghost use Rattle.cases.specs.Lanes.{value_in};
    ghost use Rattle.cases.specs.Facts.{with_facts, bits_of, unfixed};
    ghost use Rattle.cases.specs.Blocks.{block_case};
    ghost use Rattle.cases.specs.Cases.{case_of, value_at, with_literal, values_of, Makes, Common};

    // Every lane has the case that fixes no fact.
    pub fn first_case(facts: u8) -> Cases
        requires { facts ≤ max_facts }
        ensures facts { result.facts ≡ facts }
        ensures cases { (j : ℕ) → j < 64 → case_of result j ≡ replicate facts Unknown }
    {
        let mut cases = Cases::empty_state(facts);
        cases.free_facts(0, facts as usize);
        cases
    }

    // Every lane has the state in which no fact is true.
    #[inline(always)]
    pub fn empty_state(facts: u8) -> Cases
        requires { facts ≤ max_facts }
        ensures facts { result.facts ≡ facts }
        ensures cases { (j : ℕ) → j < 64 → case_of result j ≡ replicate facts No }
    {
        Cases {
            words: words::all_no(),
            facts,
        }
    }

    // Every lane has the state with these bits, fact 0 the top one.
    pub fn of_state(facts: u8, word: u64) -> Cases
        requires { facts ≤ max_facts }
        ensures facts { result.facts ≡ facts }
        ensures cases { (j : ℕ) → j < 64 → case_of result j ≡ case_numbered 64 facts facts word }
    {
        let mut cases = Cases::empty_state(facts);
        cases.fix_bits(0, facts as usize, word);
        cases
    }

    #[inline(always)]
    pub fn value(&self, literal: Literal) -> Value
        ensures { (j : ℕ) → j < 64 → value_at result j ≡ value_of three (case_of self.now j) (literal_of literal) }
    {
        let byte = literal.byte() as usize;
        Value {
            some: self.words[2 * byte],
            sure: self.words[2 * byte + 1],
        }
    }

    // In each lane the literal becomes the lane's value. That of a fact which the cases do not have stays no, and its denial yes.
    #[inline(always)]
    pub fn put(&mut self, literal: Literal, value: Value)
        ensures facts { self.new.facts ≡ self.old.facts }
        ensures cases { (j : ℕ) → j < 64 → case_of self.new j ≡ with_literal (literal_of literal) (value_at value j) (case_of self.old j) }
    {
        if literal.fact() < self.facts {
            self.put_declared(literal, value);
        }
    }

    // The same of a literal that is known to be of their facts: on the hot path nothing is tested.
    #[inline(always)]
    pub fn put_declared(&mut self, literal: Literal, value: Value)
        requires { IsTrue (is_literal self.old.facts literal.byte) }
        ensures facts { self.new.facts ≡ self.old.facts }
        ensures cases { (j : ℕ) → j < 64 → case_of self.new j ≡ with_literal (literal_of literal) (value_at value j) (case_of self.old j) }
    {
        words::set_literal(&mut self.words, literal.byte() as usize, value);
    }

    // In each lane fact f becomes what its bit of `yes` says, if the cases have it.
    #[inline(always)]
    pub fn fix(&mut self, f: u8, yes: u64)
        requires { f < max_facts }
        ensures facts { self.new.facts ≡ self.old.facts }
        ensures cases { (j : ℕ) → j < 64 → case_of self.new j ≡ set (case_of self.old j) f (value_in (lane_bit j yes) (lane_bit j yes)) }
    {
        self.put(Literal::of(f), Value::known(yes));
    }

    // Becomes these cases, of as many facts. No other word is copied: it is the same in both.
    #[inline(always)]
    pub fn copy_from(&mut self, other: &Cases)
        requires { self.old.facts ≡ other.now.facts }
        ensures facts { self.new.facts ≡ self.old.facts }
        ensures cases { (j : ℕ) → j < 64 → case_of self.new j ≡ case_of other.now j }
    {
        words::copy_facts(&mut self.words, &other.words, self.facts as usize);
    }

    // Each fact from .. to - 1 that the cases have becomes what `change` makes of its number and of the value that it has.
    #[inline(always)]
    fn change_facts<F: Fn(usize, Value) -> Value>(&mut self, from: usize, to: usize, change: F)
        requires { (f : ℕ) (v : Value) → from ≤ f → f < to → F.pre change f v }
        ensures facts { self.new.facts ≡ self.old.facts }
        ensures cases { (t : ℕ → ℕ → Kleene) → Makes (F.post change) from to (case_of self.old) t
            → (j : ℕ) → j < 64 → case_of self.new j ≡ with_facts from to (t j) (case_of self.old j) }
    {
        for f in from..to.min(self.facts as usize) {
            let fact = Literal::of(f as u8);
            let value = change(f, self.value(fact));
            self.put_declared(fact, value);
        }
    }

    // The facts from .. to - 1 become, in every lane, the bits of `word`.
    pub fn fix_bits(&mut self, from: usize, to: usize, word: u64)
        requires { to ≤ max_facts }
        ensures facts { self.new.facts ≡ self.old.facts }
        ensures cases { (j : ℕ) → j < 64 → case_of self.new j ≡ with_facts from to (bits_of word) (case_of self.old j) }
    {
        self.change_facts(from, to, |f, _| Value::known(spread(word, LANES - 1 - f)));
    }

    // The facts from .. to - 1 become unknown in every lane.
    pub fn free_facts(&mut self, from: usize, to: usize)
        requires { to ≤ max_facts }
        ensures facts { self.new.facts ≡ self.old.facts }
        ensures cases { (j : ℕ) → j < 64 → case_of self.new j ≡ with_facts from to unfixed (case_of self.old j) }
    {
        self.change_facts(from, to, |_, _| Value::unknown());
    }

    // The case `from` of every lane gives way to `to`, which fixes so many first facts alike: only those after them are touched.
    #[inline(always)]
    pub fn set_case(&mut self, common: usize, from: Case, to: Case)
        requires from { from.fixed ≤ max_facts }
        requires to { to.fixed ≤ max_facts }
        requires common { Common from to common }
        ensures facts { self.new.facts ≡ self.old.facts }
        ensures cases { (j : ℕ) → j < 64 → case_of self.old j ≡ values_of self.old.facts from
            → case_of self.new j ≡ values_of self.old.facts to }
    {
        self.fix_bits(common, to.fixed, to.word);
        self.free_facts(to.fixed, from.fixed);
    }

    // From a case to its block: the facts k .. k + levels - 1 get the values that they have in each lane of a block.
    pub fn fix_levels(&mut self, k: usize, levels: usize)
        requires few { levels ≤ max_levels }
        requires inside { k + levels ≤ max_facts }
        ensures facts { self.new.facts ≡ self.old.facts }
        ensures cases { (j : ℕ) → j < 64 → case_of self.new j ≡ block_case (case_of self.old j) k levels j }
    {
        self.change_facts(k, k + levels, |f, _| value_of_level(f - k));
    }
}
