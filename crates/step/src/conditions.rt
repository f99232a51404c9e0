// The conditions of an action in 64 cases at once. All of them are found first, in the values before the action; then each fact that has an
// entry is settled, so that nothing is read after it changed and no table is copied.
ghost use Rattle.std.proofs.Props.{props};
ghost use Rattle.std.specs.Prelude.{ℕ, ◌<◌, ◌≤◌, IsTrue, get_or};
ghost use Rattle.model.specs.Limits.{max_facts, max_effects};
ghost use Rattle.model.specs.FormulaBytes.{is_literal};
ghost use Rattle.model.specs.Planes.{lane_bit};

use crate::action::Hindrance;
use cases::{Cases, Value, evaluate};
use fields::Action;
use formula::Literal;

// Room for the entries of an action over so many facts: each one's literal, by its byte, and the value of its condition, by its two words.
// Literals rise. (The words stand apart, since each is stored singly: side by side they would be loaded as one, and such a load has to wait for
// its stores.)
#[derive(Clone, Copy)]
pub struct Conditions {
    facts: u8,
    count: usize,
    literals: [u8; Conditions::MOST],
    some: [u64; Conditions::MOST],
    sure: [u64; Conditions::MOST],
    pub ghost few_facts: { facts ≤ max_facts },
    pub ghost few: { count ≤ max_effects },
    pub ghost declared: { (i : ℕ) → i < count → IsTrue (is_literal facts (get_or literals i 0)) } by { Prim.hlevel props },
    pub ghost consistent: { (i j : ℕ) → j < 64 → lane_bit j (get_or sure i 0) ≤ lane_bit j (get_or some i 0) },
    pub ghost rise: { (i k : ℕ) → i < k → k < count → get_or literals i 0 < get_or literals k 0 },
}

impl Conditions {
    ghost use Rattle.std.specs.Prelude.{◌≡◌, List, []};
    ghost use Rattle.model.specs.Action as model;
    ghost use Rattle.model.specs.Kleene.{Kleene, three};
    ghost use Rattle.fields.specs.Actions as fields;
    ghost use Rattle.cases.specs.Cases.{case_of, value_at};
    ghost use Rattle.step.specs.Conditions.{condition_at, Hold, Pushed, FindsOfAny, Finds};

    // The entries of an action, in any version: two a fact.
    const MOST: usize = 128;

    // No entry.
    pub fn new() -> Conditions
        ensures { (case : ℕ → List Kleene) → Hold result [] case }
    {
        Conditions {
            facts: 0,
            count: 0,
            literals: [0; Conditions::MOST],
            some: [0; Conditions::MOST],
            sure: [0; Conditions::MOST],
        }
    }

    // The value of an entry's condition.
    #[inline(always)]
    fn condition(&self, e: usize) -> Value
        requires { e < self.now.count }
        ensures { (j : ℕ) → j < 64 → value_at result j ≡ value_at (condition_at self.now e) j }
    {
        Value {
            some: self.some[e],
            sure: self.sure[e],
        }
    }

    // The entries of this action, with the values of their conditions; and the lanes of `alive` in which no fact would be set and cleared at once:
    // each has a condition that reads no. Where none is left, the conflict at which the last one fell out; for one lane its fact is the lowest.
    #[inline(always)]
    pub fn find(&mut self, action: Action, cases: &Cases, alive: u64) -> Result<u64, Hindrance>
        ensures facts { self.new.facts ≡ action.entry.effects.facts }
        ensures finds { FindsOfAny action.entry.effects.facts cases.now (fields.action action.entry) alive self.new result }
        ensures some { action.entry.effects.facts ≡ cases.now.facts → 0 < alive → Finds cases.now (fields.action action.entry) alive self.new result }
    {
        self.facts = action.effects.facts;
        self.count = 0;
        let mut lanes = alive;
        // The entry that may set what the next one clears: as literals rise, it never goes back.
        let mut i = 0;
        for effect in action.effects {
            let value = evaluate(effect.condition, cases);
            if effect.literal.is_denial() {
                let fact = effect.literal.fact();
                while i < self.count && self.literals[i] < fact {
                    i += 1;
                }
                if i < self.count && self.literals[i] == fact {
                    let exclusive = !(self.condition(i) & value);
                    lanes &= exclusive.sure;
                    if lanes == 0 {
                        return Err(Hindrance::Conflict(fact as usize));
                    }
                }
            }
            self.push(effect.literal, value);
        }
        Ok(lanes)
    }

    // One more entry.
    #[inline(always)]
    fn push(&mut self, literal: Literal, value: Value)
        requires room { self.old.count < max_effects }
        requires declared { IsTrue (is_literal self.old.facts literal.byte) }
        requires rises { (i : ℕ) → i < self.old.count → get_or self.old.literals i 0 < literal.byte }
        ensures { Pushed self.old literal.byte value self.new }
    {
        let e = self.count;
        self.literals[e] = literal.byte();
        self.some[e] = value.some;
        self.sure[e] = value.sure;
        self.count = e + 1;
    }

    // The cases after the action: a fact is true if its set condition held, or if it was true and its clear condition did not hold. The entries
    // are settled from the last to the first: literals rise, so that what clears a fact comes before what sets it. Cases of fewer facts than
    // the entries may name stay as they are: that is tested once, and not at each entry.
    #[inline(always)]
    pub fn settle(&self, cases: &mut Cases)
        ensures facts { cases.new.facts ≡ cases.old.facts }
        ensures steps { self.now.facts ≤ cases.old.facts → (a : model.Action) → Hold self.now a.effects (case_of cases.old) → (j : ℕ) → j < 64 → case_of cases.new j ≡ model.step three cases.old.facts a (case_of cases.old j) }
    {
        if cases.facts < self.facts {
            return;
        }
        for e in (0..self.count).rev() {
            let literal = Literal::of(self.literals[e]);
            // It holds where it did, or where its condition does.
            let value = self.condition(e) | cases.value(literal);
            cases.put_declared(literal, value);
        }
    }
}
