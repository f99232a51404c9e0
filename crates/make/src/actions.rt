// Effects and actions in a text, as the bytes that they have in a block.
ghost use Rattle.std.specs.Prelude.{◌≡◌, ◌<◌, List, ℕ, option_map};
ghost use Rattle.model.specs.Limits.{max_facts};
ghost use Rattle.model.specs.FormulaBytes.{literal_byte};
ghost use Rattle.make.specs.FormulaText.{verb as verb_of};

use crate::formulas::{Counted, FactNames, next_word};
use model::{Limits, Problem};
use words::{Complaint, MakeError, Text};

// What an effect does to a fact.
#[derive(Clone, Copy)]
pub enum Verb {
    Sets,
    Clears,
}

impl Verb {
    ghost use Rattle.make.specs.Views.{made_by};

    // The one that a word is.
    #[tactic(auto, unfolding(crate::specs::FormulaText::verb))]
    fn of(word: &[u8]) -> Option<Verb>
        ensures { (facts : List (List ℕ)) → option_map made_by result ≡ verb_of facts word.now }
    {
        if word == b"sets".as_slice() {
            return Some(Verb::Sets);
        }
        if word == b"clears".as_slice() {
            return Some(Verb::Clears);
        }
        None
    }

    // The byte of the literal that it makes true.
    fn literal(self, fact: u8) -> u8
        requires { fact < max_facts }
        ensures { result ≡ literal_byte (made_by self fact) }
    {
        match self {
            Verb::Sets => fact,
            Verb::Clears => fact + Problem::SLOTS as u8,
        }
    }
}

// An effect: the byte of its literal, and its condition after its length field.
#[derive(Drop)]
pub struct Effect {
    pub literal: u8,
    pub condition: Vec<u8>,
}

impl FactNames<'_> {
    ghost use Rattle.make.specs.FormulaText.{effect as effect_of, effects as effects_of};
    ghost use Rattle.make.specs.SourceText.{action};
    ghost use Rattle.make.specs.Reads.{Reads};
    ghost use Rattle.make.specs.Views.{made_by, fact_names, IsEffect, AreEffects, IsAction};

    // An effect from its verb on. The byte of its literal is `least` or more.
    fn effect(&self, verb: Verb, least: u8, text: &mut Text) -> Result<Effect, MakeError>
        ensures { Reads (effect_of (fact_names self.now) (made_by verb) least text.old.bytes.now) result text.new.bytes.now IsEffect }
    {
        next_word(text);
        let word = next_word(text);
        let Some(fact) = self.fact(word.bytes) else {
            return Err(Complaint::UnknownFact.at(word.left));
        };
        let literal = verb.literal(fact);
        if literal < least {
            return Err(Complaint::EffectOrder.at(word.left));
        }
        let condition = self.formula_after(b"if".as_slice(), text)?;
        Ok(Effect { literal, condition })
    }

    // Effects, so many at most.
    fn effects(&self, most: u8, text: &mut Text) -> Result<Counted, MakeError>
        ensures { Reads (effects_of (fact_names self.now) most 0 text.old.bytes.now) result text.new.bytes.now AreEffects }
    {
        let mut effects = Counted {
            count: 0,
            bytes: Vec::new(self.alloc),
        };
        let mut least = 0;
        loop {
            let word = text.word();
            let Some(verb) = Verb::of(word.bytes) else {
                return Ok(effects);
            };
            if effects.count == most {
                return Err(Complaint::TooManyEffects.at(word.left));
            }
            let effect = self.effect(verb, least, text)?;
            least = effect.literal + 1;
            effects.count += 1;
            effects.bytes.push(effect.literal)?;
            effects.bytes.extend_from_slice(&effect.condition)?;
        }
    }

    // What follows an action's name: what it needs, and its effects.
    pub fn action(&self, limits: &Limits, text: &mut Text) -> Result<Vec<u8>, MakeError>
        ensures { Reads (action limits.now (fact_names self.now) text.old.bytes.now) result text.new.bytes.now IsAction }
    {
        let mut bytes = self.formula_after(b"needs".as_slice(), text)?;
        let effects = self.effects(limits.effects, text)?;
        bytes.push(effects.count)?;
        bytes.extend_from_slice(&effects.bytes)?;
        Ok(bytes)
    }
}
