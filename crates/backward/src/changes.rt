// What an action changes in the state of lane 0.
ghost use Rattle.fields.specs.Actions.{effects as effects_of, effect as effect_of};
ghost use Rattle.backward.specs.Changes.{AddsEffect, IsChanges};

use crate::facts::FactSet;
use cases::{Cases, evaluate};
use fields::{Effect, Effects};

// The facts that an effect may set, those that one may clear, and of both those whose condition is true in lane 0.
#[derive(Clone, Copy)]
pub struct Changes {
    pub may_set: FactSet,
    pub may_clear: FactSet,
    pub set: FactSet,
    pub cleared: FactSet,
}

impl Changes {
    const NONE: Changes = Changes {
        may_set: FactSet::EMPTY,
        may_clear: FactSet::EMPTY,
        set: FactSet::EMPTY,
        cleared: FactSet::EMPTY,
    };

    // With one effect more.
    #[inline(always)]
    fn with(self, effect: Effect, cases: &Cases) -> Changes
        ensures { AddsEffect cases.now self (effect_of effect.entry) result }
    {
        let named = FactSet::of(effect.literal.fact());
        let now = named.only_if(evaluate(effect.condition, cases).is_yes(0));
        if effect.literal.is_denial() {
            return Changes {
                may_clear: self.may_clear | named,
                cleared: self.cleared | now,
                ..self
            };
        }
        Changes {
            may_set: self.may_set | named,
            set: self.set | now,
            ..self
        }
    }

    #[inline(always)]
    pub fn of(effects: Effects, cases: &Cases) -> Changes
        ensures { IsChanges cases.now (effects_of effects.entry) result }
    {
        let mut changes = Changes::NONE;
        for effect in effects {
            changes = changes.with(effect, cases);
        }
        changes
    }
}
