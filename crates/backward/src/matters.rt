// One step of working backward: the facts that matter before an action, by those that matter after it.
ghost use Rattle.std.specs.Prelude.{ℕ, ◌≡◌, ◌<◌};
ghost use Rattle.model.specs.Limits.{max_facts};
ghost use Rattle.fields.specs.Actions.{action as action_of, effects as effects_of, effect as effect_of};
ghost use Rattle.backward.specs.Facts.{has_fact};
ghost use Rattle.backward.specs.Changes.{asks, NamesAsked};
ghost use Rattle.backward.specs.Marks.{MattersBefore};

use crate::facts::FactSet;
use crate::named::named_facts;
use fields::{Action, Effect, Effects};

// What going backward over a step needs to know of its run: the facts that were set in it, and those that its action may both set and clear.
#[derive(Clone, Copy)]
pub struct Mark {
    pub set: FactSet,
    pub both: FactSet,
}

impl Mark {
    pub const NONE: Mark = Mark {
        set: FactSet::EMPTY,
        both: FactSet::EMPTY,
    };
}

// Whether the effect sets a fact of `set`, or clears one of `cleared`.
#[inline(always)]
fn is_asked(effect: Effect, set: FactSet, cleared: FactSet) -> bool
    ensures { result ≡ asks set cleared (effect_of effect.entry).literal }
{
    let fact = effect.literal.fact();
    if effect.literal.is_denial() {
        cleared.has(fact)
    } else {
        set.has(fact)
    }
}

// The facts that the conditions of those effects name.
fn facts_of_conditions(effects: Effects, set: FactSet, cleared: FactSet) -> FactSet
    ensures { NamesAsked effects.entry.facts set cleared (effects_of effects.entry) result }
{
    let mut facts = FactSet::EMPTY;
    for effect in effects {
        if is_asked(effect, set, cleared) {
            facts = facts | named_facts(effect.condition);
        }
    }
    facts
}

// The facts that matter before the action, where `after` has those that matter after it. A fact that was set matters no longer itself; the
// conditions are asked for of the facts that matter, and of those that may be both set and cleared.
pub fn matters_before(action: Action, mark: Mark, after: FactSet) -> FactSet
    ensures { MattersBefore mark after action.entry.effects.facts (action_of action.entry) result }
{
    let kept = after - mark.set;
    let conditions = facts_of_conditions(action.effects, after | mark.both, kept | mark.both);
    named_facts(action.precondition) | kept | conditions
}
