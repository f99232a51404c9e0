// One action in 64 cases at once.
ghost use Rattle.std.specs.Prelude.{◌≡◌, ◌≤◌, ◌<◌, IfOk, IfErr, OnErr};
ghost use Rattle.fields.specs.Actions as fields;
ghost use Rattle.cases.specs.Cases.{case_of};
ghost use Rattle.step.specs.Actions.{Hinders, Obeys};

use crate::conditions::Conditions;
use cases::{Cases, evaluate};
use fields::Action;

// What keeps an action from being applicable: its precondition, or a fact that it would set and clear at once.
#[derive(Clone, Copy)]
pub enum Hindrance {
    Precondition,
    Conflict(usize),
}

// Obeys the action in those lanes of `alive` in which it is applicable, and answers these. Where there is none, the cases stay as they are; and
// where lane 0 alone is asked, what hinders the action there: an unmet precondition, or else the lowest fact in conflict.
#[inline(always)]
pub fn obey(
    action: Action,
    cases: &mut Cases,
    conditions: &mut Conditions,
    alive: u64,
) -> Result<u64, Hindrance>
    ensures facts { cases.new.facts ≡ cases.old.facts }
    ensures some { IfOk result (λ lanes. 0 < lanes) }
    ensures among { IfOk result (λ lanes. lanes ≤ alive) }
    ensures kept { OnErr result (cases.new ≡ cases.old) }
    ensures hinders { IfErr result (λ hindrance. alive ≡ 1 → Hinders action.entry.effects.facts (fields.action action.entry) (case_of cases.old 0) hindrance) }
    ensures obeys { action.entry.effects.facts ≤ cases.old.facts → Obeys cases.old (fields.action action.entry) alive cases.new result }
{
    let met = alive & evaluate(action.precondition, cases).sure;
    if met == 0 {
        return Err(Hindrance::Precondition);
    }
    let lanes = conditions.find(action, cases, met)?;
    conditions.settle(cases);
    Ok(lanes)
}
