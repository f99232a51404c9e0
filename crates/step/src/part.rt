// Which part of an action keeps it from being applicable, in the case of lane 0. It is worked out for an answer alone: no look pays for it.
ghost use Rattle.std.specs.Prelude.{◌≡◌};
ghost use Rattle.model.specs.Kleene.{three};
ghost use Rattle.model.specs.Run as run;
ghost use Rattle.model.specs.Answers.{part};
ghost use Rattle.formula.specs.Views as views;
ghost use Rattle.fields.specs.Actions as fields;
ghost use Rattle.cases.specs.Cases.{case_of};
ghost use Rattle.step.specs.Actions.{Hinders};

use crate::action::Hindrance;
use cases::{Cases, evaluate_first};
use fields::Action;
use formula::{Formula, Members, Next};
use model::{Group, Part};

// Of the members, how many hold before the first that is false.
fn first_false(members: Members, cases: &Cases) -> usize
    ensures { result ≡ run.first_false (run.holds_in three (case_of cases.now 0)) (views.members members.entry) }
{
    let mut rest = members.formulas;
    for i in 0..members.count {
        let holds = evaluate_first(&mut rest, cases).is_yes(0);
        if !holds {
            return i as usize;
        }
    }
    members.count as usize
}

// The first false member of an "all"; 0 of any other formula.
fn unmet_member(formula: Formula, cases: &Cases) -> usize
    ensures { result ≡ run.unmet (run.holds_in three (case_of cases.now 0)) (views.formula formula.entry) }
{
    match formula.alone().next() {
        Next::Group(members) => match members.group {
            Group::All => first_false(members, cases),
            Group::Any => 0,
        },
        Next::Literal(..) => 0,
    }
}

// The part of an action that hinders it.
pub fn hindering_part(action: Action, cases: &Cases, hindrance: Hindrance) -> Part
    ensures { Hinders cases.now.facts (fields.action action.entry) (case_of cases.now 0) hindrance → part result ≡ run.part_of three cases.now.facts (fields.action action.entry) (case_of cases.now 0) }
{
    match hindrance {
        Hindrance::Precondition => Part::Member(unmet_member(action.precondition, cases)),
        Hindrance::Conflict(fact) => Part::Fact(fact),
    }
}
