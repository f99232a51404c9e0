// Evaluating formulas in 64 cases at once.
ghost use Rattle.std.specs.Prelude.{ℕ, ◌≡◌, ◌≤◌, ◌<◌, IsTrue};
ghost use Rattle.model.specs.Kleene.{three};
ghost use Rattle.model.specs.Formula.{eval};
ghost use Rattle.model.specs.FormulaBytes.{member_count, grouped};
ghost use Rattle.model.specs.declared.marks.Group.TheVariants.{All, Any};
ghost use Rattle.model.specs.Marks.{group_of as kind_of};
ghost use Rattle.formula.specs.Decoding.{first, head, after};
ghost use Rattle.formula.specs.Views.{formula as formula_of, formulas as formulas_of, group as group_of};
ghost use Rattle.cases.specs.Values.{unit_value, join_values, deciding_value};
ghost use Rattle.cases.specs.Cases.{case_of, value_at, Everywhere};

use crate::cases::Cases;
use crate::value::Value;
use crate::words::ONES;
use formula::{Formula, Formulas, Members, Next};
use model::Group;

// The value of a group with no member.
#[inline(always)]
fn unit(kind: Group) -> Value
    ensures { Everywhere (unit_value (kind_of kind)) result }
{
    match kind {
        Group::All => Value::known(ONES),
        Group::Any => Value::known(0),
    }
}

#[inline(always)]
fn join(kind: Group, x: Value, y: Value) -> Value
    ensures { (j : ℕ) → j < 64 → value_at result j ≡ join_values (kind_of kind) (value_at x j) (value_at y j) }
{
    match kind {
        Group::All => x & y,
        Group::Any => x | y,
    }
}

// Whether a value is no, or yes, in every lane, so that no other member changes it.
#[inline(always)]
fn is_decided(kind: Group, value: Value) -> bool
    ensures { IsTrue result → Everywhere (deciding_value (kind_of kind)) value }
{
    match kind {
        Group::All => value.some == 0,
        Group::Any => value.sure == ONES,
    }
}

// The value of a group of this kind whose members are the first so many formulas. Those after them are left, unless nobody asks for them: then
// what decides the group ends it.
#[cycle(evaluator)]
#[inline(always)]
fn join_first(kind: Group, count: u8, formulas: &mut Formulas, cases: &Cases, whole: bool) -> Value
    requires { count ≤ member_count (formulas_of formulas.old) }
    ensures value { (j : ℕ) → j < 64 → value_at result j ≡ eval three (case_of cases.now j) (grouped (kind_of kind) (first count (formulas_of formulas.old))) }
    ensures rest { IsTrue whole → formulas_of formulas.new ≡ after count (formulas_of formulas.old) }
{
    let mut value = unit(kind);
    // Its own place among the formulas, so that it need not be stored at each of them.
    let mut left = *formulas;
    for _ in 0..count {
        if !whole & is_decided(kind, value) {
            return value;
        }
        value = join(kind, value, evaluate_first(&mut left, cases));
    }
    *formulas = left;
    value
}

// The same for an "all", and for an "any": each is a loop with its kind known.
#[cycle(evaluator)]
fn all(count: u8, formulas: &mut Formulas, cases: &Cases) -> Value
    requires { count ≤ member_count (formulas_of formulas.old) }
    ensures value { (j : ℕ) → j < 64 → value_at result j ≡ eval three (case_of cases.now j) (grouped (kind_of All) (first count (formulas_of formulas.old))) }
    ensures rest { formulas_of formulas.new ≡ after count (formulas_of formulas.old) }
{
    join_first(Group::All, count, formulas, cases, true)
}

#[cycle(evaluator)]
fn any(count: u8, formulas: &mut Formulas, cases: &Cases) -> Value
    requires { count ≤ member_count (formulas_of formulas.old) }
    ensures value { (j : ℕ) → j < 64 → value_at result j ≡ eval three (case_of cases.now j) (grouped (kind_of Any) (first count (formulas_of formulas.old))) }
    ensures rest { formulas_of formulas.new ≡ after count (formulas_of formulas.old) }
{
    join_first(Group::Any, count, formulas, cases, true)
}

// The value of the first of some formulas, in each lane's case; those after it are left.
#[cycle(evaluator)]
#[inline(always)]
pub fn evaluate_first(formulas: &mut Formulas, cases: &Cases) -> Value
    requires { 0 < member_count (formulas_of formulas.old) }
    ensures value { (j : ℕ) → j < 64 → value_at result j ≡ eval three (case_of cases.now j) (head (formulas_of formulas.old)) }
    ensures rest { formulas_of formulas.new ≡ after 1 (formulas_of formulas.old) }
{
    match formulas.next() {
        Next::Literal(literal, rest) => {
            *formulas = rest;
            cases.value(literal)
        }
        Next::Group(members) => {
            let mut rest = members.formulas;
            let value = match members.group {
                Group::All => all(members.count, &mut rest, cases),
                Group::Any => any(members.count, &mut rest, cases),
            };
            *formulas = rest;
            value
        }
    }
}

// The value of a formula that is a group.
#[inline(never)]
fn outer_group(members: Members, cases: &Cases) -> Value
    ensures { (j : ℕ) → j < 64 → value_at result j ≡ eval three (case_of cases.now j) (group_of members.entry) }
{
    let mut formulas = members.formulas;
    match members.group {
        Group::All => join_first(Group::All, members.count, &mut formulas, cases, false),
        Group::Any => join_first(Group::Any, members.count, &mut formulas, cases, false),
    }
}

// The formula's value, in each lane's case. Most are one literal or an empty group, and take no call.
#[inline(always)]
pub fn evaluate(formula: Formula, cases: &Cases) -> Value
    ensures { (j : ℕ) → j < 64 → value_at result j ≡ eval three (case_of cases.now j) (formula_of formula.entry) }
{
    match formula.alone().next() {
        Next::Literal(literal, _) => cases.value(literal),
        Next::Group(members) if members.count == 0 => unit(members.group),
        Next::Group(members) => outer_group(members, cases),
    }
}
