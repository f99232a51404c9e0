// Writing formulas and actions whose facts are moved up: they are copied byte by byte, and only the bytes of literals change.
ghost use Rattle.std.specs.Prelude.{◌≤◌};
ghost use Rattle.model.specs.Limits.{max_facts, max_members};
ghost use Rattle.model.specs.FormulaBytes.{member_bytes, encode_formula, member_count};
ghost use Rattle.model.specs.ProblemBytes.{action_bytes};
ghost use Rattle.model.specs.Merging.{moved, moved_members, moved_effect, moved_action, parts};
ghost use Rattle.numbers.specs.Writing.{HasRoom, Writes};
ghost use Rattle.formula.specs.Views.{formulas as formulas_of, formula as formula_of};
ghost use Rattle.fields.specs.Actions.{effect as effect_of, action as action_of};
ghost use Rattle.merge.specs.Views.{both_of};
ghost use Rattle.merge.specs.Writing.{effect_bytes};

use crate::both::Both;
use fields::{Action, Effect};
use formula::{Formula, Formulas, Next};
use model::{Group, Problem as Bounds};
use numbers::Writer;

// Formulas one after the other, with no length field.
pub fn put_formulas(writer: &mut Writer, formulas: Formulas, shift: u8)
    requires room { HasRoom writer.old (member_bytes (moved_members shift (formulas_of formulas))) }
    requires shift { shift ≤ max_facts }
    ensures { Writes writer.old (member_bytes (moved_members shift (formulas_of formulas.entry))) writer.new }
{
    let mut left = formulas;
    while !left.is_empty() {
        match left.next() {
            Next::Literal(literal, rest) => {
                writer.put(literal.byte() + shift);
                left = rest;
            }
            // A group's members are the next formulas.
            Next::Group(members) => {
                writer.put_pair(members.group.into(), members.count);
                left = members.formulas;
            }
        }
    }
}

// A formula after its length field.
pub fn put_formula(writer: &mut Writer, formula: Formula, shift: u8)
    requires room { HasRoom writer.old (encode_formula (moved shift (formula_of formula))) }
    requires shift { shift ≤ max_facts }
    ensures { Writes writer.old (encode_formula (moved shift (formula_of formula.entry))) writer.new }
{
    writer.put_number(formula.len() as u64, Bounds::LENGTH_BYTES);
    put_formulas(writer, formula.alone(), shift);
}

// The "all" of two formulas after its length field.
pub fn put_both(writer: &mut Writer, both: Both)
    requires room { HasRoom writer.old (encode_formula (both_of both)) }
    requires members { member_count (parts (both_of both)) ≤ max_members }
    ensures { Writes writer.old (encode_formula (both_of both.entry)) writer.new }
{
    writer.put_number(both.len() as u64, Bounds::LENGTH_BYTES);
    writer.put_pair(Group::All.into(), both.count() as u8);
    put_formulas(writer, both.first.formulas, 0);
    put_formulas(writer, both.second.formulas, both.shift);
}

fn put_effect(writer: &mut Writer, effect: Effect, shift: u8)
    requires room { HasRoom writer.old (effect_bytes (moved_effect shift (effect_of effect))) }
    requires shift { shift ≤ max_facts }
    ensures { Writes writer.old (effect_bytes (moved_effect shift (effect_of effect.entry))) writer.new }
{
    writer.put(effect.literal.byte() + shift);
    put_formula(writer, effect.condition, shift);
}

pub fn put_action(writer: &mut Writer, action: Action, shift: u8)
    requires room { HasRoom writer.old (action_bytes (moved_action shift (action_of action))) }
    requires shift { shift ≤ max_facts }
    ensures { Writes writer.old (action_bytes (moved_action shift (action_of action.entry))) writer.new }
{
    put_formula(writer, action.precondition, shift);
    writer.put(action.effects.count);
    for effect in action.effects {
        put_effect(writer, effect, shift);
    }
}
