// Literals and formulas as text.
ghost use Rattle.std.specs.Prelude.{◌≡◌, ◌++◌, ◌<◌, Some, string_bytes, OnOk, IfOk};
ghost use Rattle.model.specs.FormulaBytes.{member_count};
ghost use Rattle.model.specs.Marks.{group_of};
ghost use Rattle.formula.specs.Decoding.{head, after};
ghost use Rattle.formula.specs.Views.{formula as formula_of, formulas as formulas_of, members as members_of, after_group};
ghost use Rattle.names.specs.Texts.{opening_text, formula_text, members_text};
ghost use Rattle.names.specs.Views.{names as names_of};

use crate::names::{FactName, Names};
use formula::{Formula, Formulas, Literal, Members, Next};
use model::Group;
use std::alloc::AllocError;
use std::fmt;

// A literal, as it is spoken of: a denial by its fact's name, after a mark.
#[derive(Clone, Copy)]
pub struct LiteralText<'a> {
    pub names: Names<'a>,
    pub literal: Literal,
}

impl fmt::Display for LiteralText<'_> {
    ghost use Rattle.formula.specs.Views.{literal};
    ghost use Rattle.names.specs.Texts.{literal_text};

    ghost output = { λ l. Some (literal_text (names_of l.names) (literal l.literal)) };

    fn fmt<W: fmt::Write>(&self, f: &mut fmt::Formatter<W>) -> fmt::Result {
        let fact = FactName {
            names: self.names,
            fact: self.literal.fact(),
        };
        if self.literal.is_denial() {
            write!(f, "!{fact}")
        } else {
            write!(f, "{fact}")
        }
    }
}

// What the text of a group begins with.
fn opening(group: Group) -> &'static str
    ensures { result.now ≡ opening_text (group_of group) }
{
    match group {
        Group::All => "all(",
        Group::Any => "any(",
    }
}

// Appends the text of the first of these formulas: those after it.
#[cycle(pushing)]
pub fn push_first<'a>(
    out: &mut String,
    names: Names,
    formulas: Formulas<'a>,
) -> Result<Formulas<'a>, AllocError>
    requires { 0 < member_count (formulas_of formulas) }
    ensures text { OnOk result (string_bytes out.new ≡ string_bytes out.old ++ formula_text (names_of names.entry) (head (formulas_of formulas.entry))) }
    ensures rest { IfOk result (λ rest. formulas_of rest ≡ after 1 (formulas_of formulas.entry)) }
{
    match formulas.next() {
        Next::Literal(literal, rest) => {
            let text = LiteralText { names, literal };
            write!(out, "{text}")?;
            Ok(rest)
        }
        Next::Group(members) => {
            out.push_str(opening(members.group))?;
            push_members(out, names, members)
        }
    }
}

// Appends the text of a group's members, and its end: the formulas after it.
#[cycle(pushing)]
fn push_members<'a>(
    out: &mut String,
    names: Names,
    members: Members<'a>,
) -> Result<Formulas<'a>, AllocError>
    ensures text { OnOk result (string_bytes out.new ≡ string_bytes out.old ++ members_text (names_of names.entry) (members_of members.entry)) }
    ensures rest { IfOk result (λ rest. formulas_of rest ≡ after_group members.entry) }
{
    let mut left = members;
    while left.count > 0 {
        out.push_str(" ")?;
        let rest = push_first(out, names, left.formulas)?;
        left = left.past_first(rest);
    }
    out.push_str(" )")?;
    Ok(left.formulas)
}

// Appends the text of a formula.
pub fn push_formula(out: &mut String, names: Names, formula: Formula) -> Result<(), AllocError>
    ensures { OnOk result (string_bytes out.new ≡ string_bytes out.old ++ formula_text (names_of names.entry) (formula_of formula.entry)) }
{
    push_first(out, names, formula.alone())?;
    Ok(())
}
