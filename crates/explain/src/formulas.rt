// Which part of a false formula is false.
ghost use Rattle.std.specs.Prelude.{◌≡◌, ◌<◌, ◌++◌, OnOk};
ghost use Rattle.std.specs.String.{string_bytes};
ghost use Rattle.model.specs.Kleene.{three};
ghost use Rattle.model.specs.Run.{holds_in};
ghost use Rattle.model.specs.FormulaBytes.{member_count};
ghost use Rattle.formula.specs.Decoding.{head};
ghost use Rattle.formula.specs.Views.{formula as formula_of, formulas as formulas_of, members as members_of};
ghost use Rattle.cases.specs.Cases.{case_of};
ghost use Rattle.names.specs.Views.{names as names_of};
ghost use Rattle.explain.specs.Told.{formula_line, false_members, false_part};

use cases::{Cases, evaluate_first};
use formula::{Formula, Formulas, Members, Next};
use model::Group;
use names::{Names, push_first};
use std::alloc::AllocError;

// The first of some formulas, on a line of its own.
fn push_line(out: &mut String, names: Names, formulas: Formulas) -> Result<(), AllocError>
    requires { 0 < member_count (formulas_of formulas) }
    ensures { OnOk result (string_bytes out.new ≡ string_bytes out.old ++ formula_line (names_of names.entry) (head (formulas_of formulas.entry))) }
{
    out.push_str("  ")?;
    push_first(out, names, formulas)?;
    out.push_str("\n")
}

// Each member that does not hold in lane 0.
fn push_false_members(
    out: &mut String,
    names: Names,
    members: Members,
    cases: &Cases,
) -> Result<(), AllocError>
    ensures { OnOk result (string_bytes out.new ≡ string_bytes out.old ++ false_members (names_of names.entry) (holds_in three (case_of cases.now 0)) (members_of members.entry)) }
{
    let mut rest = members.formulas;
    for _ in 0..members.count {
        let member = rest;
        let holds = evaluate_first(&mut rest, cases).is_yes(0);
        if !holds {
            push_line(out, names, member)?;
        }
    }
    Ok(())
}

// The part of a formula that does not hold in lane 0: each false member of an "all", and else the whole.
pub fn push_false_part(
    out: &mut String,
    names: Names,
    formula: Formula,
    cases: &Cases,
) -> Result<(), AllocError>
    ensures { OnOk result (string_bytes out.new ≡ string_bytes out.old ++ false_part (names_of names.entry) (holds_in three (case_of cases.now 0)) (formula_of formula.entry)) }
{
    let alone = formula.alone();
    match alone.next() {
        Next::Group(members) => match members.group {
            Group::All => push_false_members(out, names, members, cases),
            Group::Any => push_line(out, names, alone),
        },
        Next::Literal(..) => push_line(out, names, alone),
    }
}
