// The "all" of a formula of each hall.
ghost use Rattle.std.specs.Prelude.{◌≡◌, ◌≤◌, length};
ghost use Rattle.model.specs.Limits.{max_facts, max_formula_bytes};
ghost use Rattle.model.specs.Merging.{parts};
ghost use Rattle.model.specs.FormulaBytes.{member_bytes};
ghost use Rattle.formula.specs.Views.{formulas, formula as formula_of};
ghost use Rattle.merge.specs.Members.{Whole, PastMembers};

use formula::{Formula, Formulas, Members, Next};
use model::{Group, Problem as Bounds};

// The members that a formula brings to an "all": those of an "all" that it is, or it alone.
fn parts(formula: Formula) -> Members
    ensures is { formulas result.formulas ≡ parts (formula_of formula.entry) }
    ensures whole { Whole result }
{
    let alone = formula.alone();
    if let Next::Group(members) = alone.next() {
        if members.group == Group::All {
            return members;
        }
    }
    Members {
        group: Group::All,
        count: 1,
        formulas: alone,
    }
}

// The formulas after these members, of which none has more than so many groups in one another; else nothing.
fn past_members<'a>(members: Members<'a>, levels: u8) -> Option<Formulas<'a>>
    ensures { PastMembers members.entry levels result }
{
    let mut left = members;
    while left.count > 0 {
        let rest = match left.formulas.next() {
            Next::Literal(_, rest) => rest,
            Next::Group(inner) => {
                if levels == 0 {
                    return None;
                }
                past_members(inner, levels - 1)?
            }
        };
        left = left.past_first(rest);
    }
    Some(left.formulas)
}

// The members of both formulas; those of the second have their facts moved up by `shift`.
#[derive(Clone, Copy)]
pub struct Both<'a> {
    pub first: Members<'a>,
    pub second: Members<'a>,
    pub shift: u8,
    pub ghost first_whole: { Whole first },
    pub ghost second_whole: { Whole second },
    pub ghost first_short: { length (member_bytes (formulas first.formulas)) ≤ max_formula_bytes },
    pub ghost second_short: { length (member_bytes (formulas second.formulas)) ≤ max_formula_bytes },
    pub ghost small: { shift ≤ max_facts },
}

impl<'a> Both<'a> {
    ghost use Rattle.model.specs.FormulaBytes.{formula_bytes, member_count};
    ghost use Rattle.model.specs.Merging.{moved, both, is_over};
    ghost use Rattle.merge.specs.Views.{both_of};

    pub fn of(first: Formula<'a>, second: Formula<'a>, shift: u8) -> Both<'a>
        requires first { length (formula_bytes (formula_of first)) ≤ max_formula_bytes }
        requires second { length (formula_bytes (formula_of second)) ≤ max_formula_bytes }
        requires shift { shift ≤ max_facts }
        ensures { both_of result ≡ both (formula_of first.entry) (moved shift (formula_of second.entry)) }
    {
        Both {
            first: parts(first),
            second: parts(second),
            shift,
        }
    }

    // How many members it has.
    pub fn count(self) -> usize
        ensures { result ≡ member_count (parts (both_of self.entry)) }
    {
        self.first.count as usize + self.second.count as usize
    }

    // How many bytes it takes, its mark and count with them.
    pub fn len(self) -> usize
        ensures { result ≡ length (formula_bytes (both_of self.entry)) }
    {
        2 + self.first.formulas.len() + self.second.formulas.len()
    }

    // Whether it is over a limit of a formula.
    pub fn is_over(self) -> bool
        ensures { result ≡ is_over (both_of self.entry) }
    {
        let long = self.len() > Bounds::MAX_FORMULA_BYTES;
        let many = self.count() > Bounds::MAX_MEMBERS;
        let large = long || many;
        // Its members are in one group already.
        let levels = Bounds::MAX_DEPTH - 1;
        large
            || past_members(self.first, levels).is_none()
            || past_members(self.second, levels).is_none()
    }
}
