// Reading a formula: refusing what is none, and finding where it ends.
ghost use Rattle.std.specs.Prelude.{◌≡◌, ◌≤◌, length, false};
ghost use Rattle.model.specs.FormulaBytes.{is_literal, formula};
ghost use Rattle.formula.specs.Readings.{forgotten, position_read, EndStated};

use crate::literal::Literal;
use model::{Fault, Group, Problem, Refusal};

// A group's kind and member count, which its first two bytes state.
#[derive(Clone, Copy)]
pub struct GroupHead {
    pub group: Group,
    pub count: u8,
}

// Whether b is the byte of a declared fact or of the denial of one.
#[inline(always)]
pub fn is_literal(b: u8, facts: u8) -> bool
    ensures { result ≡ is_literal facts b }
{
    // Less the bit of a denial, a fact's byte is more than any.
    b < facts || b.wrapping_sub(Literal::DENIAL) < facts
}

// A formula's stated bytes: they end at `end`, and its literals are of the facts below `facts`.
#[derive(Clone, Copy)]
pub struct Stated<'a> {
    block: &'a [u8],
    end: usize,
    facts: u8,
    ghost inside: { end ≤ length block.now },
}

impl<'a> Stated<'a> {
    ghost use Rattle.std.specs.Prelude.{◌<◌, ◌+◌, true};
    ghost use Rattle.model.specs.Limits.{max_depth};
    ghost use Rattle.model.specs.Read.{got};
    ghost use Rattle.model.specs.FormulaBytes.{conjunction, disjunction, item};
    ghost use Rattle.formula.specs.Heads.{literal_at, AreLiterals, parent_mark, Headed};
    ghost use Rattle.formula.specs.Readings.{members_read, stated_formula};

    // Whether a declared literal stands at `at`.
    #[inline(always)]
    fn has_literal(self, at: usize) -> bool
        ensures { result ≡ literal_at self.entry.block.now self.entry.end self.entry.facts at }
    {
        at < self.end && is_literal(self.block[at], self.facts)
    }

    // Whether only declared literals stand from `at` on, up to `stop`.
    #[inline(always)]
    fn has_only_literals(self, at: usize, stop: usize) -> bool
        requires { stop ≤ self.end }
        ensures { result ≡ true → AreLiterals self.entry.block.now stop self.entry.facts at }
    {
        let mut only = true;
        for place in at..stop {
            // No early end, so that many bytes are looked at together.
            let declared = is_literal(self.block[place], self.facts);
            only = only && declared;
        }
        only
    }

    // Whether a literal, or a group of literals alone, is all that is left from `at` on: most formulas are, and take no call.
    #[inline(always)]
    fn is_plain(self, at: usize) -> bool
        requires { at < self.end }
        ensures { result ≡ true → got tt self.entry.end ≡ forgotten (stated_formula self.entry.block.now self.entry.end self.entry.facts at) }
    {
        let length = self.end - at;
        if self.has_literal(at) {
            return length == 1;
        }
        let Ok(_group) = Group::try_from(self.block[at]) else {
            return false;
        };
        if length < 2 || self.block[at + 1] as usize != length - 2 {
            return false;
        }
        self.has_only_literals(at + 2, self.end)
    }

    // Whether a group's members, so many from `at` on, are literals alone.
    #[inline(always)]
    fn has_only_leaves(self, at: usize, count: u8) -> bool
        requires { at ≤ self.end }
        ensures { result ≡ true → (at + count ≤ self.entry.end) × AreLiterals self.entry.block.now (at + count) self.entry.facts at }
    {
        let members = count as usize;
        if self.end - at < members {
            return false;
        }
        self.has_only_literals(at, at + members)
    }

    // The group that begins at `at`, where no literal stands, in such a group or in none, where `left` more groups may nest.
    #[inline(always)]
    fn group_at(self, at: usize, left: u8, parent: Option<Group>) -> Result<GroupHead, Refusal>
        requires { literal_at self.block.now self.end self.facts at ≡ false }
        ensures { Headed self.entry.block.now self.entry.end self.entry.facts left (parent_mark parent) at result }
    {
        // What ends too soon is refused at the first byte after what was stated.
        let cut = Fault::FormulaEnds.at_byte(self.end);
        if self.end <= at {
            return Err(cut);
        }
        let Ok(group) = Group::try_from(self.block[at]) else {
            return Err(Fault::Member.at_byte(at));
        };
        if Some(group) == parent {
            return Err(Fault::Member.at_byte(at));
        }
        if left == 0 {
            return Err(Fault::Depth.at_byte(at));
        }
        let short = self.end - at < 2;
        if short {
            return Err(cut);
        }
        Ok(GroupHead {
            group,
            count: self.block[at + 1],
        })
    }

    // Reads so many members of an "all" from `at` on, where `left` more groups may nest: the position after them. A group among them is an "any".
    #[cycle(groups)]
    fn read_all(self, at: usize, left: u8, count: u8) -> Result<usize, Refusal>
        ensures { position_read result ≡ members_read self.entry.block.now self.entry.end self.entry.facts left conjunction count at }
    {
        let mut next = at;
        for _ in 0..count {
            if self.has_literal(next) {
                next += 1;
            } else {
                let head = self.group_at(next, left, Some(Group::All))?;
                next += 2;
                if self.has_only_leaves(next, head.count) {
                    next += head.count as usize;
                } else {
                    next = self.read_any(next, left - 1, head.count)?;
                }
            }
        }
        Ok(next)
    }

    // The same for an "any", in which a group is an "all".
    #[cycle(groups)]
    fn read_any(self, at: usize, left: u8, count: u8) -> Result<usize, Refusal>
        ensures { position_read result ≡ members_read self.entry.block.now self.entry.end self.entry.facts left disjunction count at }
    {
        let mut next = at;
        for _ in 0..count {
            if self.has_literal(next) {
                next += 1;
            } else {
                let head = self.group_at(next, left, Some(Group::Any))?;
                next += 2;
                if self.has_only_leaves(next, head.count) {
                    next += head.count as usize;
                } else {
                    next = self.read_all(next, left - 1, head.count)?;
                }
            }
        }
        Ok(next)
    }

    // Reads the formula at `at`: the position after it.
    #[inline(always)]
    fn read_outermost(self, at: usize) -> Result<usize, Refusal>
        ensures { position_read result ≡ forgotten (item self.entry.block.now self.entry.end self.entry.facts max_depth 0 at) }
    {
        if self.has_literal(at) {
            return Ok(at + 1);
        }
        let depth = Problem::MAX_DEPTH;
        let head = self.group_at(at, depth, None)?;
        match head.group {
            Group::All => self.read_all(at + 2, depth - 1, head.count),
            Group::Any => self.read_any(at + 2, depth - 1, head.count),
        }
    }

    // Reads the one formula at `at`, which is all that is left: the position after it.
    #[inline(never)]
    fn read_whole(self, at: usize) -> Result<usize, Refusal>
        ensures { position_read result ≡ forgotten (stated_formula self.entry.block.now self.entry.end self.entry.facts at) }
    {
        let next = self.read_outermost(at)?;
        if next < self.end {
            return Err(Fault::FormulaLeft.at_byte(next));
        }
        Ok(next)
    }
}

// The length field at `at`: where the stated bytes end.
#[inline(always)]
fn stated_end(s: &[u8], at: usize) -> Result<usize, Refusal>
    ensures { EndStated s.now at result }
{
    let len = s.len();
    if len <= at || len - at < 2 {
        return Err(Fault::BlockEnds.at_byte(len));
    }
    let n = s[at] as usize * 256 + s[at + 1] as usize;
    if n == 0 || Problem::MAX_FORMULA_BYTES < n {
        return Err(Fault::FormulaLength.at_byte(at));
    }
    let begin = at + 2;
    if len - begin < n {
        return Err(Fault::BlockEnds.at_byte(len));
    }
    Ok(begin + n)
}

// Reads the formula whose length field stands at `at`, over the facts below `facts`: the position after it.
#[inline(always)]
pub fn read_formula(s: &[u8], at: usize, facts: u8) -> Result<usize, Refusal>
    ensures { position_read result ≡ forgotten (formula s.now facts at) }
{
    let end = stated_end(s, at)?;
    let stated = Stated {
        block: s,
        end,
        facts,
    };
    if stated.is_plain(at + 2) {
        return Ok(end);
    }
    stated.read_whole(at + 2)
}
