// The whole page, which is decided once and goes to one writer.
ghost use Rattle.std.specs.Prelude.{◌≡◌, ◌≤◌, ◌+◌, ◌*◌, length, Some};
ghost use Rattle.model.specs.Read.{head_bytes};
ghost use Rattle.model.specs.Answers.{judge_answer};
ghost use Rattle.page.specs.Pages.{following};

use crate::first_line::FirstLine;
use crate::list::{ListLines, TooLong};
use model::Verdict;
use std::fmt;

// What follows the first line: nothing, that the list is too long, or its lines.
#[derive(Clone, Copy)]
pub enum Rest<'a> {
    Nothing,
    TooLong,
    Lines(ListLines<'a>),
}

impl fmt::Display for Rest<'_> {
    ghost use Rattle.page.specs.Rest.{rest_text};

    ghost output = { λ r. Some (rest_text r) };

    fn fmt<W: fmt::Write>(&self, f: &mut fmt::Formatter<W>) -> fmt::Result {
        match *self {
            Rest::Nothing => Ok(()),
            Rest::TooLong => write!(f, "{TooLong}"),
            Rest::Lines(lines) => write!(f, "{lines}"),
        }
    }
}

// A page: its first line, and a list block with the lines of a right plan, where they are not too many.
#[derive(Clone, Copy)]
pub struct Page<'a> {
    pub first: FirstLine,
    pub list: &'a [u8],
    pub ghost room: { head_bytes + first.facts.limits.line * first.facts.limits.lines ≤ length list.now },
}

impl<'a> Page<'a> {
    ghost use Rattle.page.specs.Rest.{rest_text, rest_kind, kind_after};

    // What follows the first line: only a right plan has lines.
    pub fn rest(&self) -> Rest<'a>
        ensures kind { rest_kind result ≡ kind_after self.now.first.facts.limits (judge_answer self.now.first.answer) }
        ensures text { rest_text result ≡ following self.now.first.facts.limits self.now.first.facts.count self.now.list.now (judge_answer self.now.first.answer) }
    {
        let Ok(verdict) = self.first.answer else {
            return Rest::Nothing;
        };
        let Verdict::Right { lines, visits: _ } = verdict else {
            return Rest::Nothing;
        };
        let facts = self.first.facts;
        if lines > facts.limits.lines as u64 {
            return Rest::TooLong;
        }
        Rest::Lines(ListLines {
            facts,
            list: self.list,
            count: lines as usize,
        })
    }
}

impl fmt::Display for Page<'_> {
    ghost use Rattle.page.specs.Rest.{page_text};

    ghost output = { λ p. Some (page_text p) };

    fn fmt<W: fmt::Write>(&self, f: &mut fmt::Formatter<W>) -> fmt::Result {
        write!(f, "{}{}", self.first, self.rest())
    }
}
