// The text of an answer: the parts of a verdict, and the first line of a page.
ghost use Rattle.std.specs.Prelude.{◌≡◌, ◌≤◌, ◌+◌, ◌++◌, length, Some};
ghost use Rattle.arrayvec.specs.ArrayString.{array_string_len};
ghost use Rattle.model.specs.Faults.{fault_number};
ghost use Rattle.model.specs.Answers.{part, outcome, verdict, judge_answer};
ghost use Rattle.model.specs.DeskText.{block_text, refusal_line, part_text, where_text, verdict_line, judged_line};

use crate::marks::push_marks;
use crate::number::{Decimal, MAX_DIGITS, push_number, push_numbers};
use crate::text::{LINE_ROOM, LineText};
use answers::{Facts, Marks};
use model::{Fault, Outcome, Part, Refusal, Verdict};
use std::fmt;

// The refusals of a plan are numbered from here on.
const PLAN_NUMBERS: u8 = 30;

// The longest part is "member" with a number, and the longest place "at step", a number and such a part.
const PART_ROOM: usize = 7 + MAX_DIGITS;

const WHERE_ROOM: usize = 8 + MAX_DIGITS + 1 + PART_ROOM;

// Which block a fault is of.
fn block_of(fault: Fault) -> &'static str
    ensures text { result.now ≡ block_text (fault_number fault) }
    ensures short { length result.now ≤ 7 }
{
    if fault.number() < PLAN_NUMBERS {
        return "problem";
    }
    "plan"
}

// A refusal.
#[derive(Clone, Copy)]
pub struct RefusalLine(pub Refusal);

impl RefusalLine {
    // The line.
    pub fn text(&self) -> LineText
        ensures bytes { result.bytes ≡ refusal_line (fault_number self.now.0.fault) self.now.0.place }
        ensures len { array_string_len result ≤ LINE_ROOM }
    {
        let Refusal { place, fault } = self.0;
        let number = fault.number() as u64;
        let mut text = LineText::new();
        text.push_str("refused ");
        text.push_str(block_of(fault));
        push_numbers(&mut text, " ", number, " at ", place, "\n");
        text
    }
}

impl fmt::Display for RefusalLine {
    ghost output = { λ r. Some (refusal_line (fault_number r.0.fault) r.0.place) };

    fn fmt<W: fmt::Write>(&self, f: &mut fmt::Formatter<W>) -> fmt::Result {
        f.write_str(self.text().as_str())
    }
}

// What keeps a step from being applicable: a member of its precondition, or a fact.
#[derive(Clone, Copy)]
pub struct PartText(pub Part);

impl PartText {
    // Appends the part.
    fn push_to(self, text: &mut LineText)
        requires { array_string_len text.old + PART_ROOM ≤ LINE_ROOM }
        ensures bytes { text.new.bytes ≡ text.old.bytes ++ part_text (part self.0) }
        ensures len { array_string_len text.new ≤ array_string_len text.old + PART_ROOM }
    {
        match self.0 {
            Part::Member(member) => {
                text.push_str("member ");
                Decimal(member as u64).push_to(text);
            }
            Part::Fact(fact) => {
                text.push_str("fact ");
                Decimal(fact as u64).push_to(text);
            }
        }
    }
}

impl fmt::Display for PartText {
    ghost output = { λ p. Some (part_text (part p.0)) };

    fn fmt<W: fmt::Write>(&self, f: &mut fmt::Formatter<W>) -> fmt::Result {
        let mut text = LineText::new();
        self.push_to(&mut text);
        f.write_str(text.as_str())
    }
}

// Where a run went wrong: at its end, or at the step that was blocked, and by which part.
#[derive(Clone, Copy)]
pub struct WhereText(pub Outcome);

impl WhereText {
    // Appends the place.
    fn push_to(self, text: &mut LineText)
        requires { array_string_len text.old + WHERE_ROOM ≤ LINE_ROOM }
        ensures bytes { text.new.bytes ≡ text.old.bytes ++ where_text (outcome self.0) }
        ensures len { array_string_len text.new ≤ array_string_len text.old + WHERE_ROOM }
    {
        match self.0 {
            Outcome::Reached => text.push_str("at end"),
            Outcome::Missed => text.push_str("at end"),
            Outcome::Blocked(stop) => {
                push_number(text, "at step ", stop.step as u64, " ");
                PartText(stop.part).push_to(text);
            }
        }
    }
}

impl fmt::Display for WhereText {
    ghost output = { λ o. Some (where_text (outcome o.0)) };

    fn fmt<W: fmt::Write>(&self, f: &mut fmt::Formatter<W>) -> fmt::Result {
        let mut text = LineText::new();
        self.push_to(&mut text);
        f.write_str(text.as_str())
    }
}

// What the judge says.
#[derive(Clone, Copy)]
pub struct VerdictLine {
    pub facts: Facts,
    pub verdict: Verdict,
}

impl VerdictLine {
    // The line.
    pub fn text(&self) -> LineText
        ensures bytes { result.bytes ≡ verdict_line self.now.facts.limits self.now.facts.count (verdict self.now.verdict) }
        ensures len { array_string_len result ≤ LINE_ROOM }
    {
        let mut text = LineText::new();
        match self.verdict {
            Verdict::Right { lines, visits } => {
                push_numbers(&mut text, "right lines ", lines, " visited ", visits, "\n");
                text
            }
            Verdict::Wrong {
                state,
                outcome,
                visits,
            } => {
                let marks = Marks {
                    facts: self.facts,
                    k: self.facts.count,
                    value: state,
                };
                text.push_str("wrong ");
                push_marks(&mut text, &marks);
                text.push_str(" ");
                WhereText(outcome).push_to(&mut text);
                push_number(&mut text, " visited ", visits, "\n");
                text
            }
            Verdict::Undecided { visits } => {
                push_number(&mut text, "undecided visited ", visits, "\n");
                text
            }
        }
    }
}

impl fmt::Display for VerdictLine {
    ghost output = { λ v. Some (verdict_line v.facts.limits v.facts.count (verdict v.verdict)) };

    fn fmt<W: fmt::Write>(&self, f: &mut fmt::Formatter<W>) -> fmt::Result {
        f.write_str(self.text().as_str())
    }
}

// The first line of a page: the refusal, or the verdict.
#[derive(Clone, Copy)]
pub struct FirstLine {
    pub facts: Facts,
    pub answer: Result<Verdict, Refusal>,
}

impl FirstLine {
    // The line, whole: no call of it can fail.
    pub fn text(&self) -> LineText
        ensures bytes { result.bytes ≡ judged_line self.now.facts.limits self.now.facts.count (judge_answer self.now.answer) }
        ensures len { array_string_len result ≤ LINE_ROOM }
    {
        let facts = self.facts;
        match self.answer {
            Err(refusal) => RefusalLine(refusal).text(),
            Ok(verdict) => VerdictLine { facts, verdict }.text(),
        }
    }
}

impl fmt::Display for FirstLine {
    ghost output = { λ l. Some (judged_line l.facts.limits l.facts.count (judge_answer l.answer)) };

    fn fmt<W: fmt::Write>(&self, f: &mut fmt::Formatter<W>) -> fmt::Result {
        f.write_str(self.text().as_str())
    }
}
