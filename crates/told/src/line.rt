// The line that says what a command answers.
ghost use Rattle.std.specs.Prelude.{Some};

use crate::states::StateText;
use answers::{Answer, Facts, FaultRow, Unit};
use model::{Outcome, Part, Refusal, Search, ShortPlan, Stop, Verdict};
use names::{ActionName, Names};
use std::fmt;

// A refusal: that of a line, or of the end of the lines, in words, and all else by number.
#[derive(Clone, Copy)]
pub struct RefusalLine(pub Refusal);

impl fmt::Display for RefusalLine {
    ghost use Rattle.told.specs.AnswerText.{refused_line};

    ghost output = { λ r. Some (refused_line r.0) };

    fn fmt<W: fmt::Write>(&self, f: &mut fmt::Formatter<W>) -> fmt::Result {
        let Refusal { place, fault } = self.0;
        let row = FaultRow::of(fault);
        let subject = row.subject;
        let words = row.words;
        let number = fault.number();
        match row.unit {
            Unit::Nothing | Unit::Byte => writeln!(f, "refused {subject} {number} at {place}"),
            Unit::Line => writeln!(f, "line {place}: {words} ({number})"),
            Unit::End => writeln!(f, "end: {words} ({number})"),
        }
    }
}

// What keeps a step from being applicable: a member of its precondition, or a fact.
#[derive(Clone, Copy)]
struct PartText<'a> {
    names: Names<'a>,
    part: Part,
}

impl fmt::Display for PartText<'_> {
    ghost use Rattle.model.specs.Answers.{part};
    ghost use Rattle.names.specs.Views.{names};
    ghost use Rattle.told.specs.AnswerText.{part_text};

    ghost output = { λ p. Some (part_text (names p.names) (part p.part)) };

    fn fmt<W: fmt::Write>(&self, f: &mut fmt::Formatter<W>) -> fmt::Result {
        match self.part {
            Part::Member(member) => write!(f, "member {member}"),
            Part::Fact(fact) => match self.names.facts.get(fact) {
                Some(name) => write!(f, "fact {name}"),
                None => write!(f, "fact {fact}"),
            },
        }
    }
}

// Where a run went wrong: at its end, or at the step that was blocked, and by which part.
#[derive(Clone, Copy)]
struct WhereText<'a> {
    names: Names<'a>,
    outcome: Outcome,
}

impl fmt::Display for WhereText<'_> {
    ghost use Rattle.model.specs.Answers.{outcome};
    ghost use Rattle.names.specs.Views.{names};
    ghost use Rattle.told.specs.AnswerText.{where_text};

    ghost output = { λ w. Some (where_text (names w.names) (outcome w.outcome)) };

    fn fmt<W: fmt::Write>(&self, f: &mut fmt::Formatter<W>) -> fmt::Result {
        match self.outcome {
            Outcome::Reached => write!(f, "at end"),
            Outcome::Missed => write!(f, "at end"),
            Outcome::Blocked(Stop { step, part }) => {
                let names = self.names;
                write!(f, "at step {step} {}", PartText { names, part })
            }
        }
    }
}

// How a run ends.
#[derive(Clone, Copy)]
struct OutcomeLine<'a> {
    names: Names<'a>,
    outcome: Outcome,
}

impl fmt::Display for OutcomeLine<'_> {
    ghost use Rattle.model.specs.Answers.{outcome};
    ghost use Rattle.names.specs.Views.{names};
    ghost use Rattle.told.specs.AnswerText.{outcome_line};

    ghost output = { λ o. Some (outcome_line (names o.names) (outcome o.outcome)) };

    fn fmt<W: fmt::Write>(&self, f: &mut fmt::Formatter<W>) -> fmt::Result {
        let OutcomeLine { names, outcome } = *self;
        match outcome {
            Outcome::Reached => writeln!(f, "reached"),
            Outcome::Missed => writeln!(f, "missed"),
            Outcome::Blocked(_) => writeln!(f, "blocked {}", WhereText { names, outcome }),
        }
    }
}

// What the judge says.
#[derive(Clone, Copy)]
struct VerdictLine<'a> {
    names: Names<'a>,
    facts: Facts,
    verdict: Verdict,
}

impl fmt::Display for VerdictLine<'_> {
    ghost use Rattle.model.specs.Answers.{verdict};
    ghost use Rattle.names.specs.Views.{names};
    ghost use Rattle.told.specs.AnswerText.{verdict_line};

    ghost output = { λ v. Some (verdict_line (names v.names) v.facts.limits v.facts.count (verdict v.verdict)) };

    fn fmt<W: fmt::Write>(&self, f: &mut fmt::Formatter<W>) -> fmt::Result {
        let VerdictLine {
            names,
            facts,
            verdict,
        } = *self;
        match verdict {
            Verdict::Right { lines, visits } => writeln!(f, "right lines {lines} visited {visits}"),
            Verdict::Wrong {
                state,
                outcome,
                visits,
            } => {
                let state = StateText {
                    names,
                    facts,
                    state,
                };
                let place = WhereText { names, outcome };
                writeln!(f, "wrong {state} {place} visited {visits}")
            }
            Verdict::Undecided { visits } => writeln!(f, "undecided visited {visits}"),
        }
    }
}

// The steps of a plan, each with a space before it.
#[derive(Clone, Copy)]
struct StepsText<'a> {
    names: Names<'a>,
    plan: ShortPlan,
}

impl fmt::Display for StepsText<'_> {
    ghost use Rattle.names.specs.Views.{names};
    ghost use Rattle.told.specs.AnswerText.{steps_text};

    ghost output = { λ s. Some (steps_text (names s.names) s.plan) };

    fn fmt<W: fmt::Write>(&self, f: &mut fmt::Formatter<W>) -> fmt::Result {
        let names = self.names;
        for step in self.plan.steps() {
            let action = ActionName {
                names,
                action: *step,
            };
            write!(f, " {action}")?;
        }
        Ok(())
    }
}

// What a search finds.
#[derive(Clone, Copy)]
struct SearchLine<'a> {
    names: Names<'a>,
    search: Search,
}

impl fmt::Display for SearchLine<'_> {
    ghost use Rattle.model.specs.Answers.{search_end};
    ghost use Rattle.names.specs.Views.{names};
    ghost use Rattle.told.specs.AnswerText.{search_line};

    ghost output = { λ s. Some (search_line (names s.names) (search_end s.search)) };

    fn fmt<W: fmt::Write>(&self, f: &mut fmt::Formatter<W>) -> fmt::Result {
        let names = self.names;
        match self.search {
            Search::Found { plan, visits } => {
                let steps = StepsText { names, plan };
                writeln!(f, "found{steps} visited {visits}")
            }
            Search::NoneRight { visits } => writeln!(f, "none visited {visits}"),
            Search::Undecided { plan, visits } => {
                let steps = StepsText { names, plan };
                writeln!(f, "undecided at{steps} visited {visits}")
            }
        }
    }
}

// What a command answers: its answer, or the refusal.
#[derive(Clone, Copy)]
pub struct Told<'a> {
    pub names: Names<'a>,
    pub facts: Facts,
    pub answer: Result<Answer, Refusal>,
}

impl fmt::Display for Told<'_> {
    ghost use Rattle.names.specs.Views.{names};
    ghost use Rattle.told.specs.AnswerText.{told};

    ghost output = { λ t. Some (told (names t.names) t.facts.limits t.facts.count t.answer) };

    fn fmt<W: fmt::Write>(&self, f: &mut fmt::Formatter<W>) -> fmt::Result {
        let Told {
            names,
            facts,
            answer,
        } = *self;
        match answer {
            Ok(Answer::Judged(verdict)) => {
                let line = VerdictLine {
                    names,
                    facts,
                    verdict,
                };
                write!(f, "{line}")
            }
            Ok(Answer::Written(bytes)) => writeln!(f, "wrote {bytes} bytes"),
            Ok(Answer::Followed(lines)) => writeln!(f, "passes, {lines} lines"),
            Ok(Answer::Ran(outcome)) => write!(f, "{}", OutcomeLine { names, outcome }),
            Ok(Answer::Rests(state)) => {
                let set = StateText {
                    names,
                    facts,
                    state,
                };
                writeln!(f, "rests on {set}")
            }
            Ok(Answer::Searched(search)) => write!(f, "{}", SearchLine { names, search }),
            Err(refusal) => write!(f, "{}", RefusalLine(refusal)),
        }
    }
}
