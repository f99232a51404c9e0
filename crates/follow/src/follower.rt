// A follower of case lists: it goes from line to line, and knows what the lines so far cover together.
ghost use Rattle.std.proofs.Props.{props};
ghost use Rattle.std.specs.Prelude.{ℕ, ◌≡◌, ◌<◌, ◌≤◌};
ghost use Rattle.model.specs.WellFormed.{Sensible};
ghost use Rattle.cases.specs.Cases.{Common, case_of, values_of};

use crate::covered::Covered;
use blocks::Task;
use cases::{Case, Cases, word_of};
use lines::ListCursor;
use model::{Fault, Refusal};
use runs::{Looks, look, reached_lanes, start_lanes};
use step::Conditions;

// How many facts two cases fix alike before they part. It is sought from the far end: from one line of a list to the next few facts change.
#[inline(always)]
fn fixed_alike(from: Case, to: Case) -> usize
    requires from { from.fixed ≤ 64 }
    requires to { to.fixed ≤ 64 }
    ensures { Common from to result }
{
    for fixed in (1..from.fixed.min(to.fixed) + 1).rev() {
        let past = 64 - fixed;
        if from.word >> past == to.word >> past {
            return fixed;
        }
    }
    0
}

// The case of the last line stands in every lane of `cases`: from one line to the next only the facts in which their cases differ are
// touched. The plan is run on a copy of them.
#[derive(Clone, Copy)]
pub struct Follower<'a> {
    task: &'a Task<'a>,
    cases: Cases,
    copy: Cases,
    case: Case,
    pub covered: Covered,
    conditions: Conditions,
    ghost facts: { cases.facts ≡ task.now.problem.now.facts },
    ghost same: { copy.facts ≡ cases.facts },
    ghost fixed: { case.fixed ≤ cases.facts },
    ghost lanes: { (j : ℕ) → j < 64 → case_of cases j ≡ values_of cases.facts case } by { Prim.hlevel props },
}

impl<'a> Follower<'a> {
    ghost use Rattle.blocks.specs.Values.{task as task_of};
    ghost use Rattle.lines.specs.Readers.{CursorStands, line_under};
    ghost use Rattle.runs.specs.Looks.{LooksAt};
    ghost use Rattle.follow.specs.Follows.{followed, line_answer};

    // Before the first line it stands at the case that fixes no fact, and nothing is covered.
    pub fn new(task: &'a Task<'a>) -> Follower<'a>
        ensures task { result.task.now ≡ task.entry.now }
        ensures covered { result.covered ≡ 0 }
    {
        Follower {
            task,
            cases: Cases::first_case(task.problem.facts),
            copy: Cases::empty_state(task.problem.facts),
            case: Case { fixed: 0, word: 0 },
            covered: Covered::nothing(),
            conditions: Conditions::new(),
        }
    }

    // Goes on to the line at which the reader stands: refused if its form is wrong, if it does not begin where the lines so far end, or if
    // what it claims is not so. That holds for a reader whose lines are those of the task's version.
    #[inline(always)]
    pub fn follow(&mut self, reader: ListCursor) -> Result<(), Refusal>
        requires sensible { Sensible reader.limits }
        requires few { self.old.task.now.problem.now.facts ≤ reader.limits.facts }
        requires stands { CursorStands reader }
        ensures task { self.new.task.now ≡ self.old.task.now }
        ensures line { reader.entry.limits.width ≡ self.old.task.now.problem.now.limits.width
            → followed result self.new.covered ≡ line_answer (task_of self.old.task.now) (line_under reader.entry) reader.entry.line self.old.covered }
    {
        let line = reader.check_here(self.cases.facts)?;
        let place = reader.line as u64;
        if !self.covered.ends_at(line.value) {
            return Err(Fault::LinePlace.at(place));
        }
        let width = reader.limits.width;
        let case = Case {
            fixed: line.k as usize,
            word: word_of(width as usize, line.value),
        };
        let alike = fixed_alike(self.case, case);
        self.cases.set_case(alike, self.case, case);
        self.case = case;
        let looks = self.look();
        if looks.kind(0) != Some(line.kind) {
            return Err(Fault::LineClaim.at(place));
        }
        self.covered = self.covered.with(line, width);
        Ok(())
    }

    // What a visit finds of the case at which it stands. The plan is run on a copy; with no step to obey none is made.
    fn look(&mut self) -> Looks
        ensures task { self.new.task.now ≡ self.old.task.now }
        ensures covered { self.new.covered ≡ self.old.covered }
        ensures cases { self.new.cases ≡ self.old.cases }
        ensures looks { LooksAt (task_of self.old.task.now) (case_of self.old.cases) result }
    {
        let task = self.task;
        if task.steps.len() == 0 {
            let starts = start_lanes(task.problem, &self.cases);
            return Looks::of(starts, reached_lanes(task.problem, &self.cases, starts));
        }
        self.copy.copy_from(&self.cases);
        look(task, &mut self.copy, &mut self.conditions)
    }
}
