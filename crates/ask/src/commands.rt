// The commands that ask a question: each is replied with what its operation answers.
ghost use Rattle.std.specs.Prelude.{◌≡◌, replicate, option_map, IfOk};
ghost use Rattle.reply.specs.Views.{given};
ghost use Rattle.reply.specs.Said.{Gives};
ghost use Rattle.ask.specs.Asked.{Asked};
ghost use Rattle.ask.specs.Commands.{written_file, found_file, searched_file, wrong_at, failing_state, JudgeReply, WriteReply, FollowReply, RunReply, FactsReply, SearchReply, ExplainReply};

use crate::explaining::explain_state;
use crate::question::{Blocks, Question};
use answers::Answer;
use model::{CaseList, Limits, Plan, Problem, Refusal, Search, Verdict};
use reply::marks::marked_state;
use reply::plan_block::plan_block;
use reply::{Reply, Telling, Unanswered};
use std::alloc::{AllocError, Global};

// The rows of the longest run, of as many facts as there may be.
const MOST_ROWS: usize = (Plan::MAX_STEPS + 1) * Problem::MAX_FACTS_V2 as usize;

// The bytes of a list that was written into a buffer.
fn written_file(answer: &Result<Answer, Refusal>, mut list: Vec<u8>) -> Option<Vec<u8>>
    ensures { option_map (λ f. f.items) result ≡ written_file answer.now list.items }
{
    match answer {
        Ok(Answer::Written(length)) => {
            list.truncate(*length);
            Some(list)
        }
        _ => None,
    }
}

// The block of the plan that a search found, if it found one.
fn found_file(alloc: Global, search: &Search) -> Result<Option<Vec<u8>>, AllocError>
    ensures { IfOk result (λ f. option_map (λ f. f.items) f ≡ found_file search.now) }
{
    match search {
        Search::Found { plan, .. } => Ok(Some(plan_block(alloc, plan.steps())?)),
        _ => Ok(None),
    }
}

// The same, of an answer.
fn searched_file(
    alloc: Global,
    answer: &Result<Answer, Refusal>,
) -> Result<Option<Vec<u8>>, AllocError>
    ensures { IfOk result (λ f. option_map (λ f. f.items) f ≡ searched_file answer.now) }
{
    match answer {
        Ok(Answer::Searched(search)) => found_file(alloc, search),
        _ => Ok(None),
    }
}

// So many bytes of zero.
fn zeros(alloc: Global, count: usize) -> Result<Vec<u8>, AllocError>
    ensures { IfOk result (λ v. v.items ≡ replicate count 0) }
{
    vec![in alloc; 0u8; count]
}

// A question whose buffer is all of these bytes.
fn ask_into(question: Question, bytes: &mut Vec<u8>) -> Result<Answer, Refusal>
    ensures { Asked question.entry bytes.old.items result bytes.new.items }
{
    question.ask(bytes)
}

// The state at which a plan is wrong, if it is.
fn wrong_at(verdict: &Verdict) -> Option<u64>
    ensures { result ≡ wrong_at verdict.now }
{
    match verdict {
        Verdict::Wrong { state, .. } => Some(*state),
        _ => None,
    }
}

// The same, of an answer.
fn failing_state(answer: &Result<Answer, Refusal>) -> Option<u64>
    ensures { result ≡ failing_state answer.now }
{
    match answer {
        Ok(Answer::Judged(verdict)) => wrong_at(verdict),
        _ => None,
    }
}

pub fn judge(telling: &Telling, blocks: Blocks, grant: u64) -> Result<Reply, Unanswered>
    ensures { Gives (JudgeReply telling.now.json (given telling.now) blocks.entry grant) result }
{
    match telling.spoken(blocks.problem) {
        Ok(spoken) => {
            let answer = Question::Judge(blocks, grant).ask(&mut []);
            Ok(telling.answer(&spoken, &answer)?)
        }
        Err(why) => telling.unspoken(why),
    }
}

// The list, if it is written, is the file.
pub fn write(telling: &Telling, blocks: Blocks, grant: u64) -> Result<Reply, Unanswered>
    ensures { Gives (WriteReply telling.now.json (given telling.now) blocks.entry grant) result }
{
    match telling.spoken(blocks.problem) {
        Ok(spoken) => {
            let mut list = zeros(telling.alloc, CaseList::MAX_BYTES)?;
            let answer = ask_into(Question::Write(blocks, grant), &mut list);
            let file = written_file(&answer, list);
            Ok(telling.answer_with(&spoken, &answer, file)?)
        }
        Err(why) => telling.unspoken(why),
    }
}

pub fn follow(telling: &Telling, blocks: Blocks, list: &[u8]) -> Result<Reply, Unanswered>
    ensures { Gives (FollowReply telling.now.json (given telling.now) blocks.entry list.entry) result }
{
    match telling.spoken(blocks.problem) {
        Ok(spoken) => {
            let answer = Question::Follow(blocks, list).ask(&mut []);
            Ok(telling.answer(&spoken, &answer)?)
        }
        Err(why) => telling.unspoken(why),
    }
}

// From the state that has these marks.
pub fn run(telling: &Telling, blocks: Blocks, marks: &[u8]) -> Result<Reply, Unanswered>
    ensures { Gives (RunReply telling.now.json (given telling.now) blocks.entry marks.now) result }
{
    match telling.spoken(blocks.problem) {
        Ok(spoken) => {
            let Some(state) = marked_state(marks, spoken.facts()) else {
                return Err(Unanswered::Marks(spoken.problem.facts));
            };
            let answer = Question::Run(blocks, state).ask(&mut []);
            Ok(telling.answer(&spoken, &answer)?)
        }
        Err(why) => telling.unspoken(why),
    }
}

// The facts on which a run rests, from the state that has these marks, and its states. A run that reaches the goal takes each step, and
// has a state before each and one at its end.
pub fn facts(telling: &Telling, blocks: Blocks, marks: &[u8]) -> Result<Reply, Unanswered>
    ensures { Gives (FactsReply telling.now.json (given telling.now) blocks.entry marks.now) result }
{
    match telling.spoken(blocks.problem) {
        Ok(spoken) => {
            let Some(state) = marked_state(marks, spoken.facts()) else {
                return Err(Unanswered::Marks(spoken.problem.facts));
            };
            let mut rows = [0u8; MOST_ROWS];
            let answer = Question::Rest(blocks, state).ask(&mut rows);
            let states = blocks.plan.len().saturating_sub(Limits::HEAD_BYTES) + 1;
            let states = states.min(Plan::MAX_STEPS + 1);
            Ok(telling.answer_rows(&spoken, &answer, &rows, states)?)
        }
        Err(why) => telling.unspoken(why),
    }
}

// The block of the plan, if one is found, is the file.
pub fn search(
    telling: &Telling,
    problem: &[u8],
    longest: u64,
    grant: u64,
) -> Result<Reply, Unanswered>
    ensures { Gives (SearchReply telling.now.json (given telling.now) problem.entry longest grant) result }
{
    match telling.spoken(problem) {
        Ok(spoken) => {
            let answer = Question::Search(problem, longest, grant).ask(&mut []);
            let file = searched_file(telling.alloc, &answer)?;
            Ok(telling.answer_with(&spoken, &answer, file)?)
        }
        Err(why) => telling.unspoken(why),
    }
}

// A wrong plan's failing run, step by step; of any other plan what the judge answers.
pub fn explain(telling: &Telling, blocks: Blocks, grant: u64) -> Result<Reply, Unanswered>
    ensures { Gives (ExplainReply telling.now.json (given telling.now) blocks.entry grant) result }
{
    match telling.spoken(blocks.problem) {
        Ok(spoken) => {
            let answer = Question::Judge(blocks, grant).ask(&mut []);
            match failing_state(&answer) {
                Some(state) => explain_state(telling, &spoken, blocks.plan, state),
                None => Ok(telling.answer(&spoken, &answer)?),
            }
        }
        Err(why) => telling.unspoken(why),
    }
}
