// The C interface: each function calls the operation of its name and lays the answer out as eight words.

#![tactic(auto)]

ghost use Rattle.std.specs.Prelude.{◌≡◌, [], ◌∷◌, get_or};
ghost use Rattle.model.specs.Limits.{limits_of};
ghost use Rattle.model.specs.Answers.{plain_answer, part as part_of, outcome as meaning, verdict as verdict_of, search_end};
ghost use Rattle.model.specs.Faults.{fault_number};
ghost use Rattle.model.specs.Operations.{read_problem, read_plan, run_state, judge, write_list, follow_list, relevant_facts, relevant_facts_sparse, search_plans};
ghost use Rattle.model.specs.Merging.{merge};
ghost use Rattle.larkhammock.specs.Words.{refusal_words, part_word, part_number, end_words, wrong_words, verdict_words, problem_words, count_words, run_words, judge_words, plan_words, searched_words, search_words, merge_words};

use model::{Lengths, Outcome, Part, Refusal, Search, ShortPlan, Verdict};

// An answer: word 0 is its tag, and words that its row does not name are 0.
#[repr(C)]
#[derive(Clone, Copy)]
pub struct Answer {
    pub word: [u64; 8],
}

// What a block names, 0 a member or 1 a fact, and its number.
#[derive(Clone, Copy)]
struct PartWords {
    part: u64,
    number: u64,
}

fn named(part: Part) -> PartWords
    ensures part { result.part ≡ part_word (part_of part) }
    ensures number { result.number ≡ part_number (part_of part) }
{
    match part {
        Part::Member(member) => PartWords {
            part: 0,
            number: member as u64,
        },
        Part::Fact(fact) => PartWords {
            part: 1,
            number: fact as u64,
        },
    }
}

fn row(tag: u64, a: u64, b: u64, c: u64, d: u64) -> Answer
    ensures { result.word ≡ tag ∷ a ∷ b ∷ c ∷ d ∷ 0 ∷ 0 ∷ 0 ∷ [] }
{
    Answer {
        word: [tag, a, b, c, d, 0, 0, 0],
    }
}

fn refused(r: Refusal) -> Answer
    ensures { result.word ≡ refusal_words (fault_number r.fault) r.place }
{
    row(0, r.fault.number() as u64, r.place, 0, 0)
}

#[unsafe(no_mangle)]
pub extern "C" fn larkhammock_read_problem(problem: &[u8]) -> Answer
    ensures { result.word ≡ problem_words (read_problem (limits_of problem.now) problem.now) }
{
    match blocks::read_problem(problem) {
        Err(r) => refused(r),
        Ok(counts) => row(1, counts.facts as u64, counts.actions as u64, 0, 0),
    }
}

#[unsafe(no_mangle)]
pub extern "C" fn larkhammock_read_plan(problem: &[u8], plan: &[u8]) -> Answer
    ensures { result.word ≡ count_words (read_plan (limits_of problem.now) problem.now plan.now) }
{
    match blocks::read_plan(problem, plan) {
        Err(r) => refused(r),
        Ok(steps) => row(1, steps as u64, 0, 0, 0),
    }
}

// The row of how a run ended: its tag, and a block's step, part and number.
fn ended(outcome: Outcome) -> Answer
    ensures { result.word ≡ end_words (meaning outcome) }
{
    match outcome {
        Outcome::Reached => row(1, 0, 0, 0, 0),
        Outcome::Missed => row(2, 0, 0, 0, 0),
        Outcome::Blocked(stop) => {
            let n = named(stop.part);
            row(3, stop.step as u64, n.part, n.number, 0)
        }
    }
}

#[unsafe(no_mangle)]
pub extern "C" fn larkhammock_run(problem: &[u8], plan: &[u8], state: u64) -> Answer
    ensures { result.word ≡ run_words (run_state (limits_of problem.now) problem.now plan.now state) }
{
    match execute::run(problem, plan, state) {
        Err(r) => refused(r),
        Ok(outcome) => ended(outcome),
    }
}

// The row of a wrong verdict: visits, state, the outcome's tag, and a block's step, part and number.
fn wrong(visits: u64, state: u64, outcome: Outcome) -> Answer
    ensures { result.word ≡ wrong_words visits state (meaning outcome) }
{
    match outcome {
        Outcome::Reached => row(2, visits, state, 1, 0),
        Outcome::Missed => row(2, visits, state, 2, 0),
        Outcome::Blocked(stop) => {
            let n = named(stop.part);
            let step = stop.step as u64;
            Answer {
                word: [2, visits, state, 3, step, n.part, n.number, 0],
            }
        }
    }
}

// The row of a verdict.
fn told(verdict: Verdict) -> Answer
    ensures { result.word ≡ verdict_words (verdict_of verdict) }
{
    match verdict {
        Verdict::Right { lines, visits } => row(1, visits, lines, 0, 0),
        Verdict::Wrong {
            state,
            outcome,
            visits,
        } => wrong(visits, state, outcome),
        Verdict::Undecided { visits } => row(3, visits, 0, 0, 0),
    }
}

#[unsafe(no_mangle)]
pub extern "C" fn larkhammock_judge(problem: &[u8], plan: &[u8], grant: u64) -> Answer
    ensures { result.word ≡ judge_words (judge (limits_of problem.now) problem.now plan.now grant) }
{
    match judge::judge(problem, plan, grant) {
        Err(r) => refused(r),
        Ok(verdict) => told(verdict),
    }
}

#[unsafe(no_mangle)]
pub extern "C" fn larkhammock_write_list(
    problem: &[u8],
    plan: &[u8],
    grant: u64,
    out: &mut [u8],
) -> Answer
    ensures word { result.word ≡ count_words (write_list (limits_of problem.now) problem.now plan.now grant out.old).answer }
    ensures buffer { out.new ≡ (write_list (limits_of problem.now) problem.now plan.now grant out.old).buffer }
{
    match certificate::write_list(problem, plan, grant, out) {
        Err(r) => refused(r),
        Ok(length) => row(1, length as u64, 0, 0, 0),
    }
}

#[unsafe(no_mangle)]
pub extern "C" fn larkhammock_follow_list(problem: &[u8], plan: &[u8], list: &[u8]) -> Answer
    ensures { result.word ≡ count_words (follow_list (limits_of problem.now) problem.now plan.now list.now) }
{
    match follow::follow_list(problem, plan, list) {
        Err(r) => refused(r),
        Ok(lines) => row(1, lines as u64, 0, 0, 0),
    }
}

// The row of a set of start facts, or of the refusal to tell it.
fn set_row(told: Result<u64, Refusal>) -> Answer
    ensures { result.word ≡ count_words (plain_answer told) }
{
    match told {
        Err(r) => refused(r),
        Ok(set) => row(1, set, 0, 0, 0),
    }
}

#[unsafe(no_mangle)]
pub extern "C" fn larkhammock_relevant_facts(
    problem: &[u8],
    plan: &[u8],
    state: u64,
    work: &mut [u8],
) -> Answer
    ensures word { result.word ≡ count_words (relevant_facts (limits_of problem.now) problem.now plan.now state work.old).answer }
    ensures buffer { work.new ≡ (relevant_facts (limits_of problem.now) problem.now plan.now state work.old).buffer }
{
    set_row(relevance::relevant_facts(problem, plan, state, work))
}

#[unsafe(no_mangle)]
pub extern "C" fn larkhammock_relevant_facts_sparse(
    problem: &[u8],
    plan: &[u8],
    state: u64,
    work: &mut [u8],
) -> Answer
    ensures word { result.word ≡ count_words (relevant_facts_sparse (limits_of problem.now) problem.now plan.now state work.old).answer }
    ensures buffer { work.new ≡ (relevant_facts_sparse (limits_of problem.now) problem.now plan.now state work.old).buffer }
{
    set_row(relevance::relevant_facts_sparse(problem, plan, state, work))
}

// A step of a plan, or 0 past its last.
fn step_word(plan: &ShortPlan, i: usize) -> u64
    ensures { result ≡ get_or plan.now i 0 }
{
    let steps = plan.steps();
    if i < steps.len() { steps[i] as u64 } else { 0 }
}

// The row of a search that ended at a plan: visits, length, and each step.
fn plan_row(tag: u64, visits: u64, plan: &ShortPlan) -> Answer
    ensures { result.word ≡ plan_words tag visits plan.now }
{
    let length = plan.len() as u64;
    let first = step_word(plan, 0);
    let second = step_word(plan, 1);
    let third = step_word(plan, 2);
    let fourth = step_word(plan, 3);
    Answer {
        word: [tag, visits, length, first, second, third, fourth, 0],
    }
}

// The row of a search.
fn searched(search: Search) -> Answer
    ensures { result.word ≡ searched_words (search_end search) }
{
    match search {
        Search::Found { plan, visits } => plan_row(1, visits, &plan),
        Search::NoneRight { visits } => row(2, visits, 0, 0, 0),
        Search::Undecided { plan, visits } => plan_row(3, visits, &plan),
    }
}

#[unsafe(no_mangle)]
pub extern "C" fn larkhammock_search_plans(problem: &[u8], longest: u64, grant: u64) -> Answer
    ensures { result.word ≡ search_words (search_plans (limits_of problem.now) problem.now longest grant) }
{
    match search::search_plans(problem, longest, grant) {
        Err(r) => refused(r),
        Ok(search) => searched(search),
    }
}

// The row of a merge.
fn merged(lengths: Result<Lengths, Refusal>) -> Answer
    ensures { result.word ≡ merge_words (plain_answer lengths) }
{
    match lengths {
        Err(r) => refused(r),
        Ok(lengths) => row(1, lengths.block as u64, lengths.table as u64, 0, 0),
    }
}

#[unsafe(no_mangle)]
pub extern "C" fn larkhammock_merge(
    first: &[u8],
    second: &[u8],
    out: &mut [u8],
    table: &mut [u8],
) -> Answer
    ensures word { result.word ≡ merge_words (merge first.now second.now out.old table.old).answer }
    ensures block { out.new ≡ (merge first.now second.now out.old table.old).out }
    ensures table { table.new ≡ (merge first.now second.now out.old table.old).table }
{
    merged(merge::merge(first, second, out, table))
}
