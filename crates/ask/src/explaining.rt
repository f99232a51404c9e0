// How a plan fails at a state, step by step.
ghost use Rattle.reply.specs.Views.{spoken as spoken_of};
ghost use Rattle.reply.specs.Said.{Gives};
ghost use Rattle.reply.specs.About.{WithPlan};
ghost use Rattle.ask.specs.Explained.{explained_reply};

use answers::Status;
use explain::{ExplainError, push_explanation};
use reply::{Reply, Spoken, Telling, Unanswered};

// How a plan fails at a state.
pub fn explain_state(
    telling: &Telling,
    spoken: &Spoken,
    plan: &[u8],
    state: u64,
) -> Result<Reply, Unanswered>
    ensures { Gives (WithPlan telling.now.json (spoken_of spoken.now) plan.now (explained_reply telling.now.json (spoken_of spoken.now) state)) result }
{
    let task = match spoken.problem.plan(plan) {
        Ok(task) => task,
        Err(refusal) => return Ok(telling.refuse(refusal)?),
    };
    let mut text = String::new(telling.alloc);
    match push_explanation(&mut text, spoken.names, &task, state) {
        Ok(()) => Ok(telling.tell(text, Status::No)?),
        Err(ExplainError::Refused(refusal)) => Ok(telling.refuse(refusal)?),
        Err(ExplainError::OutOfMemory) => Err(Unanswered::OutOfMemory),
    }
}
