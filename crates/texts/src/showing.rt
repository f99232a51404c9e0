// A problem as a text, with a plan for it.
ghost use Rattle.std.specs.Prelude.{option_map};
ghost use Rattle.reply.specs.Views.{given, spoken as spoken_of};
ghost use Rattle.reply.specs.Said.{Gives};
ghost use Rattle.reply.specs.About.{WithPlan};
ghost use Rattle.texts.specs.Shown.{ShowReply, shown_reply};

use answers::Status;
use reply::{Reply, Spoken, Telling, Unanswered};
use show::{push_plan, push_problem};

// A problem, and the plan in a block.
fn show_both(telling: &Telling, spoken: &Spoken, plan: &[u8]) -> Result<Reply, Unanswered>
    ensures { Gives (WithPlan telling.now.json (spoken_of spoken.now) plan.now (shown_reply telling.now.json (spoken_of spoken.now))) result }
{
    let task = match spoken.problem.plan(plan) {
        Ok(task) => task,
        Err(refusal) => return Ok(telling.refuse(refusal)?),
    };
    let mut text = String::new(telling.alloc);
    push_problem(&mut text, spoken.names, &spoken.problem)?;
    push_plan(&mut text, spoken.names, task.steps)?;
    Ok(telling.tell(text, Status::Yes)?)
}

// A problem as a text, and a plan for it, if there is one.
pub fn show(telling: &Telling, problem: &[u8], plan: Option<&[u8]>) -> Result<Reply, Unanswered>
    ensures { Gives (ShowReply telling.now.json (given telling.now) problem.now (option_map (λ p. p.now) plan.entry)) result }
{
    let spoken = match telling.spoken(problem) {
        Ok(spoken) => spoken,
        Err(why) => return telling.unspoken(why),
    };
    let Some(plan) = plan else {
        let mut text = String::new(telling.alloc);
        push_problem(&mut text, spoken.names, &spoken.problem)?;
        return Ok(telling.tell(text, Status::Yes)?);
    };
    show_both(telling, &spoken, plan)
}
