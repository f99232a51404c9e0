// How the run of one case ends.
ghost use Rattle.std.specs.Prelude.{◌≡◌};
ghost use Rattle.model.specs.Kleene.{three};
ghost use Rattle.model.specs.Run.{run};
ghost use Rattle.model.specs.Answers.{outcome};
ghost use Rattle.blocks.specs.Values.{task as task_of};
ghost use Rattle.cases.specs.Cases.{case_of};

use blocks::Task;
use cases::{Cases, evaluate};
use model::{Outcome, Stop};
use step::{Conditions, hindering_part, obey};

// How the run of the case in lane 0 ends.
pub fn run_of_case(task: &Task, cases: &Cases, conditions: &mut Conditions) -> Outcome
    requires { cases.now.facts ≡ task.now.problem.now.facts }
    ensures { outcome result ≡ run three (task_of task.now).facts (task_of task.now).goal (task_of task.now).plan 0 (case_of cases.now 0) }
{
    let mut current = *cases;
    for i in 0..task.steps.len() {
        let action = task.action(i);
        // Lane 0 alone is asked: a step that is not obeyed leaves the cases as they are, and what hinders it is told of them.
        if let Err(hindrance) = obey(action, &mut current, conditions, 1) {
            let part = hindering_part(action, &current, hindrance);
            return Outcome::Blocked(Stop { step: i, part });
        }
    }
    if evaluate(task.problem.goal, &current).is_yes(0) {
        Outcome::Reached
    } else {
        Outcome::Missed
    }
}
