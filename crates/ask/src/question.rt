// The questions of the commands.
use answers::Answer;
use certificate::write_list;
use execute::run;
use follow::follow_list;
use judge::judge;
use model::Refusal;
use relevance::relevant_facts;
use search::search_plans;

// The bytes of a problem and of a plan.
#[derive(Clone, Copy)]
pub struct Blocks<'a> {
    pub problem: &'a [u8],
    pub plan: &'a [u8],
}

// A question, with a grant, a state or a length as the command line has it.
#[derive(Clone, Copy)]
pub enum Question<'a> {
    Judge(Blocks<'a>, u64),
    Write(Blocks<'a>, u64),
    Follow(Blocks<'a>, &'a [u8]),
    Run(Blocks<'a>, u64),
    // On which start facts the run of a state rests.
    Rest(Blocks<'a>, u64),
    // For a problem: plans of at most so many steps.
    Search(&'a [u8], u64, u64),
}

impl Question<'_> {
    ghost use Rattle.ask.specs.Asked.{Asked};

    // The operation's answer. A list, or the states of a run, stand in the first bytes of the room that is lent.
    pub fn ask(self, room: &mut [u8]) -> Result<Answer, Refusal>
        ensures { Asked self.entry room.old result room.new }
    {
        match self {
            Question::Judge(Blocks { problem, plan }, grant) => {
                Ok(Answer::Judged(judge(problem, plan, grant)?))
            }
            Question::Write(Blocks { problem, plan }, grant) => {
                Ok(Answer::Written(write_list(problem, plan, grant, room)?))
            }
            Question::Follow(Blocks { problem, plan }, list) => {
                Ok(Answer::Followed(follow_list(problem, plan, list)?))
            }
            Question::Run(Blocks { problem, plan }, state) => {
                Ok(Answer::Ran(run(problem, plan, state)?))
            }
            Question::Rest(Blocks { problem, plan }, state) => {
                Ok(Answer::Rests(relevant_facts(problem, plan, state, room)?))
            }
            Question::Search(problem, longest, grant) => {
                Ok(Answer::Searched(search_plans(problem, longest, grant)?))
            }
        }
    }
}
