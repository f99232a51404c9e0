// What a command replies.
ghost use Rattle.std.specs.Prelude.{◌≡◌, ◌≤◌, ◌*◌, ◌++◌, ◌∷◌, [], length, cond, option_map, IfOk, Ok, Some, None};
ghost use Rattle.std.specs.String.{string_bytes};
ghost use Rattle.objects.specs.Json.{json_text as json_of};
ghost use Rattle.reply.specs.Views.{spoken as spoken_of};
ghost use Rattle.reply.specs.Said.{said, Gives, Is};
ghost use Rattle.reply.specs.Replies.{printed_text, text_reply, refused_reply, answered_reply, unspoken_reply, rest_reply, with_file};

use crate::state_lines::push_states;
use crate::telling::{Spoken, Telling, Unspoken};
use crate::unanswered::Unanswered;
use answers::{Answer, Status};
use model::Refusal;
use objects::json::json;
use objects::texts::json_text;
use std::alloc::{AllocError, Global};
use told::{RefusalLine, Told};

// What is printed, the status that the program exits with, the refusal whose words are told too, and the bytes of a file that is written,
// if one is.
#[derive(Drop)]
pub struct Reply {
    pub text: String,
    pub status: Status,
    pub refusal: Option<Refusal>,
    pub file: Option<Vec<u8>>,
}

// An answer, or a refusal, as JSON on a line.
fn json_line(alloc: Global, answer: Result<Answer, Refusal>) -> Result<String, AllocError>
    ensures { IfOk result (λ s. string_bytes s ≡ json_of answer ++ 10 ∷ []) }
{
    let mut line = json(alloc, &answer)?;
    line.push_str("\n")?;
    Ok(line)
}

impl Telling<'_> {
    // A text as it is printed: as it stands, or as JSON on a line.
    #[tactic(auto, unfolding(crate::specs::Replies::printed))]
    fn printed(&self, text: String) -> Result<String, AllocError>
        ensures { IfOk result (λ s. string_bytes s ≡ printed_text self.now.json (string_bytes text)) }
    {
        if !self.json {
            return Ok(text);
        }
        let mut line = json_text(self.alloc, text.as_str())?;
        line.push_str("\n")?;
        Ok(line)
    }

    // The reply that prints a text.
    pub fn tell(&self, text: String, status: Status) -> Result<Reply, AllocError>
        ensures { IfOk result (λ r. said r ≡ text_reply self.now.json (string_bytes text) status) }
    {
        let text = self.printed(text)?;
        Ok(Reply {
            text,
            status,
            refusal: None,
            file: None,
        })
    }

    // What is printed of a refusal.
    #[tactic(auto, unfolding(crate::specs::Replies::printed))]
    fn refusal_text(&self, refusal: Refusal) -> Result<String, AllocError>
        ensures { IfOk result (λ s. string_bytes s ≡ (refused_reply self.now.json refusal).text) }
    {
        if self.json {
            return json_line(self.alloc, Err(refusal));
        }
        let line = RefusalLine(refusal);
        format!(in self.alloc; "{line}")
    }

    // The reply to what is refused.
    pub fn refuse(&self, refusal: Refusal) -> Result<Reply, AllocError>
        ensures { IfOk result (λ r. said r ≡ refused_reply self.now.json refusal) }
    {
        let text = self.refusal_text(refusal)?;
        Ok(Reply {
            text,
            status: Status::of(Err(refusal)),
            refusal: Some(refusal),
            file: None,
        })
    }

    // What is printed of an answer about a problem.
    #[tactic(auto, unfolding(crate::specs::Replies::printed))]
    fn answer_text(&self, spoken: &Spoken, found: &Answer) -> Result<String, AllocError>
        ensures { IfOk result (λ s. string_bytes s ≡ (answered_reply self.now.json (spoken_of spoken.now) (Ok found.now)).text) }
    {
        let answer = Ok(*found);
        if self.json {
            return json_line(self.alloc, answer);
        }
        let told = Told {
            names: spoken.names,
            facts: spoken.facts(),
            answer,
        };
        format!(in self.alloc; "{told}")
    }

    // The reply to what an operation answered.
    pub fn answer(
        &self,
        spoken: &Spoken,
        answer: &Result<Answer, Refusal>,
    ) -> Result<Reply, AllocError>
        ensures { IfOk result (λ r. said r ≡ answered_reply self.now.json (spoken_of spoken.now) answer.now) }
    {
        match answer {
            Ok(found) => {
                let text = self.answer_text(spoken, found)?;
                Ok(Reply {
                    text,
                    status: Status::of(Ok(*found)),
                    refusal: None,
                    file: None,
                })
            }
            Err(refusal) => self.refuse(*refusal),
        }
    }

    // The same, with the bytes of a file, if one is to be written.
    pub fn answer_with(
        &self,
        spoken: &Spoken,
        answer: &Result<Answer, Refusal>,
        file: Option<Vec<u8>>,
    ) -> Result<Reply, AllocError>
        ensures { IfOk result
            (λ r. said r ≡ with_file (option_map (λ f. f.items) file) (answered_reply self.now.json (spoken_of spoken.now) answer.now)) }
    {
        let Reply {
            text,
            status,
            refusal,
            file: _,
        } = self.answer(spoken, answer)?;
        Ok(Reply {
            text,
            status,
            refusal,
            file,
        })
    }

    // The same, where in words the first `count` states of a run follow an answer, which has its rows.
    #[tactic(auto, unfolding(crate::specs::Replies::printed))]
    pub fn answer_rows(
        &self,
        spoken: &Spoken,
        answer: &Result<Answer, Refusal>,
        rows: &[u8],
        count: usize,
    ) -> Result<Reply, AllocError>
        requires { spoken.now.problem.facts * count ≤ length rows.now }
        ensures { IfOk result (λ r. said r ≡ rest_reply self.now.json (spoken_of spoken.now) count rows.now answer.now) }
    {
        let mut reply = self.answer(spoken, answer)?;
        if self.json {
            return Ok(reply);
        }
        match answer {
            Ok(_) => {
                push_states(&mut reply.text, spoken.names, spoken.facts(), rows, count)?;
                Ok(reply)
            }
            Err(_) => Ok(reply),
        }
    }

    // The reply where a problem is not spoken of.
    pub fn unspoken(&self, why: Unspoken) -> Result<Reply, Unanswered>
        ensures { Gives (Is (unspoken_reply self.now.json why)) result }
    {
        match why {
            Unspoken::Refused(refusal) => Ok(self.refuse(refusal)?),
            Unspoken::OtherNames => Err(Unanswered::OtherNames),
        }
    }
}
