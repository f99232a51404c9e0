// Reading a plan block.
ghost use Rattle.std.specs.Prelude.{◌≡◌, ◌-◌, ◌≤◌, length};
ghost use Rattle.model.specs.ProblemBytes as bytes;
ghost use Rattle.formula.specs.Readings.{forgotten, position_read};

use fields::check_header;
use model::{Block, Fault, Limits, Plan, Refusal};

// The steps from `at` to the end of the block: that end.
fn check_steps(s: &[u8], at: usize, actions: u8) -> Result<usize, Refusal>
    requires { at ≤ length s.now }
    ensures { position_read result ≡ forgotten (bytes.steps s.now actions (length s.now - at) at) }
{
    for place in at..s.len() {
        if actions <= s[place] {
            return Err(Fault::StepAction.at_byte(place));
        }
    }
    Ok(s.len())
}

// A plan for so many actions: the block's end.
pub fn check_plan(s: &[u8], actions: u8) -> Result<usize, Refusal>
    ensures { position_read result ≡ forgotten (bytes.plan s.now actions 0) }
{
    let at = check_header(s, Block::Plan, Plan::MAX_BYTES, Limits::PLAN_VERSION)?;
    check_steps(s, at, actions)
}
