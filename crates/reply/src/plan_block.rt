// The block of a plan.
ghost use Rattle.std.specs.Prelude.{◌≡◌, IfOk};
ghost use Rattle.model.specs.ProblemBytes.{encode_plan};

use model::Limits;
use numbers::put_number;
use std::alloc::{AllocError, Global};

// The block of a plan with these steps.
pub fn plan_block(alloc: Global, steps: &[u8]) -> Result<Vec<u8>, AllocError>
    ensures { IfOk result (λ block. block.items ≡ encode_plan steps.now) }
{
    let mut length = [0; Limits::HEAD_BYTES - 1];
    put_number(&mut length, steps.len() as u64);
    let mut block = Vec::new(alloc);
    block.push(Limits::PLAN_VERSION)?;
    block.extend_from_slice(&length)?;
    block.extend_from_slice(steps)?;
    Ok(block)
}
