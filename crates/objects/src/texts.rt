// A text, and the length of a block that was made, as a JSON object.
ghost use Rattle.std.specs.Prelude.{◌≡◌, string_bytes, IfOk};
ghost use Rattle.objects.specs.Json.{made_json};
ghost use Rattle.objects.specs.Text.{text_json};

use crate::members::Member::{Number, Word};
use crate::members::write_object;
use std::alloc::{AllocError, Global};

// A text as a JSON object.
pub fn json_text(alloc: Global, text: &str) -> Result<String, AllocError>
    ensures { IfOk result (λ s. string_bytes s ≡ text_json text.now) }
{
    write_object(alloc, &[Word("text", text)])
}

// That a problem was made, with the length of its block.
pub fn json_made(alloc: Global, length: u64) -> Result<String, AllocError>
    ensures { IfOk result (λ s. string_bytes s ≡ made_json length) }
{
    write_object(alloc, &[Word("answer", "made"), Number("length", length)])
}
