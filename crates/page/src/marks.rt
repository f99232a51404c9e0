// The marks of a state or a case, in a line.
ghost use Rattle.std.specs.Prelude.{◌≡◌, ◌≤◌, ◌+◌, ◌++◌};
ghost use Rattle.arrayvec.specs.ArrayString.{array_string_len};
ghost use Rattle.model.specs.DeskText.{marks};

use crate::text::{LINE_ROOM, LineText};
use answers::Marks;
use model::Problem;
use std::str;

// Appends one mark per fact.
pub fn push_marks(text: &mut LineText, of: &Marks)
    requires { array_string_len text.old + Problem.SLOTS ≤ LINE_ROOM }
    ensures bytes { text.new.bytes ≡ text.old.bytes ++ marks of.now.facts.limits.width of.now.facts.count of.now.k of.now.value }
    ensures len { array_string_len text.new ≤ array_string_len text.old + Problem.SLOTS }
{
    let bytes = of.bytes();
    let shown = str::from_utf8(&bytes[..of.facts.count as usize]).unwrap();
    text.push_str(shown);
}
