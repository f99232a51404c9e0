// A line of a case list whose form is right.
ghost use Rattle.std.specs.Prelude.{◌≡◌, ◌<◌, ◌≤◌, length};
ghost use Rattle.model.specs.WellFormed.{Sensible};

use model::{Kind, Limits};
use numbers::put_number;

// What it claims of its case, how many facts the case fixes, and the number at which it begins.
#[derive(Clone, Copy)]
pub struct Line {
    pub kind: Kind,
    pub k: u8,
    pub value: u64,
}

impl Line {
    ghost use Rattle.lines.specs.Lines.{line_of};
    ghost use Rattle.lines.specs.Putting.{filled, AddsLine};

    // Puts its bytes into the buffer from `at` on, and answers the position after them. Where they have no room, nothing is written, and the
    // position stays.
    pub fn put(self, out: &mut [u8], at: usize, limits: &Limits) -> usize
        requires { Sensible limits.now }
        ensures { AddsLine limits.now out.old at (line_of self) result out.new }
    {
        let room = out.len();
        if room < limits.line || room - limits.line < at {
            return at;
        }
        let end = at + limits.line;
        self.fill(&mut out[at..end]);
        end
    }

    // Kind, k, and the value's bytes, the highest first: they are all of `line`.
    #[inline(always)]
    fn fill(self, line: &mut [u8])
        requires least { 2 < length line.old }
        requires most { length line.old ≤ 10 }
        ensures { line.new ≡ filled (length line.old) (line_of self) }
    {
        line[0] = u8::from(self.kind);
        line[1] = self.k;
        put_number(&mut line[2..], self.value);
    }
}
