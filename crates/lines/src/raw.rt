// A line of a case list as its bytes have it, and the check of its form.
ghost use Rattle.std.specs.Prelude.{◌≡◌, ◌≤◌, IfOk};
ghost use Rattle.model.specs.WellFormed.{Sensible};

use crate::line::Line;
use model::{Fault, Kind, Limits, Refusal};
use numbers::{low_bits, read_number};

// Its kind, how many facts it fixes, and its value number, whatever they are.
#[derive(Clone, Copy)]
pub struct RawLine {
    pub kind: u8,
    pub k: u8,
    pub value: u64,
}

impl RawLine {
    ghost use Rattle.std.specs.Prelude.{◌+◌, ◌-◌, ◌*◌, ◌%◌, ◌^◌, ◌<◌, length};
    ghost use Rattle.model.specs.Read.{head_bytes};
    ghost use Rattle.model.specs.ListBytes.{line_at};
    ghost use Rattle.lines.specs.Lines.{raw_line, line_read, checked};

    // The line of this number in a list.
    #[inline(always)]
    pub(crate) fn read(list: &[u8], number: usize, limits: &Limits) -> RawLine
        requires sensible { Sensible limits.now }
        requires inside { head_bytes + limits.now.line * number + limits.now.line ≤ length list.now }
        ensures line { raw_line result ≡ line_at limits.now list.now (head_bytes + limits.now.line * number) }
        ensures fits { result.value < 2 ^ limits.now.width }
    {
        let begin = Limits::HEAD_BYTES + limits.line * number;
        RawLine {
            kind: list[begin],
            k: list[begin + 1],
            value: read_number(&list[begin + 2..begin + limits.line]),
        }
    }

    // The line numbered `number`, over so many facts: refused if its kind is none, if it fixes more facts than there are, or if its value has
    // a bit past those that it fixes.
    #[inline(always)]
    pub fn check_form(self, number: usize, facts: u8, limits: &Limits) -> Result<Line, Refusal>
        requires sensible { Sensible limits.now }
        requires few { facts ≤ limits.now.facts }
        ensures line { line_read result ≡ checked limits.now.width facts number (raw_line self) }
        ensures value { IfOk result (λ l. l.value ≡ self.value) }
        ensures within { IfOk result (λ l. l.k ≤ facts) }
        ensures begins { IfOk result (λ l. l.value % 2 ^ (limits.now.width - l.k) ≡ 0) }
    {
        let place = number as u64;
        let Ok(kind) = Kind::try_from(self.kind) else {
            return Err(Fault::LineKind.at(place));
        };
        if facts < self.k {
            return Err(Fault::LineFacts.at(place));
        }
        let past = limits.width as usize - self.k as usize;
        if low_bits(self.value, past) != 0 {
            return Err(Fault::LineValue.at(place));
        }
        Ok(Line {
            kind,
            k: self.k,
            value: self.value,
        })
    }
}
