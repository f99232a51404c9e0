// The text of a list: its lines, or that they are too many.
ghost use Rattle.std.specs.Prelude.{◌≡◌, ◌+◌, ◌*◌, ◌≤◌, ◌<◌, length, Some};
ghost use Rattle.arrayvec.specs.ArrayString.{array_string_len};
ghost use Rattle.model.specs.Read.{head_bytes};
ghost use Rattle.model.specs.DeskText.{kind_text, line_text, lines_text, too_long};
ghost use Rattle.model.specs.ListBytes.{line_at, lines_from};
ghost use Rattle.lines.specs.Lines.{raw_line};

use crate::marks::push_marks;
use crate::text::{LINE_ROOM, LineText};
use answers::{Facts, Marks};
use lines::{ListReader, RawLine};
use std::fmt;

// What a line claims of its case.
fn kind_of(kind: u8) -> &'static str
    ensures text { result.now ≡ kind_text kind }
    ensures short { length result.now ≤ 8 }
{
    if kind == 0 {
        return "no-start";
    }
    "carries"
}

// A line: its kind, and one mark per fact.
#[derive(Clone, Copy)]
pub struct ListLine {
    pub facts: Facts,
    pub line: RawLine,
}

impl ListLine {
    // The line, whole: no call of it can fail.
    pub fn text(&self) -> LineText
        ensures bytes { result.bytes ≡ line_text self.now.facts.limits self.now.facts.count (raw_line self.now.line) }
        ensures len { array_string_len result ≤ LINE_ROOM }
    {
        let marks = Marks {
            facts: self.facts,
            k: self.line.k,
            value: self.line.value,
        };
        let mut text = LineText::new();
        text.push_str(kind_of(self.line.kind));
        text.push_str(" ");
        push_marks(&mut text, &marks);
        text.push_str("\n");
        text
    }
}

impl fmt::Display for ListLine {
    ghost output = { λ l. Some (line_text l.facts.limits l.facts.count (raw_line l.line)) };

    fn fmt<W: fmt::Write>(&self, f: &mut fmt::Formatter<W>) -> fmt::Result {
        f.write_str(self.text().as_str())
    }
}

// In place of a list that is too long.
#[derive(Clone, Copy)]
pub struct TooLong;

impl TooLong {
    // The line.
    pub fn text(&self) -> &'static str
        ensures bytes { result.now ≡ too_long }
        ensures len { length result.now ≤ LINE_ROOM }
    {
        "list too long\n"
    }
}

impl fmt::Display for TooLong {
    ghost output = { λ _. Some too_long };

    fn fmt<W: fmt::Write>(&self, f: &mut fmt::Formatter<W>) -> fmt::Result {
        f.write_str(self.text())
    }
}

// The first so many lines of a list block.
#[derive(Clone, Copy)]
pub struct ListLines<'a> {
    pub facts: Facts,
    pub list: &'a [u8],
    pub count: usize,
    pub ghost inside: { head_bytes + facts.limits.line * count ≤ length list.now },
}

impl ListLines<'_> {
    // The line of this number.
    pub fn line(&self, number: usize) -> ListLine
        requires { number < self.now.count }
        ensures facts { result.facts ≡ self.now.facts }
        ensures line { raw_line result.line ≡ line_at self.now.facts.limits self.now.list.now (head_bytes + self.now.facts.limits.line * number) }
    {
        let reader = ListReader::at(self.list, number, self.facts.limits);
        ListLine {
            facts: self.facts,
            line: reader.read(),
        }
    }
}

impl fmt::Display for ListLines<'_> {
    ghost output = { λ l. Some (lines_text l.facts.limits l.facts.count (lines_from l.facts.limits l.list.now l.count head_bytes)) };

    fn fmt<W: fmt::Write>(&self, f: &mut fmt::Formatter<W>) -> fmt::Result {
        for number in 0..self.count {
            write!(f, "{}", self.line(number))?;
        }
        Ok(())
    }
}
