// A reader of a case list.
ghost use Rattle.std.specs.Prelude.{◌≡◌, ◌+◌, ◌-◌, ◌*◌, ◌%◌, ◌^◌, ◌<◌, ◌≤◌, length, IfOk};
ghost use Rattle.model.specs.ListBytes.{line_at};
ghost use Rattle.lines.specs.Lines.{line_read, checked};
ghost use Rattle.model.specs.Read.{head_bytes};
ghost use Rattle.model.specs.WellFormed.{Sensible};

use crate::line::Line;
use crate::raw::RawLine;
use model::{Limits, Refusal};

// The line of this number in a list, over so many facts, once its form is checked.
#[inline(always)]
pub fn check_line(list: &[u8], line: usize, facts: u8, limits: &Limits) -> Result<Line, Refusal>
    requires sensible { Sensible limits.now }
    requires inside { head_bytes + limits.now.line * line + limits.now.line ≤ length list.now }
    requires few { facts ≤ limits.now.facts }
    ensures line { line_read result ≡ checked limits.now.width facts line (line_at limits.now list.now (head_bytes + limits.now.line * line)) }
    ensures fits { IfOk result (λ l. l.value < 2 ^ limits.now.width) }
    ensures within { IfOk result (λ l. l.k ≤ facts) }
    ensures begins { IfOk result (λ l. l.value % 2 ^ (limits.now.width - l.k) ≡ 0) }
{
    RawLine::read(list, line, limits).check_form(line, facts, limits)
}

// A place in a list, by the numbers of a version: the number of a line, whether or not the list has one of that number. Whoever reads there says that
// it has; a reader that goes through a list knows it of all lines before its own (`ListReader`).
#[derive(Clone, Copy)]
pub struct ListCursor<'a> {
    pub list: &'a [u8],
    pub line: usize,
    pub limits: Limits,
}

impl<'a> ListCursor<'a> {
    ghost use Rattle.lines.specs.Lines.{raw_line};
    ghost use Rattle.lines.specs.Readers.{CursorStands, line_under};

    // The cursor that stands at line 0.
    #[inline(always)]
    pub fn new(list: &'a [u8], limits: Limits) -> ListCursor<'a>
        ensures list { result.list ≡ list.entry }
        ensures line { result.line ≡ 0 }
        ensures limits { result.limits ≡ limits }
    {
        ListCursor {
            list,
            line: 0,
            limits,
        }
    }

    // The cursor that stands at the line of this number: it can be read there, where the list has it.
    #[inline(always)]
    pub fn at(list: &'a [u8], line: usize, limits: Limits) -> ListCursor<'a>
        ensures list { result.list ≡ list.entry }
        ensures line { result.line ≡ line }
        ensures limits { result.limits ≡ limits }
        ensures stands { head_bytes + limits.line * line + limits.line ≤ length list.now → CursorStands result }
    {
        ListCursor { list, line, limits }
    }

    // It goes on past the line that it stands at.
    #[inline(always)]
    pub fn next_line(self) -> ListCursor<'a>
        requires { self.line + 1 < 2 ^ 64 }
        ensures list { result.list ≡ self.entry.list }
        ensures line { result.line ≡ self.entry.line + 1 }
        ensures limits { result.limits ≡ self.entry.limits }
    {
        ListCursor {
            list: self.list,
            line: self.line + 1,
            limits: self.limits,
        }
    }

    // The line that it stands at, as it stands.
    #[inline(always)]
    pub fn read(&self) -> RawLine
        requires sensible { Sensible self.now.limits }
        requires stands { CursorStands self.now }
        ensures line { raw_line result ≡ line_under self.now }
        ensures fits { result.value < 2 ^ self.now.limits.width }
    {
        RawLine::read(self.list, self.line, &self.limits)
    }

    // The line that it stands at, over so many facts, once `check_line` has checked its form.
    #[inline(always)]
    pub fn check_here(&self, facts: u8) -> Result<Line, Refusal>
        requires sensible { Sensible self.now.limits }
        requires stands { CursorStands self.now }
        requires few { facts ≤ self.now.limits.facts }
        ensures line { line_read result ≡ checked self.now.limits.width facts self.now.line (line_under self.now) }
        ensures fits { IfOk result (λ l. l.value < 2 ^ self.now.limits.width) }
        ensures within { IfOk result (λ l. l.k ≤ facts) }
        ensures begins { IfOk result (λ l. l.value % 2 ^ (self.now.limits.width - l.k) ≡ 0) }
    {
        check_line(self.list, self.line, facts, &self.limits)
    }
}

// A list, by the numbers of a version, and the number of the line that the reader stands at: the lines before it are whole.
#[derive(Clone, Copy)]
pub struct ListReader<'a> {
    pub list: &'a [u8],
    pub line: usize,
    pub limits: Limits,
    pub ghost sensible: { Sensible limits },
    pub ghost inside: { head_bytes + limits.line * line ≤ length list.now },
}

impl<'a> ListReader<'a> {
    ghost use Rattle.lines.specs.Lines.{raw_line};
    ghost use Rattle.lines.specs.Readers.{LineStands, line_here, cursor_of};

    // The reader that stands where the cursor does.
    #[inline(always)]
    fn of(cursor: ListCursor<'a>) -> ListReader<'a>
        requires sensible { Sensible cursor.limits }
        requires inside { head_bytes + cursor.limits.line * cursor.line ≤ length cursor.list.now }
        ensures list { result.list ≡ cursor.entry.list }
        ensures line { result.line ≡ cursor.entry.line }
        ensures limits { result.limits ≡ cursor.entry.limits }
    {
        ListReader {
            list: cursor.list,
            line: cursor.line,
            limits: cursor.limits,
        }
    }

    // The place at which it stands.
    #[inline(always)]
    pub fn cursor(&self) -> ListCursor<'a>
        ensures { result ≡ cursor_of self.now }
    {
        ListCursor {
            list: self.list,
            line: self.line,
            limits: self.limits,
        }
    }

    // The reader that stands at line 0, whether or not the list has one.
    #[inline(always)]
    pub fn new(list: &'a [u8], limits: Limits) -> ListReader<'a>
        requires sensible { Sensible limits }
        requires headed { head_bytes ≤ length list.now }
        ensures list { result.list ≡ list.entry }
        ensures line { result.line ≡ 0 }
        ensures limits { result.limits ≡ limits }
    {
        ListReader::of(ListCursor::new(list, limits))
    }

    // The reader that stands at a line of the list.
    #[inline(always)]
    pub fn at(list: &'a [u8], line: usize, limits: Limits) -> ListReader<'a>
        requires sensible { Sensible limits }
        requires inside { head_bytes + limits.line * line + limits.line ≤ length list.now }
        ensures list { result.list ≡ list.entry }
        ensures line { result.line ≡ line }
        ensures limits { result.limits ≡ limits }
        ensures stands { LineStands result }
    {
        ListReader::of(ListCursor::at(list, line, limits))
    }

    // It goes on past the line that it stands at.
    #[inline(always)]
    pub fn next_line(self) -> ListReader<'a>
        requires { LineStands self }
        ensures list { result.list ≡ self.entry.list }
        ensures line { result.line ≡ self.entry.line + 1 }
        ensures limits { result.limits ≡ self.entry.limits }
    {
        ListReader::of(self.cursor().next_line())
    }

    // The line that it stands at, as it stands.
    #[inline(always)]
    pub fn read(&self) -> RawLine
        requires { LineStands self.now }
        ensures line { raw_line result ≡ line_here self.now }
        ensures fits { result.value < 2 ^ self.now.limits.width }
    {
        self.cursor().read()
    }

    // The line that it stands at, over so many facts, once `check_line` has checked its form.
    #[inline(always)]
    pub fn check_here(&self, facts: u8) -> Result<Line, Refusal>
        requires stands { LineStands self.now }
        requires few { facts ≤ self.now.limits.facts }
        ensures line { line_read result ≡ checked self.now.limits.width facts self.now.line (line_here self.now) }
        ensures fits { IfOk result (λ l. l.value < 2 ^ self.now.limits.width) }
        ensures within { IfOk result (λ l. l.k ≤ facts) }
        ensures begins { IfOk result (λ l. l.value % 2 ^ (self.now.limits.width - l.k) ≡ 0) }
    {
        self.cursor().check_here(facts)
    }
}

#[cfg(test)]
mod tests {
    use super::*;
    use model::Fault;

    // Two lines of version 1: that the upper half of all states carries, and that a quarter of them has no start state.
    const LIST: [u8; 21] = [
        1, 0, 0, 0, 21, 1, 1, 128, 0, 0, 0, 0, 0, 0, 2, 64, 0, 0, 0, 0, 0,
    ];

    #[test]
    fn a_reader_goes_from_line_to_line(rt: HostRuntime) {
        let first = ListReader::new(&LIST, Limits::version1());
        assert_eq!(rt; first.line, 0);
        assert_eq!(rt; first.read().kind, 1);
        assert_eq!(rt; first.read().value, 0x8000_0000_0000);
        let second = first.next_line();
        assert_eq!(rt; second.line, 1);
        assert_eq!(rt; second.read().kind, 0);
        assert_eq!(rt; second.read().value, 0x4000_0000_0000);
    }

    #[test]
    fn a_reader_checks_the_line_at_which_it_stands(rt: HostRuntime) {
        let second = ListReader::at(&LIST, 1, Limits::version1());
        assert_eq!(rt; second.read().k, 2);
        assert!(rt; second.check_here(2).is_ok());
        let refused = second.check_here(1).err();
        assert_eq!(rt; refused, Some(Fault::LineFacts.at(1)));
    }

    #[test]
    fn a_cursor_stands_anywhere(rt: HostRuntime) {
        let past = ListCursor::at(&LIST, 7, Limits::version1()).next_line();
        assert_eq!(rt; past.line, 8);
        let second = ListReader::at(&LIST, 1, Limits::version1()).cursor();
        assert_eq!(rt; second.line, 1);
        assert_eq!(rt; second.list.len(), 21);
    }
}
