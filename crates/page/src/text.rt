// The text of a line, which lies in the value itself: what has room there is written whole, and no writer can fail.
use arrayvec::ArrayString;

// Any line of any version has room here: a state of 64 facts takes 6 + 64 bytes, and the longest of what follows it 87.
pub const LINE_ROOM: usize = 180;

// The text of a line, or of a part of one.
pub type LineText = ArrayString<LINE_ROOM>;
