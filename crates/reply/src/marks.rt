// States as a command line and a work area have them.
ghost use Rattle.std.specs.Prelude.{◌≡◌, ◌≤◌, ◌<◌, ◌^◌, length, map, eqb};
ghost use Rattle.model.specs.Relevance.{number_of};
ghost use Rattle.reply.specs.StateMarks.{is_mark, are_marks, marked_state};

use answers::Facts;

fn is_mark(byte: u8) -> bool
    ensures { result ≡ is_mark byte }
{
    byte == b'0' || byte == b'1'
}

// Whether there is one for each fact.
fn are_enough(marks: &[u8], facts: u8) -> bool
    ensures { result ≡ eqb (length marks.now) facts }
{
    marks.len() == facts as usize
}

// Whether each is a 0 or a 1.
fn are_marks(marks: &[u8]) -> bool
    ensures { result ≡ are_marks marks.now }
{
    marks.iter().all(|mark| is_mark(*mark))
}

// The number, so many bits wide, of the state whose facts are true where the bytes are `one`.
pub fn state_number(bytes: &[u8], one: u8, width: u8) -> u64
    requires few { length bytes.now ≤ width }
    requires word { width ≤ 64 }
    ensures number { result ≡ number_of width (map (eqb one) bytes.now) }
    ensures small { result < 2 ^ width }
{
    let Some((byte, rest)) = bytes.split_first() else {
        return 0;
    };
    let below = state_number(rest, one, width - 1);
    if *byte == one {
        return (1u64 << (width - 1)) + below;
    }
    below
}

// The number of the state that has these marks, one for each fact; nothing where they are others, or not as many.
pub fn marked_state(marks: &[u8], facts: Facts) -> Option<u64>
    ensures { result ≡ marked_state facts.limits.width facts.count marks.now }
{
    if !are_enough(marks, facts.count) || !are_marks(marks) {
        return None;
    }
    Some(state_number(marks, b'1', facts.limits.width))
}
