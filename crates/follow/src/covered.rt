// How much of all states the lines of a list cover.
ghost use Rattle.std.specs.Prelude.{◌≡◌, ◌+◌, ◌-◌, ◌%◌, ◌^◌, ◌<◌, ◌≤◌, ◌↔◌, IsTrue};

use lines::Line;
use std::marker::Model;

// What the lines so far cover: every state number from the lowest on, up to where they end together. Of numbers of 64 bits the end of all of
// them comes round to 0, which is also where nothing ends: the flag tells the one from the other.
#[derive(Clone, Copy)]
pub struct Covered {
    end: u64,
    full: bool,
}

impl Model for Covered {
    ghost use Rattle.std.specs.Prelude.{ℕ};
    ghost use Rattle.follow.specs.Covered.{covered_to, RoundAtZero, is_full, round_end, full_back, end_back};

    // How many numbers are covered.
    ghost Value = { ℕ };

    ghost view = { λ c. covered_to c.full c.end };

    ghost invariant = { λ c. RoundAtZero c.full c.end };

    ghost inverse = { λ n. record { end = round_end n; full = is_full n } };

    ghost inverse_ok = { λ c h i. record { end = end_back c.full c.end h i; full = full_back c.full c.end h i } };
}

// How many numbers a case with so many open facts covers, as a sum that comes round takes it: all those of 64 bits bring it back to where it was.
fn round_span(free: u8) -> u64
    requires { free ≤ 64 }
    ensures { result ≡ 2 ^ free % 2 ^ 64 }
{
    if free == 64 { 0 } else { 1u64 << free }
}

impl Covered {
    // What no line covers.
    pub fn nothing() -> Covered
        ensures { result ≡ 0 }
    {
        Covered {
            end: 0,
            full: false,
        }
    }

    // How many numbers it is, at most 2^64.
    pub fn number(self) -> u128
        ensures { result ≡ self }
    {
        if self.full { 1 << 64 } else { self.end as u128 }
    }

    // Whether it ends at this number, so that a line that begins there covers what comes next.
    #[inline(always)]
    pub fn ends_at(self, number: u64) -> bool
        ensures { IsTrue result ↔ (self ≡ number) }
    {
        !self.full && self.end == number
    }

    // It with the case of a line that begins where it ends.
    #[inline(always)]
    pub fn with(self, line: Line, width: u8) -> Covered
        requires word { width ≤ 64 }
        requires ends { self ≡ line.value }
        requires value { line.value < 2 ^ width }
        requires begins { line.value % 2 ^ (width - line.k) ≡ 0 }
        requires within { line.k ≤ width }
        ensures { result ≡ self + 2 ^ (width - line.k) }
    {
        let end = self.end.wrapping_add(round_span(width - line.k));
        Covered {
            end,
            full: end == 0,
        }
    }

    // Whether it is every number of that many bits.
    pub fn is_whole(self, width: u8) -> bool
        requires { width ≤ 64 }
        ensures { IsTrue result ↔ (self ≡ 2 ^ width) }
    {
        if width == 64 {
            self.full
        } else {
            self.ends_at(1u64 << width)
        }
    }
}
