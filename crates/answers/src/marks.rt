// The marks of a value, one per fact.
ghost use Rattle.std.specs.Prelude.{◌≡◌, ◌≤◌, ◌<◌, take, Some};
ghost use Rattle.model.specs.WellFormed.{Sensible};
ghost use Rattle.model.specs.DeskText.{mark, marks};

use model::{Limits, Problem};
use std::{fmt, str};

// Over how many facts an answer is, and by which version's numbers.
#[derive(Clone, Copy)]
pub struct Facts {
    pub limits: Limits,
    pub count: u8,
    pub ghost sensible: { Sensible limits },
    pub ghost few: { count ≤ limits.facts },
}

// A state, whose facts are all known, or a case, which fixes the first k.
#[derive(Clone, Copy)]
pub struct Marks {
    pub facts: Facts,
    pub k: u8,
    pub value: u64,
}

impl Marks {
    // A fact's mark: its bit of the value, or ? past k.
    fn mark(&self, fact: u8) -> u8
        requires { fact < self.now.facts.limits.width }
        ensures { result ≡ mark self.now.facts.limits.width self.now.k self.now.value fact }
    {
        if self.k <= fact {
            return b'?';
        }
        let bit = (self.value >> (self.facts.limits.width - 1 - fact)) % 2;
        if bit == 1 { b'1' } else { b'0' }
    }

    // One mark per fact, and then bytes that are none.
    pub fn bytes(&self) -> [u8; Problem::SLOTS]
        ensures { take self.now.facts.count result ≡ marks self.now.facts.limits.width self.now.facts.count self.now.k self.now.value }
    {
        let mut bytes = [b'?'; Problem::SLOTS];
        for fact in 0..self.facts.count {
            bytes[fact as usize] = self.mark(fact);
        }
        bytes
    }
}

impl fmt::Display for Marks {
    ghost output = { λ m. Some (marks m.facts.limits.width m.facts.count m.k m.value) };

    fn fmt<W: fmt::Write>(&self, f: &mut fmt::Formatter<W>) -> fmt::Result {
        let bytes = self.bytes();
        let text = str::from_utf8(&bytes[..self.facts.count as usize]).unwrap();
        f.write_str(text)
    }
}
