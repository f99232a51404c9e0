// Words of 64 lanes, a bit each, and a table of 256 of them: the two words of the literal with the byte b stand at twice b.
ghost use Rattle.std.specs.Prelude.{◌≡◌, ◌^◌, ◌≤◌, ◌<◌, []};
ghost use Rattle.model.specs.Limits.{max_facts};
ghost use Rattle.model.specs.Planes.{lane_bit, Table};
ghost use Rattle.cases.specs.Words.{Spread, raised, SameCase, SetsLiteral, CopiesFacts};

use crate::value::Value;
use model::Problem;

// Every lane.
pub const ONES: u64 = u64::MAX;

// The lanes of a word.
pub const LANES: usize = 64;

// A fact's denial is the literal so many after it as a table has facts.
const LITERALS: usize = 2 * Problem::SLOTS;

// The words of a table.
pub const TABLE: usize = 2 * LITERALS;

// The bit of a lane.
#[inline(always)]
pub fn lane_bit(word: u64, lane: usize) -> u64
    requires { lane < 64 }
    ensures { result ≡ lane_bit lane word }
{
    (word >> lane) % 2
}

// That bit in every lane.
#[inline(always)]
pub fn spread(word: u64, lane: usize) -> u64
    requires { lane < 64 }
    ensures { Spread word lane result }
{
    if lane_bit(word, lane) == 1 { ONES } else { 0 }
}

// The number of a state or of a case, so many bits wide, as a word: fact 0 comes to its top bit.
#[inline(always)]
pub fn word_of(width: usize, number: u64) -> u64
    requires some { 0 < width }
    requires word { width ≤ 64 }
    requires fits { number < 2 ^ width }
    ensures raised { result ≡ raised width number }
    ensures same { SameCase width number result }
{
    number << (LANES - width)
}

// The literal with the byte b gets a value, and its denial the denied one.
#[inline(always)]
pub fn set_literal(words: &mut [u64; TABLE], b: usize, value: Value)
    requires { b < 128 }
    ensures { SetsLiteral words.old b value.some value.sure words.new }
{
    let denial = (b + Problem::SLOTS) % LITERALS;
    words[2 * b] = value.some;
    words[2 * b + 1] = value.sure;
    words[2 * denial] = ONES ^ value.sure;
    words[2 * denial + 1] = ONES ^ value.some;
}

// The first so many facts, and their denials with them, get the values that they have in another table. Each word is stored by itself: a slice's copy
// may call memmove, which the archive would then need from outside.
#[inline(always)]
pub fn copy_facts(words: &mut [u64; TABLE], from: &[u64; TABLE], facts: usize)
    requires { facts ≤ max_facts }
    ensures { CopiesFacts facts words.old from.now words.new }
{
    for fact in 0..facts {
        let affirmed = 2 * fact;
        words[affirmed] = from[affirmed];
        words[affirmed + 1] = from[affirmed + 1];
        let denied = LITERALS + 2 * fact;
        words[denied] = from[denied];
        words[denied + 1] = from[denied + 1];
    }
}

// Every fact no in every lane, and so every denial yes: what the case reads that has no fact.
#[inline(always)]
pub fn all_no() -> [u64; TABLE]
    ensures { Table result (λ lane. []) }
{
    let mut words = [0u64; TABLE];
    words[LITERALS..].fill(ONES);
    words
}
