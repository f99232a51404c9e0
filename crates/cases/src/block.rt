// The lanes of a block.
ghost use Rattle.std.specs.Prelude.{ℕ, ◌≡◌, ◌<◌};
ghost use Rattle.cases.specs.Blocks.{max_levels, level_value};
ghost use Rattle.cases.specs.Cases.{value_at};

use crate::value::Value;

// The most levels of a block: its lanes are then all used, but for lane 0.
pub const LEVELS: usize = 5;

// In heap order lane 1 is the block's case, and lane i has the parts 2i (the next fact no) and 2i + 1 (yes): where the fact of each level
// is not no, and where it is yes.
const SOME: [u64; LEVELS] = [
    0xffff_0000_ff00_f0cb,
    0xff00_ff00_f0f0_ccaf,
    0xf0f0_f0f0_cccc_aaff,
    0xcccc_cccc_aaaa_ffff,
    0xaaaa_aaaa_ffff_ffff,
];

const SURE: [u64; LEVELS] = [
    0xffff_0000_ff00_f0c8,
    0xff00_ff00_f0f0_cca0,
    0xf0f0_f0f0_cccc_aa00,
    0xcccc_cccc_aaaa_0000,
    0xaaaa_aaaa_0000_0000,
];

// The value that the fact of this level has in each lane.
#[inline(always)]
pub fn value_of_level(level: usize) -> Value
    requires { level < max_levels }
    ensures { (j : ℕ) → j < 64 → value_at result j ≡ level_value level j }
{
    Value {
        some: SOME[level],
        sure: SURE[level],
    }
}
