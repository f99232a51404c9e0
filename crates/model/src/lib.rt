// What the checker reads and what it answers: the declared types with their limits, and no code that reads a byte.
// What they mean is in specs/: begin at specs/Lib.antt.
#![tactic(auto)]

ghost use Rattle.std.specs.Prelude.{◌≡◌};
ghost use Rattle.model.specs.Limits.{version1, version2, is_version, limits_of};

pub mod fault;
pub mod marks;
pub mod short_plan;
pub mod theorems;

pub use fault::{Block, Fault, HeaderFault};
pub use marks::{Group, Kind, UnknownMark};
pub use short_plan::ShortPlan;

// A problem block's limits.
#[derive(Clone, Copy)]
pub struct Problem;

impl Problem {
    pub const MAX_BYTES: usize = 32768;

    pub const MAX_FACTS_V1: u8 = 48;

    pub const MAX_FACTS_V2: u8 = 64;

    pub const MAX_ACTIONS: usize = 64;

    pub const MAX_EFFECTS_V1: u8 = 96;

    pub const MAX_EFFECTS_V2: u8 = 128;

    // Bytes before the initial formula: the header, and the counts of facts and of actions.
    pub const BEGIN: usize = Limits::HEAD_BYTES + 2;
    // Bytes of a formula's length field.
    pub const LENGTH_BYTES: usize = 2;

    pub const MAX_FORMULA_BYTES: usize = 1024;

    pub const MAX_MEMBERS: usize = 255;

    pub const MAX_DEPTH: u8 = 8;
    // Values that the code holds: a denial's byte is its fact's and 64 more, so no version has more facts.
    pub const SLOTS: usize = Problem::MAX_FACTS_V2 as usize;
}

// A plan block's limits: its steps stand from byte 5 on, one byte each.
#[derive(Clone, Copy)]
pub struct Plan;

impl Plan {
    pub const MAX_STEPS: usize = 256;

    pub const MAX_BYTES: usize = Limits::HEAD_BYTES + Plan::MAX_STEPS;
}

// A list block's limits: its lines stand from byte 5 on.
#[derive(Clone, Copy)]
pub struct CaseList;

impl CaseList {
    pub const MAX_LINES_V1: usize = 8191;

    pub const MAX_LINES_V2: usize = 6553;

    pub const LINE_BYTES_V1: usize = 8;

    pub const LINE_BYTES_V2: usize = 10;
    // Of either version: the more bytes are those of version 2.
    pub const MAX_BYTES: usize = Limits::HEAD_BYTES
        + CaseList::LINE_BYTES_V2 * CaseList::MAX_LINES_V2;
    // A state's number, and a line's value, in bits.
    pub const WIDTH_V1: u8 = 48;

    pub const WIDTH_V2: u8 = 64;
    // The numbers that all lines of version 1 cover together. Those of version 2 are one more than a word holds.
    pub const NUMBERS_V1: u64 = 1u64 << CaseList::WIDTH_V1;
}

// The numbers that one version of the formats has and another may not. The definitions take them as a parameter.
#[derive(Clone, Copy)]
pub struct Limits {
    pub version: u8,
    // bits of a state
    pub width: u8,
    pub facts: u8,
    pub effects: u8,
    // bytes of a line
    pub line: usize,
    pub lines: usize,
}

impl Limits {
    // Bytes before a block's body: its version and its length.
    pub const HEAD_BYTES: usize = 5;
    // The version of every plan.
    pub const PLAN_VERSION: u8 = 1;

    // The numbers of the definitions are the declared ones.
    pub fn version1() -> Limits
        ensures { result ≡ version1 }
    {
        Limits {
            version: 1,
            width: CaseList::WIDTH_V1,
            facts: Problem::MAX_FACTS_V1,
            effects: Problem::MAX_EFFECTS_V1,
            line: CaseList::LINE_BYTES_V1,
            lines: CaseList::MAX_LINES_V1,
        }
    }

    pub fn version2() -> Limits
        ensures { result ≡ version2 }
    {
        Limits {
            version: 2,
            width: CaseList::WIDTH_V2,
            facts: Problem::MAX_FACTS_V2,
            effects: Problem::MAX_EFFECTS_V2,
            line: CaseList::LINE_BYTES_V2,
            lines: CaseList::MAX_LINES_V2,
        }
    }

    // Those of the version that a problem's block begins with; of version 1 where it begins with none, so that reading refuses it.
    #[inline(always)]
    pub fn of(problem: &[u8]) -> Limits
        ensures { result ≡ limits_of problem.now }
    {
        match problem {
            [2, ..] => Limits::version2(),
            _ => Limits::version1(),
        }
    }

    // Whether problems and lists have such a version.
    #[inline(always)]
    pub fn is_version(byte: u8) -> bool
        ensures { result ≡ is_version byte }
    {
        byte == 1 || byte == 2
    }
}

// What is wrong and where. The place is first, so that it lies where a reading that goes on has its position, and neither is moved.
#[derive(Clone, Copy, PartialEq, Eq, Debug)]
pub struct Refusal {
    pub place: u64,
    pub fault: Fault,
}

// What keeps a step from being applicable: the first member of its precondition, from 0, that is false, or the lowest fact that it would
// set and clear at once.
#[derive(Clone, Copy)]
pub enum Part {
    Member(usize),
    Fact(usize),
}

// Where a run is blocked: the first step that is not applicable, from 0, and which part of it.
#[derive(Clone, Copy)]
pub struct Stop {
    pub step: usize,
    pub part: Part,
}

// How a run ends.
#[derive(Clone, Copy)]
pub enum Outcome {
    Reached,
    Missed,
    Blocked(Stop),
}

// How many facts and actions a problem has.
#[derive(Clone, Copy)]
pub struct Counts {
    pub facts: u8,
    pub actions: u8,
}

// How many bytes a merge wrote: of the merged problem's block, and of the table of its actions' new numbers.
#[derive(Clone, Copy)]
pub struct Lengths {
    pub block: usize,
    pub table: usize,
}

// What the judge says of a plan.
#[derive(Clone, Copy)]
pub enum Verdict {
    Right {
        lines: u64,
        visits: u64,
    },
    Wrong {
        state: u64,
        outcome: Outcome,
        visits: u64,
    },
    Undecided {
        visits: u64,
    },
}

// How a search ends: with the first right plan, or with the first whose walk needs more than the visits left, and the visits used in all.
#[derive(Clone, Copy)]
pub enum Search {
    Found { plan: ShortPlan, visits: u64 },
    NoneRight { visits: u64 },
    Undecided { plan: ShortPlan, visits: u64 },
}
