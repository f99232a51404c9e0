// What is wrong with what was asked: one name for each kind of refusal.
ghost use Rattle.std.specs.Prelude.{◌≡◌};
ghost use Rattle.model.specs.Faults.{block_number, header_number, fault_number, refusal_at};

use crate::Refusal;

// The blocks that a call is given.
#[derive(Clone, Copy, PartialEq, Eq, Debug)]
pub enum Block {
    Problem,
    Plan,
    List,
}

impl Block {
    // The first of the four numbers of the faults in its header.
    #[inline(always)]
    pub fn number(self) -> u8
        ensures { result ≡ block_number self }
    {
        match self {
            Block::Problem => 10,
            Block::Plan => 30,
            Block::List => 60,
        }
    }
}

// What is wrong with a block's header, or with its length.
#[derive(Clone, Copy, PartialEq, Eq, Debug)]
pub enum HeaderFault {
    TooLong,
    TooShort,
    Version,
    Length,
}

impl HeaderFault {
    // How far its number lies past the first of its block.
    #[inline(always)]
    pub fn number(self) -> u8
        ensures { result ≡ header_number self }
    {
        match self {
            HeaderFault::TooLong => 0,
            HeaderFault::TooShort => 1,
            HeaderFault::Version => 2,
            HeaderFault::Length => 3,
        }
    }
}

// Why a call is refused.
#[derive(Clone, Copy, PartialEq, Eq, Debug)]
pub enum Fault {
    Header(Block, HeaderFault),
    // Of a problem: the block ends inside a field or a formula.
    BlockEnds,
    FactCount,
    ActionCount,
    FormulaLength,
    // A byte that begins no formula where it stands.
    Member,
    // A group in more groups than are allowed.
    Depth,
    // A formula's stated bytes end inside it.
    FormulaEnds,
    // A formula's stated bytes do not end with it.
    FormulaLeft,
    EffectCount,
    // An effect's literal is not of a declared fact.
    EffectLiteral,
    // An effect's literal does not come after the one before.
    EffectOrder,
    // Bytes follow the last action.
    BytesLeft,
    // Of a plan: a step names no action.
    StepAction,
    // Of a run: a start state with a bit past the declared facts.
    StateNumber,
    // The relevant facts were asked of a run that does not reach the goal.
    RunNotReached,
    // The work area cannot hold the states of the run.
    ShortWork,
    // Of a search: the longest length is more than a search allows.
    PlanLength,
    TooManyPlans,
    // Of writing a list: the grant does not cover the walk.
    Undecided,
    // The plan is wrong.
    Wrong,
    TooManyLines,
    ShortBuffer,
    // Of a list: the last line is not whole.
    PartialLine,
    LineKind,
    // A line fixes more facts than are declared.
    LineFacts,
    // A line's value has a bit set past the facts that it fixes.
    LineValue,
    // A line does not begin where the one before it ends.
    LinePlace,
    // What a line claims is not so.
    LineClaim,
    // The last line does not end at the last state.
    ListEnds,
    // Of a list's header: its version is not the problem's.
    OtherVersion,
    // Of a merge: both problems have more facts than a problem may.
    MergedFacts,
    MergedActions,
    // The initial formula or the goal of both is over its limit of bytes, members or depth.
    MergedFormula,
    MergedBytes,
    // The buffer for the merged problem or for the table cannot hold it.
    MergeRoom,
}

impl Fault {
    // The number that callers are told.
    #[inline(always)]
    pub fn number(self) -> u8
        ensures { result ≡ fault_number self }
    {
        match self {
            Fault::Header(block, fault) => block.number() + fault.number(),
            Fault::BlockEnds => 14,
            Fault::FactCount => 15,
            Fault::ActionCount => 16,
            Fault::FormulaLength => 17,
            Fault::Member => 18,
            Fault::Depth => 19,
            Fault::FormulaEnds => 20,
            Fault::FormulaLeft => 21,
            Fault::EffectCount => 22,
            Fault::EffectLiteral => 23,
            Fault::EffectOrder => 24,
            Fault::BytesLeft => 25,
            Fault::StepAction => 34,
            Fault::StateNumber => 40,
            Fault::RunNotReached => 41,
            Fault::ShortWork => 42,
            Fault::PlanLength => 43,
            Fault::TooManyPlans => 44,
            Fault::Undecided => 50,
            Fault::Wrong => 51,
            Fault::TooManyLines => 52,
            Fault::ShortBuffer => 53,
            Fault::PartialLine => 64,
            Fault::LineKind => 65,
            Fault::LineFacts => 66,
            Fault::LineValue => 67,
            Fault::LinePlace => 68,
            Fault::LineClaim => 69,
            Fault::ListEnds => 70,
            Fault::OtherVersion => 71,
            Fault::MergedFacts => 82,
            Fault::MergedActions => 83,
            Fault::MergedFormula => 84,
            Fault::MergedBytes => 85,
            Fault::MergeRoom => 86,
        }
    }

    // The refusal of this fault at a place.
    #[inline(always)]
    pub fn at(self, place: u64) -> Refusal
        ensures { result ≡ refusal_at self place }
    {
        Refusal { place, fault: self }
    }

    // The refusal of this fault at a byte of a block.
    #[inline(always)]
    pub fn at_byte(self, place: usize) -> Refusal
        ensures { result ≡ refusal_at self place }
    {
        self.at(place as u64)
    }
}
