// What is told of each fault: one row for each, so that a new fault is told of before the crate compiles.
ghost use Rattle.std.specs.Prelude.{◌≡◌};
ghost use Rattle.answers.specs.Rows.{row, malformed, placeless, untrue, block_name, header_words, fault_row};

use crate::status::Status;
use model::{Block, Fault, HeaderFault};

// What the place of a refusal counts.
#[derive(Clone, Copy)]
pub enum Unit {
    // What is refused has no place.
    Nothing,
    // The bytes of the block.
    Byte,
    // The lines of the list.
    Line,
    // The lines of the list, which end here.
    End,
}

#[derive(Clone, Copy)]
pub struct FaultRow {
    // What the fault is of.
    pub subject: &'static str,
    pub unit: Unit,
    // What is wrong.
    pub words: &'static str,
    // The status that the program exits with.
    pub status: Status,
}

fn block_name(block: Block) -> &'static str
    ensures { result.now ≡ block_name block }
{
    match block {
        Block::Problem => "problem",
        Block::Plan => "plan",
        Block::List => "list",
    }
}

// What is wrong with the header of a block, or with its length.
fn header_words(fault: HeaderFault) -> &'static str
    ensures { result.now ≡ header_words fault }
{
    match fault {
        HeaderFault::TooLong => "it is longer than such a block may be",
        HeaderFault::TooShort => "it has no whole header",
        HeaderFault::Version => "it is of no known version",
        HeaderFault::Length => "its header states another length",
    }
}

// At a byte a block is malformed.
fn malformed(subject: &'static str, words: &'static str) -> FaultRow
    ensures { row result ≡ malformed subject.now words.now }
{
    FaultRow {
        subject,
        unit: Unit::Byte,
        words,
        status: Status::Malformed,
    }
}

// What was asked for, or what came of it, has no place.
fn placeless(subject: &'static str, words: &'static str, status: Status) -> FaultRow
    ensures { row result ≡ placeless subject.now words.now status }
{
    FaultRow {
        subject,
        unit: Unit::Nothing,
        words,
        status,
    }
}

// A list does not hold at a line, or at the end of its lines.
fn untrue(unit: Unit, words: &'static str) -> FaultRow
    ensures { row result ≡ untrue unit words.now }
{
    FaultRow {
        subject: "list",
        unit,
        words,
        status: Status::No,
    }
}

impl FaultRow {
    // What is told of a fault.
    #[tactic(auto, unfolding(crate::specs::Rows::fault_row))]
    pub fn of(fault: Fault) -> FaultRow
        ensures { row result ≡ fault_row fault }
    {
        match fault {
            Fault::Header(block, fault) => malformed(block_name(block), header_words(fault)),
            Fault::BlockEnds => malformed("problem", "it ends too early"),
            Fault::FactCount => malformed("problem", "it has too few or too many facts"),
            Fault::ActionCount => malformed("problem", "it has too many actions"),
            Fault::FormulaLength => malformed("problem", "a formula is empty or too long"),
            Fault::Member => malformed(
                "problem",
                "no literal of a declared fact, and no group that may stand here",
            ),
            Fault::Depth => malformed("problem", "groups stand too deep in one another"),
            Fault::FormulaEnds => malformed("problem", "a formula ends too early"),
            Fault::FormulaLeft => malformed("problem", "a formula has bytes left over"),
            Fault::EffectCount => malformed("problem", "an action has too many effects"),
            Fault::EffectLiteral => malformed("problem", "an effect is of no declared fact"),
            Fault::EffectOrder => malformed("problem", "an effect is out of order"),
            Fault::BytesLeft => malformed("problem", "bytes follow the last action"),
            Fault::StepAction => malformed("plan", "a step names no action"),
            Fault::StateNumber => placeless(
                "state",
                "it sets a fact that is not declared",
                Status::Usage,
            ),
            Fault::RunNotReached => placeless("run", "it does not reach the goal", Status::No),
            Fault::ShortWork => placeless(
                "run",
                "there is no room for its states",
                Status::Malformed,
            ),
            Fault::PlanLength => placeless(
                "search",
                "plans of so many steps are not searched",
                Status::Usage,
            ),
            Fault::TooManyPlans => placeless(
                "search",
                "there are too many plans to try",
                Status::Usage,
            ),
            Fault::Undecided => placeless(
                "list",
                "the grant does not suffice to judge the plan",
                Status::Undecided,
            ),
            Fault::Wrong => placeless("list", "the plan is wrong", Status::No),
            Fault::TooManyLines => placeless(
                "list",
                "it would have more lines than a list may have",
                Status::Unwritten,
            ),
            Fault::ShortBuffer => placeless("list", "there is no room for it", Status::Unwritten),
            Fault::PartialLine => malformed("list", "its last line is not whole"),
            Fault::LineKind => untrue(Unit::Line, "it is of no known kind"),
            Fault::LineFacts => untrue(Unit::Line, "it fixes facts that are not declared"),
            Fault::LineValue => untrue(Unit::Line, "it sets a fact that it does not fix"),
            Fault::LinePlace => untrue(Unit::Line, "it does not begin where the line before ended"),
            Fault::LineClaim => untrue(Unit::Line, "its claim is not so"),
            Fault::ListEnds => untrue(Unit::End, "the lines do not cover every state"),
            Fault::OtherVersion => malformed("list", "its version is not that of the problem"),
            Fault::MergedFacts => placeless(
                "merged problem",
                "it has more facts than a problem may have",
                Status::Malformed,
            ),
            Fault::MergedActions => placeless(
                "merged problem",
                "it has more actions than a problem may have",
                Status::Malformed,
            ),
            Fault::MergedFormula => placeless(
                "merged problem",
                "it has a formula that no problem may have",
                Status::Malformed,
            ),
            Fault::MergedBytes => placeless(
                "merged problem",
                "it has more bytes than a problem may have",
                Status::Malformed,
            ),
            Fault::MergeRoom => placeless(
                "merged problem",
                "there is no room for it, or for its table",
                Status::Unwritten,
            ),
        }
    }
}
