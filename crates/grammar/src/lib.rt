// The words of the command line, and the help on them, made from one table.
#![tactic(auto)]

use clap::{Arg, ArgAction, Command, value_parser};
use std::alloc::{AllocError, Global};

// The visits that are granted where no grant is asked for.
const GRANT: &str = "1000000";

// How a word is found on the command line.
#[derive(Clone, Copy)]
enum Kind {
    // By its place.
    Needed,
    NeededNumber,
    Optional,
    // By its name.
    Flag,
    Text,
    Output,
    NeededOutput,
    Grant,
}

// A word of a command.
#[derive(Clone, Copy)]
struct Word {
    id: &'static str,
    value: &'static str,
    help: &'static str,
    kind: Kind,
}

// A command, with its words in order.
#[derive(Clone, Copy)]
struct Row {
    name: &'static str,
    about: &'static str,
    statuses: &'static str,
    words: &'static [Word],
}

const JSON: Word = Word {
    id: "json",
    value: "",
    help: "Answers with a JSON object on one line",
    kind: Kind::Flag,
};

const NAMES: Word = Word {
    id: "names",
    value: "FILE",
    help: "Speaks of facts and actions by the names in FILE, with a line `fact NAME` or `action NAME` for each",
    kind: Kind::Text,
};

const PROBLEM: Word = Word {
    id: "problem",
    value: "PROBLEM",
    help: "The problem's block",
    kind: Kind::Needed,
};

const PLAN: Word = Word {
    id: "plan",
    value: "PLAN",
    help: "The plan's block",
    kind: Kind::Needed,
};

const SHOWN_PLAN: Word = Word {
    id: "plan",
    value: "PLAN",
    help: "The plan's block",
    kind: Kind::Optional,
};

const STATE: Word = Word {
    id: "state",
    value: "STATE",
    help: "A mark for each fact, 0 or 1, as in 010",
    kind: Kind::Needed,
};

const VISITS: Word = Word {
    id: "grant",
    value: "N",
    help: "How many cases may be visited",
    kind: Kind::Grant,
};

const LIST: Word = Word {
    id: "list",
    value: "LIST",
    help: "The list's block",
    kind: Kind::Needed,
};

const LONGEST: Word = Word {
    id: "longest",
    value: "LONGEST",
    help: "The most steps of a plan, up to 4",
    kind: Kind::NeededNumber,
};

const LIST_MADE: Word = Word {
    id: "output",
    value: "LIST",
    help: "The file for the list",
    kind: Kind::NeededOutput,
};

const PLAN_FOUND: Word = Word {
    id: "output",
    value: "PLAN",
    help: "A file for the plan that is found",
    kind: Kind::Output,
};

const TEXT: Word = Word {
    id: "text",
    value: "TEXT",
    help: "The text, as `show` prints it",
    kind: Kind::Needed,
};

const PROBLEM_MADE: Word = Word {
    id: "output",
    value: "PROBLEM",
    help: "The file for the problem's block",
    kind: Kind::NeededOutput,
};

const PLAN_MADE: Word = Word {
    id: "plan",
    value: "PLAN",
    help: "A file for the plan's block, where the text has a plan",
    kind: Kind::Text,
};

static ROWS: [Row; 9] = [
    Row {
        name: "judge",
        about: "Prints whether a plan is right, wrong, with a start state whose run fails, or undecided",
        statuses: "Exit status: 0 right, 1 wrong, 2 undecided within the grant; 3 a block is malformed, 4 a file cannot be read or the answer not written, 64 the command line is wrong.",
        words: &[JSON, NAMES, PROBLEM, PLAN, VISITS],
    },
    Row {
        name: "write",
        about: "Writes the case list of a right plan, which shows that it is right, and prints how many bytes it has",
        statuses: "Exit status: 0 written, 1 the plan is wrong, 2 undecided within the grant; 3 a block is malformed, 4 a file cannot be read or written, 64 the command line is wrong. Where nothing is written, the file that stood in its place stays.",
        words: &[JSON, NAMES, PROBLEM, PLAN, LIST_MADE, VISITS],
    },
    Row {
        name: "follow",
        about: "Prints whether a case list shows that a plan is right, or which line does not hold",
        statuses: "Exit status: 0 it passes, 1 a line or its end does not hold; 3 a block is malformed, 4 a file cannot be read or the answer not written, 64 the command line is wrong.",
        words: &[JSON, NAMES, PROBLEM, PLAN, LIST],
    },
    Row {
        name: "run",
        about: "Prints how a plan's run from one state ends: the goal is reached or missed, or a step is blocked",
        statuses: "Exit status: 0 reached, 1 missed or blocked; 3 a block is malformed, 4 a file cannot be read or the answer not written, 64 the command line is wrong.",
        words: &[JSON, NAMES, PROBLEM, PLAN, STATE],
    },
    Row {
        name: "facts",
        about: "Prints the start facts on which a run that reaches the goal rests, and then the states of the run",
        statuses: "Exit status: 0 the run reaches the goal, 1 it does not; 3 a block is malformed, 4 a file cannot be read or the answer not written, 64 the command line is wrong.",
        words: &[JSON, NAMES, PROBLEM, PLAN, STATE],
    },
    Row {
        name: "search",
        about: "Prints the first right plan up to a length, that there is none, or the first that stays undecided",
        statuses: "Exit status: 0 found, 1 none, 2 undecided within the grant; 3 the problem is malformed, 4 a file cannot be read or written, 64 the command line is wrong, or there are too many plans of that length.",
        words: &[JSON, NAMES, PROBLEM, LONGEST, VISITS, PLAN_FOUND],
    },
    Row {
        name: "explain",
        about: "Prints how a wrong plan fails: a start state, the facts that each step changes, and why the run ends where it does",
        statuses: "Exit status: 0 the plan is right, 1 it is wrong, 2 undecided within the grant; 3 a block is malformed, 4 a file cannot be read or the answer not written, 64 the command line is wrong.",
        words: &[JSON, NAMES, PROBLEM, PLAN, VISITS],
    },
    Row {
        name: "show",
        about: "Prints a problem, and a plan for it, as a text that can be read and changed, and made into blocks again",
        statuses: "Exit status: 0 shown; 3 a block is malformed, 4 a file cannot be read or the text not written, 64 the command line is wrong.",
        words: &[JSON, NAMES, PROBLEM, SHOWN_PLAN],
    },
    Row {
        name: "make",
        about: "Makes the block of a problem, and of a plan for it, from a text, and prints how many bytes the problem has",
        statuses: "Exit status: 0 made; 3 the text is malformed, 4 a file cannot be read or written, 64 the command line is wrong.",
        words: &[JSON, TEXT, PROBLEM_MADE, PLAN_MADE],
    },
];

impl Word {
    // What clap reads of the word.
    fn argument<'a>(self, alloc: Global) -> Arg<'a> {
        let word = Arg::new(alloc, self.id).help(self.help);
        match self.kind {
            Kind::Needed => word.value_name(self.value).required(true),
            Kind::NeededNumber => word
                .value_name(self.value)
                .required(true)
                .value_parser(value_parser!(u64)),
            Kind::Optional => word.value_name(self.value),
            Kind::Flag => word.long(self.id).action(ArgAction::SetTrue),
            Kind::Text => word.value_name(self.value).long(self.id),
            Kind::Output => word.value_name(self.value).long(self.id).short('o'),
            Kind::NeededOutput => word
                .value_name(self.value)
                .long(self.id)
                .short('o')
                .required(true),
            Kind::Grant => word
                .value_name(self.value)
                .long(self.id)
                .value_parser(value_parser!(u64))
                .default_value(GRANT),
        }
    }
}

impl Row {
    fn command<'a>(&self, alloc: Global) -> Result<Command<'a>, AllocError> {
        let mut command = Command::new(alloc, self.name)
            .about(self.about)
            .after_help(self.statuses);
        for word in self.words {
            command = command.arg(word.argument(alloc))?;
        }
        Ok(command)
    }
}

// The program, without its commands.
fn program<'a>(alloc: Global) -> Result<Command<'a>, AllocError> {
    Command::new(alloc, "larkhammock")
        .version("0.1.0")
        .about(
            "Checks plans for planning problems whose start is not known: a plan is right if it reaches the goal from every start state",
        )
        .after_help(
            "With no command, as in `larkhammock PROBLEM PLAN`, the plan is judged and its case list is printed.",
        )
        .subcommand_required(true)
        .bin_name("larkhammock")
}

// With the commands of these rows.
fn with_rows<'a>(
    mut whole: Command<'a>,
    alloc: Global,
    rows: &[Row],
) -> Result<Command<'a>, AllocError> {
    for row in rows {
        whole = whole.subcommand(row.command(alloc)?)?;
    }
    Ok(whole)
}

// The whole program's.
pub fn command_line<'a>(alloc: Global) -> Result<Command<'a>, AllocError> {
    with_rows(program(alloc)?, alloc, &ROWS)
}
