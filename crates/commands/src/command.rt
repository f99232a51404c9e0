// What the command line asks for.
ghost use Rattle.std.specs.Prelude.{ℕ, ◌≡◌, None, IfSome, option_map};
ghost use Rattle.clap.specs.Matches.{found_of};
ghost use Rattle.clap.specs.Walk.{rows_of};
ghost use Rattle.commands.specs.Asked.{text, Counts};

use clap::ArgMatches;

// The text that was found under a word.
fn text<'a>(matches: &ArgMatches<'a>, word: &str) -> Option<&'a str>
    ensures { option_map (λ s. s.now) result ≡ text (rows_of (found_of matches.now)) word.now }
{
    matches.get_str(word)
}

// The number that was found under a word.
fn number(matches: &ArgMatches, word: &str) -> Option<u64>
    ensures some { IfSome result (Counts (rows_of (found_of matches.now)) word.now) }
    ensures none { result ≡ None → (n : ℕ) → Counts (rows_of (found_of matches.now)) word.now n → ⊥ }
{
    matches.get_one::<u64>(word)
}

// The paths of a problem and of a plan.
#[derive(Clone, Copy)]
pub struct TaskPaths<'a> {
    pub problem: &'a str,
    pub plan: &'a str,
}

// A command, with the paths of its files, and a state as the command line has it, by its marks.
#[derive(Clone, Copy)]
pub enum Command<'a> {
    Judge {
        task: TaskPaths<'a>,
        grant: u64,
    },
    Write {
        task: TaskPaths<'a>,
        list: &'a str,
        grant: u64,
    },
    Follow {
        task: TaskPaths<'a>,
        list: &'a str,
    },
    Run {
        task: TaskPaths<'a>,
        state: &'a str,
    },
    Facts {
        task: TaskPaths<'a>,
        state: &'a str,
    },
    Search {
        problem: &'a str,
        longest: u64,
        grant: u64,
        plan: Option<&'a str>,
    },
    Explain {
        task: TaskPaths<'a>,
        grant: u64,
    },
    Show {
        problem: &'a str,
        plan: Option<&'a str>,
    },
    Make {
        text: &'a str,
        problem: &'a str,
        plan: Option<&'a str>,
    },
}

// A command, the path of the names that its answer is told in, and whether it is told as JSON.
#[derive(Clone, Copy)]
pub struct Request<'a> {
    pub command: Command<'a>,
    pub names: Option<&'a str>,
    pub json: bool,
}

impl<'a> Request<'a> {
    ghost use Rattle.commands.specs.Asked.{Requests};

    // The request that the grammar found on the command line; nothing where it would let one out.
    pub fn of(matches: &ArgMatches<'a>) -> Option<Request<'a>>
        ensures some { IfSome result (Requests matches.now) }
        ensures none { result ≡ None → (request : Request) → Requests matches.now request → ⊥ }
    {
        let (name, inner) = matches.subcommand()?;
        Some(Request {
            command: Command::of(name, inner)?,
            names: text(inner, "names"),
            json: inner.get_flag("json"),
        })
    }
}

impl<'a> TaskPaths<'a> {
    ghost use Rattle.commands.specs.Asked.{OfTask};

    fn of(matches: &ArgMatches<'a>) -> Option<TaskPaths<'a>>
        ensures some { IfSome result (OfTask (rows_of (found_of matches.now))) }
        ensures none { result ≡ None → (task : TaskPaths) → OfTask (rows_of (found_of matches.now)) task → ⊥ }
    {
        Some(TaskPaths {
            problem: text(matches, "problem")?,
            plan: text(matches, "plan")?,
        })
    }
}

impl<'a> Command<'a> {
    ghost use Rattle.std.specs.Prelude.{codes};
    ghost use Rattle.commands.specs.Asked.{Asks, OfTask};

    // The command of this name; nothing where the grammar would let an argument out that it needs.
    fn of(name: &str, matches: &ArgMatches<'a>) -> Option<Command<'a>>
        ensures some { IfSome result (Asks (rows_of (found_of matches.now)) name.now) }
        ensures none { result ≡ None → (c : Command) → Asks (rows_of (found_of matches.now)) name.now c → ⊥ }
    {
        match name {
            "search" => Command::search(matches),
            "show" => Some(Command::Show {
                problem: text(matches, "problem")?,
                plan: text(matches, "plan"),
            }),
            "make" => Some(Command::Make {
                text: text(matches, "text")?,
                problem: text(matches, "output")?,
                plan: text(matches, "plan"),
            }),
            _ => Command::of_task(name, TaskPaths::of(matches)?, matches),
        }
    }

    fn search(matches: &ArgMatches<'a>) -> Option<Command<'a>>
        ensures some { IfSome result (Asks (rows_of (found_of matches.now)) (codes "search")) }
        ensures none { result ≡ None → (c : Command) → Asks (rows_of (found_of matches.now)) (codes "search") c → ⊥ }
    {
        Some(Command::Search {
            problem: text(matches, "problem")?,
            longest: number(matches, "longest")?,
            grant: number(matches, "grant")?,
            plan: text(matches, "output"),
        })
    }

    // A command on a plan for a problem.
    fn of_task(name: &str, task: TaskPaths<'a>, matches: &ArgMatches<'a>) -> Option<Command<'a>>
        requires task { OfTask (rows_of (found_of matches.now)) task }
        requires search { name.now ≡ codes "search" → ⊥ }
        requires show { name.now ≡ codes "show" → ⊥ }
        requires make { name.now ≡ codes "make" → ⊥ }
        ensures some { IfSome result (Asks (rows_of (found_of matches.now)) name.now) }
        ensures none { result ≡ None → (c : Command) → Asks (rows_of (found_of matches.now)) name.now c → ⊥ }
    {
        match name {
            "judge" => Some(Command::Judge {
                task,
                grant: number(matches, "grant")?,
            }),
            "write" => Some(Command::Write {
                task,
                list: text(matches, "output")?,
                grant: number(matches, "grant")?,
            }),
            "explain" => Some(Command::Explain {
                task,
                grant: number(matches, "grant")?,
            }),
            "follow" => Some(Command::Follow {
                task,
                list: text(matches, "list")?,
            }),
            "run" => Some(Command::Run {
                task,
                state: text(matches, "state")?,
            }),
            "facts" => Some(Command::Facts {
                task,
                state: text(matches, "state")?,
            }),
            _ => None,
        }
    }
}
