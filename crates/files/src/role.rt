// What a file is to a command.
ghost use Rattle.std.specs.Prelude.{◌≡◌};

use model::{CaseList, Plan, Problem};

#[derive(Clone, Copy, PartialEq, Eq, Debug)]
pub enum Role {
    Problem,
    Plan,
    List,
    Text,
    Names,
}

impl Role {
    ghost use Rattle.files.specs.Roles.{role_name, most_bytes};

    // What it is called.
    pub fn name(self) -> &'static str
        ensures { result.now ≡ role_name self }
    {
        match self {
            Role::Problem => "problem",
            Role::Plan => "plan",
            Role::List => "list",
            Role::Text => "text",
            Role::Names => "names",
        }
    }

    // How many bytes such a file has at most.
    pub fn most_bytes(self) -> usize
        ensures { result ≡ most_bytes self }
    {
        match self {
            Role::Problem => Problem::MAX_BYTES,
            Role::Plan => Plan::MAX_BYTES,
            Role::List => CaseList::MAX_BYTES,
            // No text that is shown has more, whatever the names (`reply::theorem`).
            Role::Text => 9437184,
            // Each name is compared with those before it, so a list of names may be less long.
            Role::Names => 262144,
        }
    }
}
