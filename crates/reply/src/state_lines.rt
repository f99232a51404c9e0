// The states of a run, from the rows of a work area.
ghost use Rattle.std.specs.Prelude.{◌≡◌, ◌≤◌, ◌*◌, ◌++◌, length, OnOk};
ghost use Rattle.std.specs.String.{string_bytes};
ghost use Rattle.names.specs.Views.{names as names_of};
ghost use Rattle.reply.specs.StateLines.{states_text};

use crate::marks::state_number;
use answers::Facts;
use names::Names;
use std::alloc::AllocError;
use told::StateText;

// Tells of so many states, a line each: a row has a byte for each fact, which is 1 where it is true.
pub fn push_states(
    out: &mut String,
    names: Names,
    facts: Facts,
    rows: &[u8],
    count: usize,
) -> Result<(), AllocError>
    requires { facts.count * count ≤ length rows.now }
    ensures { OnOk result (string_bytes out.new ≡ string_bytes out.old ++ states_text (names_of names.entry) facts.limits facts.count 0 count rows.now) }
{
    let mut left = rows;
    for number in 0..count {
        let (row, rest) = left.split_at(facts.count as usize);
        let state = StateText {
            names,
            facts,
            state: state_number(row, 1, facts.limits.width),
        };
        writeln!(out, "state {number} {state}")?;
        left = rest;
    }
    Ok(())
}
