// Merging two halls.
ghost use Rattle.std.specs.Prelude.{◌≤◌};
ghost use Rattle.model.specs.Calls.{MergeCall};
ghost use Rattle.model.specs.Answers.{plain_answer};
ghost use Rattle.model.specs.Merging.{new_numbers};
ghost use Rattle.merge.specs.Promise.{MergePromised};
ghost use Rattle.numbers.specs.Writing.{HasRoom, Writes};

use crate::halls::Halls;
use blocks::Problem;
use model::{Fault, Lengths, Refusal};
use numbers::Writer;

// The new number of each of so many actions is its place among them.
fn put_table(writer: &mut Writer, count: usize)
    requires few { count ≤ 64 }
    requires room { HasRoom writer.old (new_numbers count) }
    ensures { Writes writer.old (new_numbers count) writer.new }
{
    for number in 0..count {
        writer.put(number as u8);
    }
}

// Merge two halls into one problem of version 2: the refusals of the first problem and of the second; 82 to 84 for more facts, actions or formula
// bytes, members or groups in one another than a problem may have, 85 for a longer block, and 86 for a short buffer, at 0; or the lengths of the
// block in `out`, and of the table of the actions' new numbers.
pub fn merge(
    first: &[u8],
    second: &[u8],
    out: &mut [u8],
    table: &mut [u8],
) -> Result<Lengths, Refusal>
    ensures merged { MergeCall first.now second.now out.old table.old result out.new table.new }
    ensures promised { MergePromised first.now second.now out.old table.old (plain_answer result) out.new table.new }
{
    let first = Problem::read(first)?;
    let second = Problem::read(second)?;
    let halls = Halls {
        first: &first,
        second: &second,
    };
    halls.check()?;
    let lengths = Lengths {
        block: halls.len(),
        table: halls.actions() as usize,
    };
    if out.len() < lengths.block || table.len() < lengths.table {
        return Err(Fault::MergeRoom.at(0));
    }
    halls.put(&mut Writer { out, at: 0 });
    put_table(&mut Writer { out: table, at: 0 }, lengths.table);
    Ok(lengths)
}
