// The five bytes before every block's body, and counts of one byte.
ghost use Rattle.std.specs.Prelude.{◌≡◌, ◌+◌, ◌*◌, ◌≤◌, length};
ghost use Rattle.model.specs.Faults.{block_number, fault_number};
ghost use Rattle.model.specs.Read.{head_bytes, of_version, header};
ghost use Rattle.model.specs.ListBytes.{of_the_problem};
ghost use Rattle.model.specs.WellFormed.{Sensible};
ghost use Rattle.formula.specs.Readings.{position_read};
ghost use Rattle.fields.specs.Counts.{Counts};
ghost use Rattle.fields.specs.Headers.{RoomFor, length_read};

use model::{Block, Fault, HeaderFault, Limits, Refusal};
use numbers::read_number;

// A block of at most `most` bytes, with room for a header.
fn check_room(s: &[u8], block: Block, most: usize) -> Result<(), Refusal>
    ensures { RoomFor s.now (block_number block) most result }
{
    let len = s.len();
    if most < len {
        return Err(Fault::Header(block, HeaderFault::TooLong).at_byte(most));
    }
    if len < Limits::HEAD_BYTES {
        return Err(Fault::Header(block, HeaderFault::TooShort).at_byte(len));
    }
    Ok(())
}

// The length field of a block that has room for a header: the position of its body.
fn check_length(s: &[u8], block: Block) -> Result<usize, Refusal>
    requires { head_bytes ≤ length s.now }
    ensures { position_read result ≡ length_read s.now (block_number block) }
{
    let stated = read_number(&s[1..Limits::HEAD_BYTES]);
    if stated != (s.len() - Limits::HEAD_BYTES) as u64 {
        return Err(Fault::Header(block, HeaderFault::Length).at_byte(1));
    }
    Ok(Limits::HEAD_BYTES)
}

// Reads the header of a block of at most `most` bytes, of this version: the position of its body.
pub fn check_header(s: &[u8], block: Block, most: usize, version: u8) -> Result<usize, Refusal>
    ensures { let number = block_number block in position_read result ≡ header s.now number most (of_version s.now version (number + 2)) 0 }
{
    check_room(s, block, most)?;
    if s[0] != version {
        return Err(Fault::Header(block, HeaderFault::Version).at_byte(0));
    }
    check_length(s, block)
}

// Reads the header of a list beside a problem of this version: the position of its body.
pub fn check_list_header(s: &[u8], limits: Limits) -> Result<usize, Refusal>
    requires { Sensible limits }
    ensures { position_read result ≡ header s.now 60 (head_bytes + limits.line * limits.lines) (of_the_problem limits s.now) 0 }
{
    let most = Limits::HEAD_BYTES + limits.line * limits.lines;
    check_room(s, Block::List, most)?;
    if !Limits::is_version(s[0]) {
        return Err(Fault::Header(Block::List, HeaderFault::Version).at_byte(0));
    }
    if s[0] != limits.version {
        return Err(Fault::OtherVersion.at_byte(0));
    }
    check_length(s, Block::List)
}

// The count at `at`, from `low` to `high`; any other is this fault.
pub fn count_at(s: &[u8], at: usize, fault: Fault, low: u8, high: u8) -> Result<u8, Refusal>
    ensures { Counts s.now (fault_number fault) low high at result }
{
    if s.len() <= at {
        return Err(Fault::BlockEnds.at_byte(s.len()));
    }
    let n = s[at];
    if n < low || high < n {
        return Err(fault.at_byte(at));
    }
    Ok(n)
}
