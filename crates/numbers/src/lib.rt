// Numbers in bytes, the highest first, and the numbers of a case.
#![tactic(auto)]

pub mod writer;

ghost use Rattle.std.specs.Prelude.{◌≡◌, ◌+◌, ◌-◌, ◌%◌, ◌^◌, ◌≤◌, ◌<◌, length};
ghost use Rattle.model.specs.Read.{big_endian, bytes_of};

pub use writer::Writer;

// The number that these bytes make.
pub fn read_number(bytes: &[u8]) -> u64
    requires { length bytes.now ≤ 8 }
    ensures value { result ≡ big_endian bytes.now }
    ensures small { result < 256 ^ length bytes.now }
{
    let mut x: u64 = 0;
    for b in bytes {
        x = x * 256 + *b as u64;
    }
    x
}

// Fills `out` with the lowest bytes of x.
pub fn put_number(out: &mut [u8], x: u64)
    requires { length out.old ≤ 8 }
    ensures { out.new ≡ bytes_of (length out.old) x }
{
    let mut rest = x;
    for i in (0..out.len()).rev() {
        out[i] = (rest % 256) as u8;
        rest = rest / 256;
    }
}

// The n lowest bits of x.
pub fn low_bits(x: u64, n: usize) -> u64
    requires { n ≤ 64 }
    ensures { result ≡ x % 2 ^ n }
{
    if n == 64 {
        return x;
    }
    x % (1u64 << n)
}

// The numbers of so many bits that share their first k bits.
pub fn span(width: usize, k: usize) -> u64
    requires within { k ≤ width }
    requires word { width < 64 + k }
    ensures { result ≡ 2 ^ (width - k) }
{
    1u64 << (width - k)
}
