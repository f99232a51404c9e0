// Writing into a buffer, piece after piece.
ghost use Rattle.std.specs.Prelude.{[], ◌∷◌, ◌≤◌};
ghost use Rattle.model.specs.Read.{bytes_of};
ghost use Rattle.numbers.specs.Writing.{HasRoom, Writes};

use crate::put_number;

// The next byte goes to place `at` of `out`.
#[derive(Drop)]
pub struct Writer<'a> {
    pub out: &'a mut [u8],
    pub at: usize,
}

impl Writer<'_> {
    #[inline(always)]
    pub fn put(&mut self, byte: u8)
        requires { HasRoom self.old (byte ∷ []) }
        ensures { Writes self.old (byte ∷ []) self.new }
    {
        self.out[self.at] = byte;
        self.at += 1;
    }

    // Two bytes, which cost less in a loop than two calls of `put`.
    #[inline(always)]
    pub fn put_pair(&mut self, first: u8, second: u8)
        requires { HasRoom self.old (first ∷ second ∷ []) }
        ensures { Writes self.old (first ∷ second ∷ []) self.new }
    {
        self.out[self.at] = first;
        self.out[self.at + 1] = second;
        self.at += 2;
    }

    // A number in so many bytes, the highest first.
    pub fn put_number(&mut self, number: u64, bytes: usize)
        requires few { bytes ≤ 8 }
        requires room { HasRoom self.old (bytes_of bytes number) }
        ensures { Writes self.old (bytes_of bytes number) self.new }
    {
        let end = self.at + bytes;
        put_number(&mut self.out[self.at..end], number);
        self.at = end;
    }
}
