// Lines that are kept in a buffer, one after another, where it has room.
ghost use Rattle.walk.specs.Pages.{PutsLines, puts_none, puts_more};

use crate::case::Lines;
use lines::Line;
use model::Limits;

#[derive(Drop)]
pub struct Page<'a> {
    pub out: &'a mut [u8],
    pub at: usize,
}

impl Lines for Page<'_> {
    ghost gives = { PutsLines };

    fn put(&mut self, limits: &Limits, line: Line) {
        self.at = line.put(self.out, self.at, limits);
    }

    ghost none = { puts_none };

    ghost more = { puts_more };
}
