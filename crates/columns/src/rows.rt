// A table's rows, and where what stands at each of them ends.
ghost use Rattle.std.specs.Prelude.{◌≡◌, ◌+◌, ◌≤◌, ◌<◌, pos, length, get_or};
ghost use Rattle.syntax.specs.Ranges.{as_natural};
ghost use Rattle.columns.specs.Ends.{Ends};

use crate::entries::{number_at, row_at};

#[derive(Clone, Copy)]
pub struct Rows<'a> {
    pub kinds: &'a [u8],
    pub numbers: &'a [i32],
    pub ends: &'a [u16],
    ghost ended: { Ends kinds.now ends.now },
}

impl Rows<'_> {
    pub fn number(self, q: usize) -> usize
        ensures { (result ≡ as_natural (get_or self.entry.numbers.now q (pos 0))) × (result ≤ 2147483648) }
    {
        number_at(self.numbers, q)
    }

    // The row of the second operand: the one behind the first.
    pub fn second(self, q: usize) -> usize
        requires { q < length self.kinds.now }
        ensures { result ≡ get_or self.entry.ends.now (q + 1) 0 }
    {
        row_at(self.ends, q + 1)
    }
}
