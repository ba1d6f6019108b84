// The rows of a term, and what its first row says.
ghost use Rattle.std.specs.Prelude.{◌≡◌, ◌≤◌, ◌<◌, length, get_or, pos};
ghost use Rattle.syntax.specs.Ranges.{as_natural};
ghost use Rattle.syntax.proofs.Front.{part};

use clauses::Head;
use syntax::ranges;

// The kinds and the numbers of rows of the plan, and the places of their types: the rows of some term stand in front.
#[derive(Clone, Copy)]
pub struct TermRows<'a> {
    pub kinds: &'a [u8],
    pub numbers: &'a [i32],
    pub column: &'a [u16],
}

impl<'a> TermRows<'a> {
    // The rows from row `at` on.
    pub fn from(self, at: usize) -> TermRows<'a>
        requires { (at ≤ length self.kinds.now) × (at ≤ length self.numbers.now) × (at ≤ length self.column.now) }
        ensures { (result.kinds.now ≡ part at self.entry.kinds.now) × (result.numbers.now ≡ part at self.entry.numbers.now)
            × (result.column.now ≡ part at self.entry.column.now) }
    {
        TermRows {
            kinds: &self.kinds[at..],
            numbers: &self.numbers[at..],
            column: &self.column[at..],
        }
    }

    // The place of the type of the term that begins at row `at`.
    pub fn place_at(self, at: usize) -> usize
        requires { at < length self.column.now }
        ensures { result ≡ get_or self.entry.column.now at 0 }
    {
        self.column[at] as usize
    }

    // What the first row says.
    pub fn head(self) -> Head
        requires { (1 ≤ length self.kinds.now) × (1 ≤ length self.numbers.now) × (1 ≤ length self.column.now) }
        ensures { (result.kind ≡ get_or self.entry.kinds.now 0 0) × (result.number ≡ as_natural (get_or self.entry.numbers.now 0 (pos 0)))
            × (result.place ≡ get_or self.entry.column.now 0 0) }
    {
        Head {
            kind: self.kinds[0],
            number: ranges::natural(self.numbers[0]),
            place: self.place_at(0),
        }
    }
}
