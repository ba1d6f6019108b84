// Questions 7 and 8 on one row whose operands have types, and the names in force in its operands: [10.7] and [10.8].
#![tactic(auto)]

pub mod rules;
pub mod scope;
mod series;

ghost use Rattle.std.specs.Prelude.{◌≡◌};

// The place of the type that was found, the rows that were passed and the types that the table has.
#[derive(Clone, Copy, Debug, PartialEq, Eq)]
pub struct Typed {
    pub place: usize,
    pub rows: usize,
    pub len: usize,
}

// A row whose operands have types: the types that the table has, the rows that its term takes, and its first row's line.
#[derive(Clone, Copy, Debug, PartialEq, Eq)]
pub struct Row {
    pub len: usize,
    pub rows: usize,
    pub line: usize,
}

impl Row {
    // What was found, where its type is one that the table has.
    fn typed(self, place: usize) -> Typed
        ensures { result ≡ record { place = place; rows = self.rows; len = self.len } }
    {
        Typed {
            place,
            rows: self.rows,
            len: self.len,
        }
    }
}
