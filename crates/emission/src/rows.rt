// Rows put at the end of a table of at most 4,096 ([13.5]). Past the last row nothing more is put, and there are too many from then on
// ([10.10]).
ghost use Rattle.std.specs.Prelude.{◌≡◌, false, suc, pos, replicate};
ghost use Rattle.words.specs.Kinds.{word_plus};
ghost use Rattle.meaning.specs.Types.{cells as cells_of};
ghost use Rattle.type_table.specs.Table.{type_at, Sound};
ghost use Rattle.emission.specs.Table.{no_rows, put_row, put_rows, too_many, kinds_put, numbers_put};

use std::marker::Model;
use words::kinds::WORD_PLUS;

// The most rows that a table holds.
pub const MOST_ROWS: usize = 4096;

// The end of a table that was given more.
pub const TOO_MANY_ROWS: usize = 4097;

// The kinds and the numbers of the rows put so far, and where the next row goes: any two arrays and any end. It is 20 KiB: it is made once
// and lent.
#[derive(Drop)]
pub struct Rows {
    pub kinds: [u8; 4096],
    pub numbers: [i32; 4096],
    pub end: usize,
}

impl Model for Rows {
    ghost use Rattle.emission.specs.Table.{Table, table};

    ghost Value = { Table };

    ghost view = { λ rows. table rows.kinds rows.numbers rows.end };
}

impl Rows {
    pub fn new() -> Self
        ensures { result ≡ no_rows }
    {
        Rows {
            kinds: [0; 4096],
            numbers: [0; 4096],
            end: 0,
        }
    }

    pub fn put(&mut self, kind: u8, number: i32)
        ensures { self.new ≡ put_row self.old (kind, number) }
    {
        if self.end < MOST_ROWS {
            self.kinds[self.end] = kind;
            self.numbers[self.end] = number;
            self.end += 1;
        } else if self.end == MOST_ROWS {
            self.end = TOO_MANY_ROWS;
        }
    }

    // A row whose number is a count.
    pub fn put_count(&mut self, kind: u8, count: u16)
        ensures { self.new ≡ put_row self.old (kind, pos count) }
    {
        self.put(kind, count as i32);
    }

    // A row whose number is the cells of the type at a place.
    pub fn put_cells(&mut self, types: &[u64], kind: u8, place: usize)
        requires { Sound types.now (suc place) }
        ensures { self.new ≡ put_row self.old (kind, pos (cells_of (type_at types.now place))) }
    {
        self.put_count(kind, type_table::cells(types, place) as u16);
    }

    // [6.20] As many rows `plus` as are asked for.
    pub fn put_pluses(&mut self, many: usize)
        ensures { self.new ≡ put_rows (replicate many (word_plus, pos 0)) self.old }
    {
        for _ in 0..many {
            self.put_count(WORD_PLUS, 0);
        }
    }

    // [10.10] Whether more were put than there is room for.
    pub fn has_too_many(&self) -> bool
        ensures { result ≡ too_many self.now }
    {
        MOST_ROWS < self.end
    }

    pub fn kinds(&self) -> &[u8]
        requires { too_many self.now ≡ false }
        ensures { result.now ≡ kinds_put self.now }
    {
        &self.kinds[..self.end]
    }

    pub fn numbers(&self) -> &[i32]
        requires { too_many self.now ≡ false }
        ensures { result.now ≡ numbers_put self.now }
    {
        &self.numbers[..self.end]
    }
}
