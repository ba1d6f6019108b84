// The words of plans and loops: the built-in table, other tables of the same form, and the search for a word in one: [2.1] to [2.3], [1.3], [17.1].
#![tactic(auto)]

pub mod groups;
pub mod kinds;

ghost use Rattle.std.specs.Prelude.{◌≡◌, ◌-◌, ◌≤◌, ◌<◌, length, get_or};
ghost use Rattle.words.specs.Kinds.{rows_of};
ghost use Rattle.words.specs.Packed.{packed_table};
ghost use Rattle.words.specs.Promises.{LooksUp};
ghost use Rattle.words.specs.Tables.{letters_by, row_in, word_in, words_in};
ghost use Rattle.words.specs.Words.{words, word_at, same_letters, look_up, column_of, operands_of};

use crate::kinds::WORD_COUNT;

// [2.1] The sorts of rows, in the order of the table's columns.
#[derive(Clone, Copy, Debug, PartialEq, Eq)]
pub enum Sort {
    Plan,
    DataType,
    Term,
    Loops,
    Cells,
    Command,
    Place,
    Value,
    Offset,
}

// What a search down a table answers: where the word stands, if it is listed, and how many rows were compared with it.
#[derive(Clone, Copy, Debug, PartialEq, Eq)]
pub struct Search {
    pub found: Option<usize>,
    pub compared: usize,
}

// [2.2] A row for each word: its letters, how many they are, and its operands as a row of each sort, '-' where it makes none: plan,
// type, term, loops, cells, command, place, value, offset. [2.3] The operands of `plan` and `loops` stand behind the inputs that their
// number counts. Of a table of own words the letters count alone: operands are asked of the built-in one ([16.3]).
pub type Table = [[u8; 19]; WORD_COUNT];

const WORDS: Table = [
    *b"plan    4 1--------",
    *b"num     3 -0-------",
    *b"arr     3 -1-------",
    *b"two     3 -2-------",
    *b"in      2 --0----1-",
    *b"var     3 --0------",
    *b"lit     3 --0----00",
    *b"neg     3 --1----1-",
    *b"add     3 --2----2-",
    *b"sub     3 --2----2-",
    *b"mul     3 --2----2-",
    *b"div     3 --2----2-",
    *b"min     3 --2----2-",
    *b"max     3 --2----2-",
    *b"mappar  6 --2------",
    *b"mapseq  6 --2------",
    *b"redseq  6 --3------",
    *b"zip     3 --2------",
    *b"pair    4 --2------",
    *b"split   5 --1------",
    *b"join    4 --1------",
    *b"fst     3 --1------",
    *b"snd     3 --1------",
    *b"idx     3 --1------",
    *b"loops   5 ---2-----",
    *b"cells   5 ----0----",
    *b"set     3 -----2---",
    *b"seq     3 -----2---",
    *b"for     3 -----1---",
    *b"par     3 -----1---",
    *b"new     3 -----1---",
    *b"out     3 ------1--",
    *b"loc     3 ------11-",
    *b"ctr     3 --------0",
    *b"plus    4 --------2",
    *b"times   5 --------1",
    *b"over    4 --------1",
    *b"rest    4 --------1",
    *b"vec     3 -0-------",
    *b"asvec   5 --1------",
    *b"asscal  6 --1------",
    *b"mapvec  6 --2------",
    *b"at      2 --1------",
    *b"lanes   5 -----1---",
];

// The column of a sort.
fn column(sort: Sort) -> usize
    ensures { (result ≡ column_of sort) × (result < 9) }
{
    sort as usize
}

// The row of this place in a table; one with no letters where there is none.
fn row_in(table: &Table, place: usize) -> [u8; 19]
    ensures { result ≡ row_in table.now place }
{
    if WORD_COUNT <= place {
        return *b"        0 ---------";
    }
    table[place]
}

// The number that a digit stands for.
fn digit(byte: u8) -> usize
    requires { 48 ≤ byte }
    ensures { result ≡ byte - 48 }
{
    (byte - b'0') as usize
}

// How many operands a row of this kind has as a row of this sort, by the built-in table; none where its word makes no row of the sort.
pub fn operand_count(built_in: &Table, kind: u8, sort: Sort) -> Option<usize>
    requires { built_in.now ≡ packed_table }
    ensures { result ≡ operands_of kind sort }
{
    let word = row_in(built_in, kind as usize);
    let count = word[10 + column(sort)];
    if count == b'-' {
        return None;
    }
    Some(digit(count))
}

// [2.2] The built-in table.
pub fn built_in() -> Table
    ensures words_in { words_in result ≡ words }
    ensures packed { result ≡ packed_table }
{
    WORDS
}

// How many letters a row's word has, by the byte behind them: eight at most.
fn letter_count(byte: u8) -> usize
    ensures { (result ≡ letters_by byte) × (result ≤ 8) }
{
    usize::from(byte.saturating_sub(b'0')).min(8)
}

// How many letters the word of this kind has.
pub fn length(table: &Table, kind: u8) -> usize
    ensures { (result ≡ length (word_at (words_in table.now) kind)) × (result ≤ 8) }
{
    let row = row_in(table, kind as usize);
    letter_count(row[8])
}

// Letter i of the word of this kind; 0 past its end.
pub fn letter(table: &Table, kind: u8, i: usize) -> u8
    ensures { result ≡ get_or (word_at (words_in table.now) kind) i 0 }
{
    let row = row_in(table, kind as usize);
    if letter_count(row[8]) <= i {
        return 0;
    }
    row[i]
}

// Whether these are the letters of a row's word: the row is left at the first letter that differs, which in most rows is the first, so
// they are not compared as slices.
fn same(letters: &[u8], row: &[u8; 19]) -> bool
    ensures { result ≡ same_letters letters.now (word_in row.now) }
{
    for i in 0..letters.len() {
        if 8 <= i {
            return false;
        }
        if letters[i] != row[i] {
            return false;
        }
    }
    letter_count(row[8]) == letters.len()
}

// [1.3], [17.1] Goes down a table to the word with these letters, and ends there.
pub fn find(table: &Table, letters: &[u8]) -> Search
    ensures { LooksUp (words_in table.now) letters.now result }
{
    for place in 0..WORD_COUNT {
        if same(letters, &table[place]) {
            return Search {
                found: Some(place),
                compared: place + 1,
            };
        }
    }
    Search {
        found: None,
        compared: WORD_COUNT,
    }
}

// Where a table has the word of a row.
pub fn find_row(table: &Table, row: [u8; 19]) -> Option<usize>
    ensures { result ≡ look_up (words_in table.now) (word_in row) }
{
    let count = letter_count(row[8]);
    find(table, &row[..count]).found
}

// [17.3] The search for a word in the built-in table.
pub fn look_up(word: &[u8]) -> Search
    ensures { LooksUp words word.now result }
{
    let table = built_in();
    find(&table, word)
}

// [1.8] How many rows a lent table has: as many as the shorter of its slices.
pub fn row_count(kinds: &[u8], numbers: &[i32]) -> usize
    ensures { (result ≡ length (rows_of kinds.now numbers.now)) × (result ≤ length kinds.now) × (result ≤ length numbers.now) }
{
    kinds.len().min(numbers.len())
}
