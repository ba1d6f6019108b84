// From a text to rows, line by line: [1.1] to [1.5].
ghost use Rattle.std.specs.Prelude.{◌≡◌, ℕ, List, map, ◌+◌, ◌≤◌, ◌<◌, length, drop};
ghost use Rattle.words.specs.Kinds.{Row};
ghost use Rattle.words.specs.Tables.{words_in};
ghost use Rattle.texts.specs.Texts.{lines_of, first_line, after_first};
ghost use Rattle.lines.specs.Reading.{cell_named, head_of, line_of, rows_in, closed, formed, numbers_of, Below, Put};

use crate::Heads;
use refusals::Refusal;
use words::Table;

// What a column of the table holds of the kinds, or cells, of rows: the numbers below a bound.
pub trait Column: Copy {
    ghost most: { ℕ };

    ghost of: { ℕ → Self };

    fn of(kind: usize) -> Self
        requires { kind < most }
        ensures { result ≡ of kind };
}

impl Column for u8 {
    ghost most = { 256 };

    ghost of = { λ kind. kind };

    fn of(kind: usize) -> u8 {
        kind as u8
    }
}

impl Column for u32 {
    ghost most = { 2147483648 };

    ghost of = { λ cell. cell };

    fn of(cell: usize) -> u32 {
        cell as u32
    }
}

// [11.3], [11.4] The cell that a number names.
fn cell_of(number: Option<i32>) -> Option<usize>
    ensures { result ≡ cell_named number }
{
    usize::try_from(number?).ok()
}

// What stands before a comma; a cell whatever the words are.
fn head_of(table: &Table, heads: Heads, bytes: &[u8]) -> Option<usize>
    ensures { result ≡ head_of (words_in table.now) heads bytes.now }
{
    match heads {
        Heads::Words => words::find(table, bytes).found,
        Heads::Cells => cell_of(numerals::read(bytes)),
    }
}

// [1.2] What a line is. [17.2] Nothing is searched for where it has no comma.
fn line_of(table: &Table, heads: Heads, line: &[u8]) -> Option<(usize, i32)>
    ensures { result ≡ line_of (head_of (words_in table.now) heads) line.now }
{
    let comma = texts::field_length(line);
    if line.len() == comma {
        return None;
    }
    let head = head_of(table, heads, &line[..comma])?;
    let behind = comma + 1;
    let number = numerals::read(&line[behind..])?;
    Some((head, number))
}

// A text's first line, and what stands behind it.
fn cut_line(text: &[u8]) -> (&[u8], &[u8])
    ensures line { result.0.now ≡ first_line text.now }
    ensures behind { result.1.now ≡ drop (after_first text.now) text.now }
{
    let end = texts::line_length(text);
    let next = text.len().min(end + 1);
    (&text[..end], &text[next..])
}

// [10.1] Whether a text has a byte, and at most so many, and the last one closes its last line.
pub fn is_closed(text: &[u8], limit: usize) -> bool
    ensures { result ≡ closed limit text.now }
{
    let size = text.len();
    0 < size && size <= limit && text[size - 1] == b'\n'
}

// [10.2] Reads a text line by line, and puts its rows from the first place of the table on: how many they are, or the first "no". What the
// table has no room for is not put. The rows are counted by hand: `split` would give one line more, behind the last byte 10.
pub fn put_rows<C: Column>(
    table: &Table,
    heads: Heads,
    text: &[u8],
    column: &mut [C],
    numbers: &mut [i32],
) -> Result<usize, Refusal>
    requires { (line : List ℕ) → Below C.most (line_of (head_of (words_in table.now) heads) line) }
    ensures answer { result ≡ formed (head_of (words_in table.now) heads) 0 (lines_of text.now) }
    ensures column_put { Put result column.old (map (λ (r : Row). C.of r.0) (rows_in (head_of (words_in table.now) heads) (lines_of text.now))) column.new }
    ensures numbers_put { Put result numbers.old (numbers_of (rows_in (head_of (words_in table.now) heads) (lines_of text.now))) numbers.new }
{
    let mut rest = text;
    let mut row = 0;
    while !rest.is_empty() {
        let (line, behind) = cut_line(rest);
        let Some((kind, number)) = line_of(table, heads, line) else {
            return Err(Refusal::LineForm(row + 1));
        };
        slices::put(column, row, C::of(kind));
        slices::put(numbers, row, number);
        row += 1;
        rest = behind;
    }
    Ok(row)
}
