// Texts and rows: a text is read into kinds and numbers ([1.8]), and rows are printed as a text ([1.9]).
// Kinds and numbers of rows come as two slices, as the interface for C lends them.
#![tactic(auto)]

ghost use Rattle.std.specs.Prelude.{◌≡◌, ℕ, List, true, map, length, Ok};
ghost use Rattle.words.specs.Kinds.{Row, rows_of};
ghost use Rattle.words.specs.Tables.{words_in};
ghost use Rattle.texts.specs.Texts.{lines_of};
ghost use Rattle.lines.specs.Reading.{cell_head, head_of, line_of, rows_in, reading, room_for, filled, numbers_of, plan_limits, loops_limits, values_limits, Below, ReadInto};
ghost use Rattle.lines.specs.Lent.{TableInto};
ghost use Rattle.lines.specs.Printing.{PrintInto};
ghost use Rattle.lines.specs.declared.Heads.TheVariants.{Words};

use crate::reader::Column;
use refusals::Refusal;
use words::Table;

mod printer;
mod reader;

// What stands before a line's comma: a word of the table ([1.3]), or in the values file the number of a cell ([11.3]).
#[derive(Clone, Copy, Debug, PartialEq, Eq)]
pub enum Heads {
    Words,
    Cells,
}

// [10.1], [10.3] The most bytes and lines that a text may have.
#[derive(Clone, Copy, Debug, PartialEq, Eq)]
pub struct Limits {
    pub bytes: usize,
    pub lines: usize,
}

// [13.2], [13.4] Those of a plan.
const PLAN_LIMITS: Limits = Limits {
    bytes: 4096,
    lines: 256,
};

// [13.3], [13.5] Those of loops.
const LOOPS_LIMITS: Limits = Limits {
    bytes: 65536,
    lines: 4096,
};

// [13.3] Those of a values file.
const VALUES_LIMITS: Limits = Limits {
    bytes: 65536,
    lines: 65536,
};

// Reads a text within limits: how many rows it has, or the first "no". They go into the table if both its slices have room for them. Where they
// have not, or the text is refused, what they hold is not told: a table that must stay as it was is lent only when all is asked.
fn read<C: Column>(
    table: &Table,
    heads: Heads,
    text: &[u8],
    limits: Limits,
    column: &mut [C],
    numbers: &mut [i32],
) -> Result<usize, Refusal>
    requires { (line : List ℕ) → Below C.most (line_of (head_of (words_in table.now) heads) line) }
    ensures answer { result ≡ reading (head_of (words_in table.now) heads) limits text.now }
    ensures column_left { room_for result (length column.old) (length numbers.old) ≡ true
        → column.new ≡ filled true (map (λ (r : Row). C.of r.0) (rows_in (head_of (words_in table.now) heads) (lines_of text.now))) column.old }
    ensures numbers_left { room_for result (length column.old) (length numbers.old) ≡ true
        → numbers.new ≡ filled true (numbers_of (rows_in (head_of (words_in table.now) heads) (lines_of text.now))) numbers.old }
{
    if !reader::is_closed(text, limits.bytes) {
        return Err(Refusal::TextForm);
    }
    let lines = reader::put_rows(table, heads, text, column, numbers)?;
    if limits.lines < lines {
        return Err(Refusal::LineCount);
    }
    Ok(lines)
}

// Reads a plan's text: at most 4,096 bytes [13.2] and 256 lines [13.4].
#[tactic(auto, using(crate::proofs::Lines::kind_below))]
pub fn read_plan(
    table: &Table,
    text: &[u8],
    kinds: &mut [u8],
    numbers: &mut [i32],
) -> Result<usize, Refusal>
    ensures { ReadInto (head_of (words_in table.now) Words) plan_limits text.now kinds.old numbers.old result kinds.new numbers.new }
{
    read(table, Heads::Words, text, PLAN_LIMITS, kinds, numbers)
}

// Reads the text of loops: at most 65,536 bytes [13.3] and 4,096 lines [13.5].
#[tactic(auto, using(crate::proofs::Lines::kind_below))]
pub fn read_loops(
    table: &Table,
    text: &[u8],
    kinds: &mut [u8],
    numbers: &mut [i32],
) -> Result<usize, Refusal>
    ensures { ReadInto (head_of (words_in table.now) Words) loops_limits text.now kinds.old numbers.old result kinds.new numbers.new }
{
    read(table, Heads::Words, text, LOOPS_LIMITS, kinds, numbers)
}

// Reads a values file of at most 65,536 bytes [13.3]: the cells and their values. It has no words ([16.3]), so that any table will do.
#[tactic(auto, using(crate::proofs::Lines::cell_below))]
pub fn read_values(text: &[u8], cells: &mut [u32], values: &mut [i32]) -> Result<usize, Refusal>
    ensures { ReadInto cell_head values_limits text.now cells.old values.old result cells.new values.new }
{
    read(
        &words::built_in(),
        Heads::Cells,
        text,
        VALUES_LIMITS,
        cells,
        values,
    )
}

// [10.12] Has a lent table room for these rows? [10.22] Then they are put in front: how many they are, or the "no", and it is as it was.
pub fn hand_over(
    kinds: &[u8],
    numbers: &[i32],
    lentkinds: &mut [u8],
    lentnumbers: &mut [i32],
) -> Result<usize, Refusal>
    requires { length kinds.now ≡ length numbers.now }
    ensures { TableInto (Ok (length kinds.now)) (rows_of kinds.now numbers.now)
        lentkinds.old lentnumbers.old result lentkinds.new lentnumbers.new }
{
    let rows = kinds.len();
    if words::row_count(lentkinds, lentnumbers) < rows {
        return Err(Refusal::LentSize);
    }
    lentkinds[..rows].copy_from_slice(kinds);
    lentnumbers[..rows].copy_from_slice(numbers);
    Ok(rows)
}

// [1.9] Prints rows, as many as the shorter slice has ([1.8]), at the front of the lent text:
// how many bytes were put, or the "no".
pub fn print(
    table: &Table,
    kinds: &[u8],
    numbers: &[i32],
    text: &mut [u8],
) -> Result<usize, Refusal>
    ensures { PrintInto (words_in table.now) (rows_of kinds.now numbers.now) text.old result text.new }
{
    let bytes = printer::text_size(table, kinds, numbers, text.len())?;
    printer::put_text(table, kinds, numbers, text);
    Ok(bytes)
}
