// The check of loops, whoever wrote them: [10.1] to [10.6], [18.15], [10.9] and [10.11]; the need; and reading loops into a lent table of
// rows. Where a words text is given, [16.4] and [16.5] come first.
// Kinds and numbers of rows come as two slices, as the interface for C lends them.
#![tactic(auto)]

ghost use Rattle.words.specs.Tables.{words_in};
ghost use Rattle.words.specs.Words.{words};
ghost use Rattle.std.specs.Prelude.{◌≡◌, ◌≤◌, length};
ghost use Rattle.words.specs.Kinds.{rows_of};
ghost use Rattle.meaning.specs.Loops.{Loops};
ghost use Rattle.meaning.specs.Rows.{loops_rows};
ghost use Rattle.syntax.specs.InRange.{LoopsInRange};
ghost use Rattle.loops.specs.Check.{check_loops, check_loops_rows};
ghost use Rattle.loops.specs.Promises.{ChecksLoops, ChecksTable, TellsNeed, ReadsLoops};
ghost use Rattle.loops.specs.Promises.{ChecksLoopsIn, TellsNeedIn, ReadsLoopsIn};

use columns::Counted;
use refusals::Refusal;
use words::Table;

// Questions 9 and 11 of a table that walks well.
fn check_limits(kinds: &[u8], numbers: &[i32]) -> Result<Counted, Refusal>
    requires { (length kinds.now ≡ length numbers.now) × (length kinds.now ≤ 4096) }
    ensures { (L : Loops) → rows_of kinds.now numbers.now ≡ loops_rows L → LoopsInRange L → result ≡ check_loops L }
{
    let counted = columns::ask_loops(kinds, numbers)?;
    if 16777216 < counted.writes {
        return Err(Refusal::WriteCount);
    }
    Ok(counted)
}

// Questions 2 (of the kinds), 4 to 6, 18, 9 and 11 of a table's rows.
fn check_rows(kinds: &[u8], numbers: &[i32]) -> Result<Counted, Refusal>
    requires { (length kinds.now ≡ length numbers.now) × (length kinds.now ≤ 4096) }
    ensures { result ≡ check_loops_rows (rows_of kinds.now numbers.now) }
{
    syntax::walk_loops(kinds, numbers)?;
    check_limits(kinds, numbers)
}

// [10.16] The check of a lent table, whose rows are as many as the shorter slice has ([1.8]): questions 2 (of the kinds), 3 to 6,
// 18, 9, 11. The writes of loops that pass and the cells that they need; or the first "no".
pub fn check_table(kinds: &[u8], numbers: &[i32]) -> Result<Counted, Refusal>
    ensures { ChecksTable kinds.now numbers.now result }
{
    let rows = syntax::listed_rows(kinds, numbers)?;
    if 4096 < rows {
        return Err(Refusal::LineCount);
    }
    check_rows(&kinds[..rows], &numbers[..rows])
}

// The check of a loops text that is read with this table of words.
// `plans` has the same for its own sort of text: what both share is in `lines`, and each has a contract of its own.
fn check_with(table: &Table, text: &[u8]) -> Result<Counted, Refusal>
    ensures { ChecksLoops (words_in table.now) text.now result }
{
    let mut kinds = [0u8; 4096];
    let mut numbers = [0i32; 4096];
    let rows = lines::read_loops(table, text, &mut kinds, &mut numbers)?;
    check_rows(&kinds[..rows], &numbers[..rows])
}

// The need of the same.
fn need_with(table: &Table, text: &[u8]) -> Result<usize, Refusal>
    ensures { TellsNeed (words_in table.now) text.now result }
{
    let counted = check_with(table, text)?;
    Ok(counted.need)
}

// The same text read into a lent table of rows, which is touched when all is asked.
// As `check_with`: `plans` has the same for its own sort.
fn read_with(
    table: &Table,
    text: &[u8],
    kinds: &mut [u8],
    numbers: &mut [i32],
) -> Result<usize, Refusal>
    ensures { ReadsLoops (words_in table.now) text.now kinds.old numbers.old result kinds.new numbers.new }
{
    let mut own_kinds = [0u8; 4096];
    let mut own_numbers = [0i32; 4096];
    let rows = lines::read_loops(table, text, &mut own_kinds, &mut own_numbers)?;
    let its_kinds = &own_kinds[..rows];
    let its_numbers = &own_numbers[..rows];
    check_rows(its_kinds, its_numbers)?;
    lines::hand_over(its_kinds, its_numbers, kinds, numbers)
}

// [10.16] The check of a loops text: questions 1 to 6, 18, 9 and 11.
pub fn check_text(text: &[u8]) -> Result<Counted, Refusal>
    ensures { ChecksLoops words text.now result }
{
    check_with(&words::built_in(), text)
}

// [7.4] The need of a loops text, under the same questions.
pub fn need_text(text: &[u8]) -> Result<usize, Refusal>
    ensures { TellsNeed words text.now result }
{
    need_with(&words::built_in(), text)
}

// [10.16] Reads a loops text into a lent table of rows: the same questions, then 12. How many rows were put in front of both slices; or the
// first "no", and both are as they were ([10.17], [10.22]).
pub fn read_text(text: &[u8], kinds: &mut [u8], numbers: &mut [i32]) -> Result<usize, Refusal>
    ensures { ReadsLoops words text.now kinds.old numbers.old result kinds.new numbers.new }
{
    read_with(&words::built_in(), text, kinds, numbers)
}

// [16.7] The check under a words text.
pub fn check_text_in(words: &[u8], text: &[u8]) -> Result<Counted, Refusal>
    ensures { ChecksLoopsIn words.now text.now result }
{
    let table = own_words::read(words)?;
    check_with(&table, text)
}

// [16.7] The need under a words text.
pub fn need_text_in(words: &[u8], text: &[u8]) -> Result<usize, Refusal>
    ensures { TellsNeedIn words.now text.now result }
{
    let table = own_words::read(words)?;
    need_with(&table, text)
}

// [16.7] The reading under a words text.
pub fn read_text_in(
    words: &[u8],
    text: &[u8],
    kinds: &mut [u8],
    numbers: &mut [i32],
) -> Result<usize, Refusal>
    ensures { ReadsLoopsIn words.now text.now kinds.old numbers.old result kinds.new numbers.new }
{
    let table = own_words::read(words)?;
    read_with(&table, text, kinds, numbers)
}
