// The check of a plan: [10.1] to [10.8], and [10.12] where a table of rows is lent; before them [16.4] and [16.5] where a words text is given.
// Kinds and numbers of rows come as two slices, as the interface for C lends them.
#![tactic(auto)]

ghost use Rattle.std.specs.Prelude.{◌≡◌, ◌≤◌, length};
ghost use Rattle.words.specs.Kinds.{rows_of};
ghost use Rattle.words.specs.Tables.{words_in};
ghost use Rattle.words.specs.Words.{words};
ghost use Rattle.typing.specs.Entry.{check_plan_rows};
ghost use Rattle.plans.specs.Promises.{ChecksPlan, ReadsPlan, ChecksPlanIn, ReadsPlanIn};

use refusals::Refusal;
use words::Table;

// Questions 2 (of the kinds) and 4 to 8 of a table's rows: how many they are, or the first "no".
fn check_rows(kinds: &[u8], numbers: &[i32]) -> Result<usize, Refusal>
    requires { (length kinds.now ≡ length numbers.now) × (length kinds.now ≤ 256) }
    ensures { result ≡ check_plan_rows (rows_of kinds.now numbers.now) }
{
    let rows = syntax::walk_plan(kinds, numbers)?;
    let mut types = [0u64; 512];
    let mut column = [0u16; 256];
    row_typing::type_plan(kinds, numbers, &mut types, &mut column)?;
    Ok(rows)
}

// The check of a plan's text that is read with this table of words.
// `loops` has the same for its own sort of text: what both share is in `lines`, and each has a contract of its own.
fn check_with(table: &Table, text: &[u8]) -> Result<usize, Refusal>
    ensures { ChecksPlan (words_in table.now) text.now result }
{
    let mut kinds = [0u8; 256];
    let mut numbers = [0i32; 256];
    let rows = lines::read_plan(table, text, &mut kinds, &mut numbers)?;
    check_rows(&kinds[..rows], &numbers[..rows])
}

// The same text read into a lent table of rows, which is touched when all is asked.
// As `check_with`: `loops` has the same for its own sort.
fn read_with(
    table: &Table,
    text: &[u8],
    kinds: &mut [u8],
    numbers: &mut [i32],
) -> Result<usize, Refusal>
    ensures { ReadsPlan (words_in table.now) text.now kinds.old numbers.old result kinds.new numbers.new }
{
    let mut own_kinds = [0u8; 256];
    let mut own_numbers = [0i32; 256];
    let rows = lines::read_plan(table, text, &mut own_kinds, &mut own_numbers)?;
    let its_kinds = &own_kinds[..rows];
    let its_numbers = &own_numbers[..rows];
    check_rows(its_kinds, its_numbers)?;
    lines::hand_over(its_kinds, its_numbers, kinds, numbers)
}

// [10.16], [10.21] The check of a plan's text: how many rows it has, or the first "no" to questions 1 to 8.
pub fn check_text(text: &[u8]) -> Result<usize, Refusal>
    ensures { ChecksPlan words text.now result }
{
    check_with(&words::built_in(), text)
}

// [10.16] Reads a plan's text into a lent table of rows: the same questions, then 12. How many rows were put in front of both slices; or the
// first "no", and both are as they were ([10.17], [10.22]).
pub fn read_text(text: &[u8], kinds: &mut [u8], numbers: &mut [i32]) -> Result<usize, Refusal>
    ensures { ReadsPlan words text.now kinds.old numbers.old result kinds.new numbers.new }
{
    read_with(&words::built_in(), text, kinds, numbers)
}

// [16.7] The check under a words text.
pub fn check_text_in(words: &[u8], text: &[u8]) -> Result<usize, Refusal>
    ensures { ChecksPlanIn words.now text.now result }
{
    let table = own_words::read(words)?;
    check_with(&table, text)
}

// [16.7] The reading under a words text.
pub fn read_text_in(
    words: &[u8],
    text: &[u8],
    kinds: &mut [u8],
    numbers: &mut [i32],
) -> Result<usize, Refusal>
    ensures { ReadsPlanIn words.now text.now kinds.old numbers.old result kinds.new numbers.new }
{
    let table = own_words::read(words)?;
    read_with(&table, text, kinds, numbers)
}
