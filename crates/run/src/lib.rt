// The entries that run loops: [16.4] and [16.5] where a words text is given, the questions of the check of loops, then [10.13], then
// [10.14]. A store is lent as cells and bytes,
// either of which may be empty.
// Kinds and numbers of rows come as two slices, as the interface for C lends them.
#![tactic(auto)]

ghost use Rattle.words.specs.Tables.{words_in};
ghost use Rattle.words.specs.Words.{words};
ghost use Rattle.std.specs.Prelude.{◌≡◌, ℕ, ◌≤◌, length};
ghost use Rattle.loops.specs.Checked.{passing};
ghost use Rattle.words.specs.Kinds.{rows_of};
ghost use Rattle.syntax.specs.Reading.{loops_of};
ghost use Rattle.loops.specs.Check.{check_loops_rows};
ghost use Rattle.store.specs.Store.{store_of};
ghost use Rattle.run.specs.Promises.{KeepsFrame, RunsRows, RunsText, RunsTextIn};
ghost use Rattle.run.specs.Run.{outcome, asked_run};

use refusals::Refusal;
use words::Table;

// [10.13] and [10.14] of loops that pass and need so many cells; then their run: the writes made, or the first "no".
fn run_passing(
    kinds: &[u8],
    numbers: &[i32],
    need: usize,
    order: u32,
    cells: &mut [i32],
    bytes: &mut [u8],
) -> Result<usize, Refusal>
    requires { (length kinds.now ≡ length numbers.now) × (length kinds.now ≤ 4096) }
    ensures frame { KeepsFrame cells.old bytes.old cells.new bytes.new }
    ensures result { (w : ℕ) → check_loops_rows (rows_of kinds.now numbers.now) ≡ passing w need
        → outcome result (store_of cells.new bytes.new)
        ≡ asked_run (loops_of (rows_of kinds.now numbers.now)) need order (store_of cells.old bytes.old) }
{
    if 2 < order {
        return Err(Refusal::UnknownOrder);
    }
    if store::count(cells, bytes) < need {
        return Err(Refusal::StoreSize);
    }
    let writes = interpreter::run_loops(kinds, numbers, order, cells, bytes);
    Ok(writes as usize)
}

// [10.16] Runs the loops of a lent table.
pub fn run_rows(
    kinds: &[u8],
    numbers: &[i32],
    order: u32,
    cells: &mut [i32],
    bytes: &mut [u8],
) -> Result<usize, Refusal>
    ensures frame { KeepsFrame cells.old bytes.old cells.new bytes.new }
    ensures result { RunsRows kinds.now numbers.now order cells.old bytes.old result
        cells.new bytes.new }
{
    let counted = loops::check_table(kinds, numbers)?;
    let rows = words::row_count(kinds, numbers);
    run_passing(
        &kinds[..rows],
        &numbers[..rows],
        counted.need,
        order,
        cells,
        bytes,
    )
}

// Runs the loops of a text that is read with this table of words.
fn run_with(
    table: &Table,
    text: &[u8],
    order: u32,
    cells: &mut [i32],
    bytes: &mut [u8],
) -> Result<usize, Refusal>
    ensures frame { KeepsFrame cells.old bytes.old cells.new bytes.new }
    ensures result { RunsText (words_in table.now) text.now order cells.old bytes.old result cells.new bytes.new }
{
    let mut kinds = [0u8; 4096];
    let mut numbers = [0i32; 4096];
    let rows = lines::read_loops(table, text, &mut kinds, &mut numbers)?;
    run_rows(&kinds[..rows], &numbers[..rows], order, cells, bytes)
}

// [10.16] Runs the loops of a text.
pub fn run_text(
    text: &[u8],
    order: u32,
    cells: &mut [i32],
    bytes: &mut [u8],
) -> Result<usize, Refusal>
    ensures frame { KeepsFrame cells.old bytes.old cells.new bytes.new }
    ensures result { RunsText words text.now order cells.old bytes.old result cells.new bytes.new }
{
    run_with(&words::built_in(), text, order, cells, bytes)
}

// [16.7] The run of a text under a words text.
pub fn run_text_in(
    words: &[u8],
    text: &[u8],
    order: u32,
    cells: &mut [i32],
    bytes: &mut [u8],
) -> Result<usize, Refusal>
    ensures frame { KeepsFrame cells.old bytes.old cells.new bytes.new }
    ensures result { RunsTextIn words.now text.now order cells.old bytes.old result cells.new bytes.new }
{
    let table = own_words::read(words)?;
    run_with(&table, text, order, cells, bytes)
}
