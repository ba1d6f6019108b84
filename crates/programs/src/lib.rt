// [11.9] What the two programs decide: the text that the translator prints for a plan's text, and the text that the runner prints for
// loops and values; with the built-in words, or under a words text ([16.8]).
#![tactic(auto)]

ghost use Rattle.std.specs.Prelude.{List, ℤ, ◌≤◌, length};
ghost use Rattle.words.specs.Tables.{words_in};
ghost use Rattle.words.specs.Words.{words};
ghost use Rattle.lines.specs.Lent.{text_rows};
ghost use Rattle.syntax.specs.Reading.{loops_of};
ghost use Rattle.programs.specs.Parts.{RunsInto};
ghost use Rattle.programs.specs.Promises.{PrintsLoops, PrintsRun, PrintsLoopsIn, PrintsRunIn, SaysValuesRead};
ghost use Rattle.programs.specs.Printed.{refusal_text};
ghost use Rattle.programs.specs.Runner.{runner_outcome, ShownInto};

use refusals::Refusal;
use words::Table;

mod parts;
mod table;

// [13.17] The bytes of the longest output.
const LONGEST_OUTPUT: usize = 69648;

// The translator with this table of words: a plan's text is read and the text of its loops printed with it.
fn translator_with(table: &Table, plan: &[u8], lent: &mut [u8]) -> Result<usize, Refusal>
    ensures { PrintsLoops (words_in table.now) plan.now lent.old result lent.new }
{
    let mut kinds = [0u8; 4096];
    let mut numbers = [0i32; 4096];
    match translate::rows_with(table, plan, &mut kinds, &mut numbers) {
        Ok(rows) => lines::print(table, &kinds[..rows], &numbers[..rows], lent),
        Err(refusal) => parts::put_refusal(refusal, lent),
    }
}

// [11.1] The translator: the text of the loops made from a plan's text, or the refusal's line, goes to the front of the lent text:
// how many bytes it has, or the "no" to question 12.
pub fn translator(plan: &[u8], lent: &mut [u8]) -> Result<usize, Refusal>
    ensures { PrintsLoops words plan.now lent.old result lent.new }
{
    translator_with(&words::built_in(), plan, lent)
}

// [16.8] The translator under a words text.
pub fn translator_in(words: &[u8], plan: &[u8], lent: &mut [u8]) -> Result<usize, Refusal>
    ensures { PrintsLoopsIn words.now plan.now lent.old result lent.new }
{
    match own_words::read(words) {
        Ok(table) => translator_with(&table, plan, lent),
        Err(refusal) => parts::put_refusal(refusal, lent),
    }
}

// Runs loops on the store with its values, and prints the run; or the first "no", which is not printed.
fn run_text(
    table: &Table,
    loops: &[u8],
    values: &[u8],
    store: &mut [i32],
    lent: &mut [u8],
) -> Result<usize, Refusal>
    requires { 69648 ≤ length lent.old }
    ensures { RunsInto (loops_of (text_rows (words_in table.now) loops.now)) (runner_outcome (words_in table.now) loops.now values.now store.old)
        lent.old result store.new lent.new }
{
    let mut kinds = [0u8; 4096];
    let mut numbers = [0i32; 4096];
    let rows = lines::read_loops(table, loops, &mut kinds, &mut numbers)?;
    table::run_table(&kinds[..rows], &numbers[..rows], values, store, lent)
}

// The runner with this table of words.
fn runner_with(
    table: &Table,
    loops: &[u8],
    values: &[u8],
    store: &mut [i32],
    lent: &mut [u8],
) -> Result<usize, Refusal>
    ensures { PrintsRun (words_in table.now) loops.now values.now store.old lent.old result store.new lent.new }
{
    if lent.len() < LONGEST_OUTPUT {
        return Err(Refusal::LentSize);
    }
    match run_text(table, loops, values, store, lent) {
        Ok(bytes) => Ok(bytes),
        Err(refusal) => parts::put_refusal(refusal, lent),
    }
}

// [11.6], [11.7] The runner: the store's input cells are filled from the values and the loops run on it; the output cells and the
// writes, or the refusal's line, go to the front of the lent text.
pub fn runner(
    loops: &[u8],
    values: &[u8],
    store: &mut [i32],
    lent: &mut [u8],
) -> Result<usize, Refusal>
    ensures { PrintsRun words loops.now values.now store.old lent.old result store.new lent.new }
{
    runner_with(&words::built_in(), loops, values, store, lent)
}

// What the runner prints of a words text that is refused, where there is room for all that it may print ([11.9]); s is its store, which is
// not touched.
fn show_refusal(refusal: Refusal, lent: &mut [u8]) -> Result<usize, Refusal>
    ensures { (s : List ℤ) → ShownInto (refusal_text refusal) s s lent.old result s lent.new }
{
    if lent.len() < LONGEST_OUTPUT {
        return Err(Refusal::LentSize);
    }
    parts::put_refusal(refusal, lent)
}

// [16.8] The runner under a words text.
pub fn runner_in(
    words: &[u8],
    loops: &[u8],
    values: &[u8],
    store: &mut [i32],
    lent: &mut [u8],
) -> Result<usize, Refusal>
    ensures { PrintsRunIn words.now loops.now values.now store.old lent.old result store.new lent.new }
{
    match own_words::read(words) {
        Ok(table) => runner_with(&table, loops, values, store, lent),
        Err(refusal) => show_refusal(refusal, lent),
    }
}

// [11.5] Whether the values are to be read for these loops: not where the number of their first line is 0, as they have no input cells,
// whatever its word is.
pub fn reads_values(loops: &[u8]) -> bool
    ensures { SaysValuesRead loops.now result }
{
    let line = &loops[..texts::line_length(loops)];
    let number = line.len().min(texts::field_length(line) + 1);
    &line[number..] != b"0".as_slice()
}
