// The runner behind the reading of its loops: their check, their values, their run, and what is printed of it.
// Kinds and numbers of rows come as two slices, as the interface for C lends them.
ghost use Rattle.std.specs.Prelude.{[], ◌∷◌, ◌++◌, ◌≡◌, ◌+◌, ◌≤◌, pos, length, Ok};
ghost use Rattle.std.proofs.lemmas.List.Edits.{sets};
ghost use Rattle.numerals.specs.Numerals.{decimal};
ghost use Rattle.words.specs.Kinds.{rows_of};
ghost use Rattle.meaning.specs.Layout.{all_cells};
ghost use Rattle.syntax.specs.Ranges.{cell_numbers};
ghost use Rattle.syntax.specs.Reading.{loops_of};
ghost use Rattle.loops.specs.Check.{check_table};
ghost use Rattle.interpreter.specs.Orders.{run_of};
ghost use Rattle.run.specs.Run.{finished};
ghost use Rattle.programs.specs.Runner.{finished_text, print_checked};
ghost use Rattle.programs.specs.Parts.{ValuesInto, Ready, LaidOut, RunsInto};

use crate::parts;
use refusals::Refusal;
use syntax::ranges;

// How many cells the inputs of loops have in all, and how many their output.
#[derive(Clone, Copy)]
pub struct Layout {
    pub inputs: usize,
    pub output: usize,
}

// The cells that rows name in all.
fn cells_in(numbers: &[i32]) -> usize
    requires { length numbers.now ≤ 4096 }
    ensures { result ≡ all_cells (cell_numbers numbers.now) }
{
    let mut cells = 0;
    for number in numbers {
        cells += ranges::natural(*number);
    }
    cells
}

// [7.5] The layout of loops that pass, in a store of so many cells.
fn layout_of(kinds: &[u8], numbers: &[i32], store: usize) -> Layout
    requires { Ready kinds.now numbers.now store }
    ensures { LaidOut (loops_of (rows_of kinds.now numbers.now)) result.inputs result.output }
{
    let end = 1 + ranges::natural(numbers[0]);
    Layout {
        inputs: cells_in(&numbers[1..end]),
        output: ranges::natural(numbers[end]),
    }
}

// [11.5] The values of so many input cells; with none the values are not looked at.
fn fill_inputs(values: &[u8], cells: usize, store: &mut [i32]) -> Result<usize, Refusal>
    ensures { ValuesInto values.now cells store.old result store.new }
{
    if cells == 0 {
        return Ok(0);
    }
    values::fill(values, cells, store)
}

// [11.7] Puts an output cell's line; the place behind it.
fn put_cell(cell: usize, value: i32, text: &mut [u8], at: usize) -> usize
    requires { at ≤ length text.old }
    ensures { (result ≡ at + length (decimal (pos cell) ++ (44 ∷ decimal value) ++ (10 ∷ [])))
        × (length (decimal value) ≤ 11)
        × (text.new ≡ sets text.old at (decimal (pos cell) ++ (44 ∷ decimal value) ++ (10 ∷ []))) }
{
    let comma = parts::put_natural(cell as u64, b',', text, at);
    numerals::put(value, text, comma);
    let end = comma + numerals::size(value);
    slices::put(text, end, b'\n');
    end + 1
}

// [11.7] Puts the output cells and the writes at the front of a text that has room for them; the place behind.
fn put_output(cells: &[i32], writes: u32, text: &mut [u8]) -> usize
    requires { (length cells.now ≤ 4096) × (writes ≤ 16777216) × (69648 ≤ length text.old) }
    ensures { (result ≡ length (finished_text cells.now writes)) × (result ≤ 69648)
        × (text.new ≡ sets text.old 0 (finished_text cells.now writes)) }
{
    let mut at = 0;
    for (cell, value) in cells.iter().enumerate() {
        at = put_cell(cell, *value, text, at);
    }
    let end = at + 7;
    text[at..end].copy_from_slice(b"writes,");
    parts::put_natural(writes as u64, b'\n', text, end)
}

// [11.6] Runs loops that pass, in order 0, on the store that holds their values, and prints it: how many bytes were put.
fn print_run(
    kinds: &[u8],
    numbers: &[i32],
    layout: Layout,
    store: &mut [i32],
    lent: &mut [u8],
) -> usize
    requires { Ready kinds.now numbers.now (length store.old) × LaidOut (loops_of (rows_of kinds.now numbers.now)) layout.inputs layout.output
        × (69648 ≤ length lent.old) }
    ensures { RunsInto (loops_of (rows_of kinds.now numbers.now))
        (finished (run_of (loops_of (rows_of kinds.now numbers.now)) 0 store.old))
        lent.old (Ok result) store.new lent.new }
{
    let writes = interpreter::run_loops(kinds, numbers, 0, store, &mut []);
    let end = layout.inputs + layout.output;
    put_output(&store[layout.inputs..end], writes, lent)
}

// The check of a table that was read, its need and its values; then its run. How many bytes were put; or the first "no", which is not printed.
pub fn run_table(
    kinds: &[u8],
    numbers: &[i32],
    values: &[u8],
    store: &mut [i32],
    lent: &mut [u8],
) -> Result<usize, Refusal>
    requires { (length kinds.now ≡ length numbers.now) × (length kinds.now ≤ 4096) × (69648 ≤ length lent.old) }
    ensures { RunsInto (loops_of (rows_of kinds.now numbers.now))
        (print_checked (check_table (rows_of kinds.now numbers.now)) values.now
        (loops_of (rows_of kinds.now numbers.now)) store.old)
        lent.old result store.new lent.new }
{
    let counted = loops::check_table(kinds, numbers)?;
    if store.len() < counted.need {
        return Err(Refusal::StoreSize);
    }
    let layout = layout_of(kinds, numbers, store.len());
    fill_inputs(values, layout.inputs, store)?;
    Ok(print_run(kinds, numbers, layout, store, lent))
}
