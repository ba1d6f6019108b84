// The bounds of offsets, the writes of commands, and question 9: one pass from the last row to the first.
ghost use Rattle.std.specs.Prelude.{◌≡◌, ◌+◌, ◌≤◌, ◌<◌, length, get_or};
ghost use Rattle.syntax.specs.Ranges.{cell_numbers};
ghost use Rattle.columns.specs.Figures.{figure_at, Figures};
ghost use Rattle.columns.specs.Asking.{no_at, first_from, told};

use crate::accesses::is_refused;
use crate::commands::row_figure;
use crate::entries::count_at;
use crate::rows::Rows;
use refusals::Refusal;

// The figure of row q, from the columns behind it: `figures` has there the number of the row that it names.
fn figure_at(rows: Rows, figures: &[u32], q: usize) -> usize
    requires { q < length rows.kinds.now }
    ensures { (result ≡ figure_at rows.entry.kinds.now rows.entry.numbers.now (get_or figures.now q 0) q (get_or figures.now (q + 1) 0)
        (get_or figures.now (get_or rows.entry.ends.now (q + 1) 0) 0)) × (result ≤ 4294967295) }
{
    row_figure(
        rows.kinds[q],
        rows.number(q),
        count_at(figures, q),
        count_at(figures, q + 1),
        count_at(figures, rows.second(q)),
    )
}

// Whether row q is answered "no".
fn no_at(rows: Rows, figures: &[u32], inputs: &[i32], output: usize, q: usize) -> bool
    requires { q < length rows.kinds.now }
    ensures { result ≡ no_at rows.entry.kinds.now rows.entry.numbers.now figures.now figures.now (cell_numbers inputs.now) output q }
{
    is_refused(
        rows.kinds[q],
        rows.number(q),
        count_at(figures, q),
        count_at(figures, q + 1),
        inputs,
        output,
    )
}

// Puts at every offset's row its bound, at every command's row its writes. Before, `figures` has at `ctr` and `loc` rows the number of the
// row that they name. [10.17] The first "no", where there is one: row q, on line q + 1, is asked after the rows behind it.
pub fn fill(rows: Rows, inputs: &[i32], output: usize, figures: &mut [u32]) -> Result<(), Refusal>
    requires long { length rows.kinds.now ≤ length figures.old }
    ensures kept { length figures.new ≡ length figures.old }
    ensures figures { Figures rows.entry.kinds.now rows.entry.numbers.now rows.entry.ends.now figures.old figures.new }
    ensures answer { result ≡ told tt (first_from
        (no_at rows.entry.kinds.now rows.entry.numbers.now figures.old figures.new (cell_numbers inputs.now) output) 0 (length rows.entry.kinds.now)) }
{
    let mut answer = Ok(());
    for q in (0..rows.kinds.len()).rev() {
        if no_at(rows, figures, inputs, output, q) {
            answer = Err(Refusal::OffsetBound(q + 1));
        }
        figures[q] = figure_at(rows, figures, q) as u32;
    }
    answer
}
