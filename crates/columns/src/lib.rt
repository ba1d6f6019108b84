// Question 9 ([10.9]), the writes ([7.1]) and the need ([7.4]) of loops, from their rows: each column over the rows is filled by one pass,
// and nothing recurses.
// Kinds and numbers of rows come as two slices, as the interface for C lends them.
#![tactic(auto)]

ghost use Rattle.std.specs.Prelude.{◌≡◌, ◌≤◌, ◌<◌, length};
ghost use Rattle.meaning.specs.Layout.{all_cells};
ghost use Rattle.syntax.specs.Ranges.{cell_numbers};
ghost use Rattle.columns.specs.Whole.{AsksLoops};

use crate::entries::{cells_at, count_at, number_at};
use crate::rows::Rows;
use refusals::Refusal;
use syntax::ranges;

pub mod accesses;
mod commands;
pub mod ends;
pub mod entries;
mod figures;
pub mod names;
pub mod offsets;
pub mod rooms;
mod rows;

// Of loops that question 9 passes: their writes, 16,777,217 standing for every number above 16,777,216, and the cells that they need, 2^48
// standing for every greater number.
#[derive(Clone, Copy)]
pub struct Counted {
    pub writes: usize,
    pub need: usize,
}

// [7.4] The cells of the inputs, which stand in the table.
#[tactic(auto, using(crate::proofs::Inputs::inputs_summed))]
fn all_cells(inputs: &[i32]) -> usize
    requires { length inputs.now ≤ 4096 }
    ensures { result ≡ all_cells (cell_numbers inputs.now) }
{
    inputs.iter().map(|cells| ranges::natural(*cells)).sum()
}

// [3.12] The loops whose rows fill a table: `loops`, the `cells` rows of the inputs and of the output, and the command. The columns have room
// for ROWS rows; ENDS is one more.
fn ask_in<const ROWS: usize, const ENDS: usize>(
    kinds: &[u8],
    numbers: &[i32],
) -> Result<Counted, Refusal>
    requires table { (length kinds.now ≡ length numbers.now) × (length kinds.now ≤ 4096) }
    requires long { (length kinds.now ≤ ROWS) × (ROWS < ENDS) × (ENDS ≤ 4097) }
    ensures { AsksLoops kinds.now numbers.now result }
{
    let end = 1 + number_at(numbers, 0);
    let command = end + 1;
    if numbers.len() < command {
        return Err(Refusal::RowDue(1));
    }
    let inputs = &numbers[1..end];
    let output = number_at(numbers, end);
    let mut ends = [0u16; ENDS];
    let mut counters = [0u16; ROWS];
    let mut regions = [0u16; ROWS];
    let mut figures = [0u32; ROWS];
    let mut rooms = [0u64; ROWS];
    ends::fill(kinds, &mut ends);
    names::fill(
        kinds,
        numbers,
        &ends,
        &mut counters,
        &mut regions,
        &mut figures,
    );
    let rows = Rows {
        kinds,
        numbers,
        ends: &ends,
    };
    figures::fill(rows, inputs, output, &mut figures)?;
    rooms::fill(kinds, numbers, &ends, &mut rooms);
    let cells = rooms::capped_sum(all_cells(inputs), output);
    Ok(Counted {
        writes: count_at(&figures, command),
        need: rooms::capped_sum(cells, cells_at(&rooms, command)),
    })
}

// A table of any length that there may be ([13.5]); a short one in short columns, which are cleared sooner.
pub fn ask_loops(kinds: &[u8], numbers: &[i32]) -> Result<Counted, Refusal>
    requires { (length kinds.now ≡ length numbers.now) × (length kinds.now ≤ 4096) }
    ensures { AsksLoops kinds.now numbers.now result }
{
    if kinds.len() <= 128 {
        ask_in::<128, 129>(kinds, numbers)
    } else {
        ask_in::<4096, 4097>(kinds, numbers)
    }
}
