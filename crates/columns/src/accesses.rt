// [10.9] on one row: a place or a reading, its offset's bound, and the cells that it goes into.
ghost use Rattle.std.specs.Prelude.{◌≡◌};
ghost use Rattle.syntax.specs.Ranges.{cell_numbers};
ghost use Rattle.columns.specs.Asking.{cells_by, is_access, no_by};

use crate::entries::number_at;
use words::kinds::*;

// The cells of the input, the region or the output; `named` are those of the region that the row names.
#[tactic(auto, using(crate::proofs::Inputs::input_here), unfolding(crate::specs::Asking::cells_by))]
fn cells(kind: u8, n: usize, named: usize, inputs: &[i32], output: usize) -> usize
    ensures { result ≡ cells_by kind n named (cell_numbers inputs.now) output }
{
    match kind {
        WORD_IN => number_at(inputs, n),
        WORD_LOC => named,
        _ => output,
    }
}

// Whether a row is a place or a reading.
#[tactic(auto, unfolding(crate::specs::Asking::is_access))]
pub fn is_access(kind: u8) -> bool
    ensures { result ≡ is_access kind }
{
    matches!(kind, WORD_IN | WORD_LOC | WORD_OUT)
}

// Whether it is one whose offset's bound is too large.
#[tactic(auto, unfolding(crate::specs::Asking::no_by))]
pub fn is_refused(
    kind: u8,
    n: usize,
    named: usize,
    bound: usize,
    inputs: &[i32],
    output: usize,
) -> bool
    ensures { result ≡ no_by kind n named bound (cell_numbers inputs.now) output }
{
    is_access(kind) && (65535 < bound || cells(kind, n, named, inputs, output) <= bound)
}
