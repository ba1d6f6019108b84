// What a command's row adds to the writes of its operands.
ghost use Rattle.std.specs.Prelude.{◌≡◌, ◌≤◌};
ghost use Rattle.columns.specs.Figures.{writes_by, is_command, figure_by};

use crate::offsets::row_bound;
use words::kinds::*;

// [13.15] 16,777,217 stands for every number of writes above 16,777,216.
const MOST_WRITES: usize = 16777217;

// [7.1] The writes of a command's row.
#[tactic(auto, unfolding(crate::specs::Figures::writes_by))]
fn row_writes(kind: u8, n: usize, first: usize, second: usize) -> usize
    requires { (n ≤ 2147483648) × (first ≤ 4294967295) × (second ≤ 4294967295) }
    ensures { (result ≡ writes_by kind n first second) × (result ≤ 4294967295) }
{
    match kind {
        WORD_SET => 1,
        WORD_SEQ => (first + second).min(MOST_WRITES),
        WORD_NEW => first,
        _ => (n * first).min(MOST_WRITES),
    }
}

// [3.13] Whether a row is a command's.
#[tactic(auto, unfolding(crate::specs::Figures::is_command))]
fn is_command(kind: u8) -> bool
    ensures { result ≡ is_command kind }
{
    matches!(
        kind,
        WORD_SET | WORD_SEQ | WORD_FOR | WORD_PAR | WORD_NEW | WORD_LANES
    )
}

// A command's writes; of another row its bound. `named` is the number of the row that it names.
#[tactic(auto, unfolding(crate::specs::Figures::figure_by))]
pub fn row_figure(kind: u8, n: usize, named: usize, first: usize, second: usize) -> usize
    requires { (n ≤ 2147483648) × (first ≤ 4294967295) × (second ≤ 4294967295) }
    ensures { (result ≡ figure_by kind n named first second) × (result ≤ 4294967295) }
{
    if is_command(kind) {
        row_writes(kind, n, first, second)
    } else {
        row_bound(kind, n, named, first, second)
    }
}
