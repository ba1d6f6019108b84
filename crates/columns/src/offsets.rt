// [10.20] The bound of an offset's row.
ghost use Rattle.std.specs.Prelude.{◌≡◌, ◌-◌, ◌≤◌};
ghost use Rattle.columns.specs.Figures.{scaled_by, bound_by};

use words::kinds::*;

// [13.12] 65,536 stands for every bound above 65,535.
const MOST_BOUND: usize = 65536;

// The greatest counter of a loop of n rounds.
fn last_round(n: usize) -> usize
    ensures { result ≡ n - 1 }
{
    n.saturating_sub(1)
}

// `times`, `over` or `rest` of an offset with this bound.
#[tactic(auto, unfolding(crate::specs::Figures::scaled_by))]
fn scaled(kind: u8, n: usize, bound: usize) -> usize
    requires { (n ≤ 2147483648) × (bound ≤ 4294967295) }
    ensures { result ≡ scaled_by kind n bound }
{
    match kind {
        WORD_TIMES => n * bound,
        WORD_OVER => bound.checked_div(n).unwrap_or(0),
        _ => bound.min(last_round(n)),
    }
}

// From the rounds of the loop that the row names and the bounds of its operands. Where that of one is above 65,535, so is the row's.
#[tactic(auto, unfolding(crate::specs::Figures::bound_by))]
pub fn row_bound(kind: u8, n: usize, rounds: usize, first: usize, second: usize) -> usize
    requires { (n ≤ 2147483648) × (first ≤ 4294967295) × (second ≤ 4294967295) }
    ensures { (result ≡ bound_by kind n rounds first second) × (result ≤ 4294967295) }
{
    let bound = match kind {
        WORD_LIT => n,
        WORD_CTR => last_round(rounds),
        WORD_PLUS => first + second,
        _ if 65535 < first => MOST_BOUND,
        _ => scaled(kind, n, first),
    };
    bound.min(MOST_BOUND)
}
