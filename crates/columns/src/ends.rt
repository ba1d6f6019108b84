// Where what stands at a row ends: one pass from the last row to the first.
ghost use Rattle.std.specs.Prelude.{◌≡◌, ℕ, suc, ◌≤◌, length, get_or};
ghost use Rattle.columns.specs.Ends.{operands_of, end_by, Ends};

use crate::entries::row_at;
use words::groups::is_operation;
use words::kinds::*;

// [2.2] How many operands a row of loops has.
#[tactic(auto, unfolding(crate::specs::Ends::operands_of))]
fn operands(kind: u8) -> usize
    ensures { result ≡ operands_of kind }
{
    match kind {
        WORD_LIT | WORD_CTR => 0,
        WORD_SET | WORD_SEQ | WORD_PLUS => 2,
        _ if is_operation(kind) => 2,
        _ => 1,
    }
}

// The row behind the operands of row q.
#[tactic(auto, unfolding(crate::specs::Ends::end_by))]
fn behind(kind: u8, q: usize, ends: &[u16]) -> usize
    requires { q ≤ 65534 }
    ensures { (result ≡ end_by (operands_of kind) (λ (p : ℕ). get_or ends.now p 0) q) × (result ≤ 65535) }
{
    match operands(kind) {
        0 => q + 1,
        1 => row_at(ends, q + 1),
        _ => row_at(ends, row_at(ends, q + 1)),
    }
}

// Puts at every row the row behind what stands there.
#[tactic(auto, using(crate::proofs::EndTrees::ends_finish))]
pub fn fill(kinds: &[u8], ends: &mut [u16])
    requires { (length kinds.now ≤ 4096) × (suc (length kinds.now) ≤ length ends.old) }
    ensures kept { length ends.new ≡ length ends.old }
    ensures result { Ends kinds.now ends.new }
{
    let rows = kinds.len();
    ends[rows] = rows as u16;
    for q in (0..rows).rev() {
        ends[q] = behind(kinds[q], q, ends) as u16;
    }
}
