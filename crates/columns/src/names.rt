// [3.16] What `ctr` and `loc` rows name: one pass from the first row to the last, with a stack of the loops around a row and one of the
// regions in force.
ghost use Rattle.std.specs.Prelude.{◌≡◌, ◌∷◌, ◌+◌, ◌≤◌, ◌<◌, pos, length, get_or, drop, nat_lt, position, ℕ};
ghost use Rattle.meaning.specs.Runs.{entry as entry_of};
ghost use Rattle.syntax.specs.Ranges.{as_natural};
ghost use Rattle.columns.specs.Names.{closing, opens_by, region_words, numbers_of, Passed, Noted, Named};

use crate::entries::{number_at, row_at};
use words::groups::is_loop;
use words::kinds::*;

// The first of these rows that ends behind row q.
fn first_open(ends: &[u16], rows: &[u16], q: usize) -> Option<usize>
    ensures { result ≡ position (λ (j : ℕ). nat_lt q (get_or ends.now j 0)) rows.now }
{
    rows.iter()
        .position(|row| q < row_at(ends, usize::from(*row)))
}

// A stack stays a lent column and its top, with no struct around them: `decoding` too calls `closed` and `push`, with columns of its own.

// The rows that opened what is in force are stack[top..], innermost first: the new top without those that end at row q or before it.
pub fn closed(ends: &[u16], stack: &[u16], top: usize, q: usize) -> usize
    requires { top ≤ length stack.now }
    ensures bound { (top ≤ result) × (result ≤ length stack.now) }
    ensures result { drop result stack.now ≡ closing ends.now q (drop top stack.now) }
{
    match first_open(ends, &stack[top..], q) {
        Some(place) => top + place,
        None => stack.len(),
    }
}

// Row q is put on top: the new top.
pub fn push(stack: &mut [u16], top: usize, q: usize) -> usize
    requires { (1 ≤ top) × (top ≤ length stack.old) × (q ≤ 4095) }
    ensures kept { (length stack.new ≡ length stack.old) × (result + 1 ≡ top) }
    ensures result { drop result stack.new ≡ q ∷ drop top stack.old }
{
    let inner = top - 1;
    stack[inner] = q as u16;
    inner
}

// The number of the row that name d stands for, innermost first.
#[tactic(auto, using(crate::proofs::Stacks::named_there, crate::proofs::Stacks::named_past))]
fn called(numbers: &[i32], stack: &[u16], top: usize, d: usize) -> usize
    requires { top ≤ length stack.now }
    ensures { (result ≡ entry_of (numbers_of numbers.now (drop top stack.now)) d) × (result ≤ 2147483648) }
{
    match stack[top..].get(d) {
        Some(row) => number_at(numbers, usize::from(*row)),
        None => 0,
    }
}

// Whether a row opens a region.
#[tactic(auto, unfolding(words::specs::Groups::one_of))]
fn opens_region(kind: u8) -> bool
    ensures { result ≡ opens_by region_words kind }
{
    kind == WORD_NEW
}

// Row q opens a name, or has one, whose number is put into `named`, or neither; the new top. What has ended is closed where the stack is
// used, and not before.
// Eight parameters: counters and regions are two passes, each with a stack and a column of its own; a struct would be used nowhere else.
#[tactic(auto, using(crate::proofs::Stacks::row_opens, crate::proofs::Stacks::row_names, crate::proofs::Stacks::row_neither))]
fn follow(
    numbers: &[i32],
    ends: &[u16],
    stack: &mut [u16],
    top: usize,
    opens: bool,
    names: bool,
    q: usize,
    named: &mut [u32],
) -> usize
    requires { (1 ≤ top) × (top ≤ length stack.old) × (q ≤ 4095) × (q < length named.old) }
    ensures kept { (length stack.new ≡ length stack.old) × (length named.new ≡ length named.old)
        × (result ≤ length stack.old) × (top ≤ result + 1) }
    ensures stack { Passed ends.now q opens (drop top stack.old) (drop result stack.new) }
    ensures named { Noted names opens q (entry_of (numbers_of numbers.now (closing ends.now q (drop top stack.old)))
        (as_natural (get_or numbers.now q (pos 0)))) named.old named.new }
{
    if opens {
        let open = closed(ends, stack, top, q);
        push(stack, open, q)
    } else if names {
        let open = closed(ends, stack, top, q);
        named[q] = called(numbers, stack, open, number_at(numbers, q)) as u32;
        open
    } else {
        top
    }
}

// Puts at every `ctr` row the rounds of the loop that it names, at every `loc` row the cells of the region.
#[tactic(auto, using(crate::proofs::Naming::stack_begin, crate::proofs::Naming::naming_begin, crate::proofs::Naming::stack_again, crate::proofs::Naming::naming_again))]
pub fn fill(
    kinds: &[u8],
    numbers: &[i32],
    ends: &[u16],
    counters: &mut [u16],
    regions: &mut [u16],
    named: &mut [u32],
)
    requires { (length kinds.now ≤ 4096) × (length kinds.now ≤ length counters.old) × (length kinds.now ≤ length regions.old) × (length kinds.now ≤ length named.old) }
    ensures kept { (length counters.new ≡ length counters.old) × (length regions.new ≡ length regions.old)
        × (length named.new ≡ length named.old) }
    ensures result { Named kinds.now numbers.now ends.now named.new }
{
    let mut counter = counters.len();
    let mut region = regions.len();
    for q in 0..kinds.len() {
        let kind = kinds[q];
        counter = follow(
            numbers,
            ends,
            counters,
            counter,
            is_loop(kind),
            kind == WORD_CTR,
            q,
            named,
        );
        region = follow(
            numbers,
            ends,
            regions,
            region,
            opens_region(kind),
            kind == WORD_LOC,
            q,
            named,
        );
    }
}
