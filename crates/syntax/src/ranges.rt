// The range of each word's number: [10.5].
ghost use Rattle.std.specs.Prelude.{◌≡◌, ◌&&◌, ◌≤◌, leb};
ghost use Rattle.words.specs.Groups.{one_of};
ghost use Rattle.syntax.specs.Ranges.{as_natural, sizes, wide, widths, literal_in_range, in_range};

use crate::names::Names;
use words::Sort;
use words::kinds::*;

// A row's number as a natural number: a negative one, which only a literal may have, lies beyond every limit.
pub fn natural(number: i32) -> usize
    ensures { (result ≡ as_natural number) × (result ≤ 2147483648) }
{
    usize::try_from(number).unwrap_or(2147483648)
}

// [13.7] Whether a row of this kind has a size as its number.
#[tactic(auto, unfolding(words::specs::Groups::one_of))]
fn is_size(kind: u8) -> bool
    ensures { result ≡ one_of kind sizes }
{
    matches!(
        kind,
        WORD_ARR
            | WORD_SPLIT
            | WORD_FOR
            | WORD_PAR
            | WORD_NEW
            | WORD_CELLS
            | WORD_TIMES
            | WORD_OVER
            | WORD_REST
    )
}

// [13.19] Whether it has a width.
#[tactic(auto, unfolding(words::specs::Groups::one_of))]
fn is_wide(kind: u8) -> bool
    ensures { result ≡ one_of kind wide }
{
    matches!(kind, WORD_VEC | WORD_ASVEC | WORD_LANES)
}

#[tactic(auto, unfolding(words::specs::Groups::one_of))]
fn is_width(number: usize) -> bool
    ensures { result ≡ one_of number widths }
{
    matches!(number, 2 | 4 | 8 | 16)
}

// [13.7] A size, or a count.
fn is_count(number: usize) -> bool
    ensures { result ≡ leb 1 number && leb number 4096 }
{
    (1..=4096).contains(&number)
}

// [13.8] A literal of an offset is a position; any other is free.
fn literal_in_range(sort: Sort, number: usize) -> bool
    ensures { result ≡ literal_in_range sort number }
{
    !matches!(sort, Sort::Offset) || number <= 4095
}

// [10.5] Is the number in the range of its word?
#[tactic(auto, unfolding(crate::specs::Ranges::in_range, words::specs::Groups::one_of))]
pub fn in_range(sort: Sort, names: Names, kind: u8, number: usize) -> bool
    ensures { result ≡ in_range sort names kind number }
{
    match kind {
        WORD_PLAN | WORD_LOOPS => number <= 8,
        WORD_IDX => number <= 4095,
        WORD_AT => number <= 15,
        WORD_IN => number < names.inputs,
        WORD_VAR => number < names.variables,
        WORD_CTR => number < names.counters,
        WORD_LOC => number < names.regions,
        WORD_LIT => literal_in_range(sort, number),
        _ if is_size(kind) => is_count(number),
        _ if is_wide(kind) => is_width(number),
        _ => number == 0,
    }
}
