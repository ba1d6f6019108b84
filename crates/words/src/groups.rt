// Groups of words, each a list of their kinds: no test goes by the order of the words. Which of them are leaves, and which have one operand, is
// proved of the table, so that no row asks it for that.
ghost use Rattle.std.specs.Prelude.{◌≡◌};
ghost use Rattle.words.specs.Groups.{is_listed, is_leaf, has_one_operand, is_map, is_operation, is_loop};

use crate::kinds::*;

// [1.8] Whether a kind is a word's.
pub fn is_listed(kind: u8) -> bool
    ensures { result ≡ is_listed kind }
{
    (kind as usize) < WORD_COUNT
}

// [2.2] Whether a term's row of this kind has no operand.
pub fn is_leaf(kind: u8) -> bool
    ensures { result ≡ is_leaf kind }
{
    matches!(kind, WORD_IN | WORD_VAR | WORD_LIT)
}

// Whether it has one.
pub fn has_one_operand(kind: u8) -> bool
    ensures { result ≡ has_one_operand kind }
{
    matches!(
        kind,
        WORD_NEG
            | WORD_SPLIT
            | WORD_JOIN
            | WORD_FST
            | WORD_SND
            | WORD_IDX
            | WORD_ASVEC
            | WORD_ASSCAL
            | WORD_AT
    )
}

// [3.9] The maps.
#[tactic(auto, unfolding(crate::specs::Groups::one_of))]
pub fn is_map(kind: u8) -> bool
    ensures { result ≡ is_map kind }
{
    matches!(kind, WORD_MAPPAR | WORD_MAPSEQ | WORD_MAPVEC)
}

// [3.8] The operations on two numbers.
#[tactic(auto, unfolding(crate::specs::Groups::one_of))]
pub fn is_operation(kind: u8) -> bool
    ensures { result ≡ is_operation kind }
{
    matches!(
        kind,
        WORD_ADD | WORD_SUB | WORD_MUL | WORD_DIV | WORD_MIN | WORD_MAX
    )
}

// [3.13] The loops.
#[tactic(auto, unfolding(crate::specs::Groups::one_of))]
pub fn is_loop(kind: u8) -> bool
    ensures { result ≡ is_loop kind }
{
    matches!(kind, WORD_FOR | WORD_PAR | WORD_LANES)
}
