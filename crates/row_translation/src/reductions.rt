// Using a reduction: [6.14].
ghost use Rattle.std.specs.Prelude.{◌≡◌, ◌≤◌, length, get_or};
ghost use Rattle.words.specs.Kinds.{word_redseq};
ghost use Rattle.row_translation.specs.WriteAndUse.{SomeRows, CountsRows, UseReady, UseMade};

use crate::terms::TermRows;
use crate::{uses, writes};
use clauses::bodies::Reduction;
use clauses::{State, Translated, bodies};
use emission::sources::{Made, Source};
use words::groups::{has_one_operand, is_leaf};
use words::kinds::*;

// [1.7] How many rows the term has whose kinds stand in front.
fn rows_of(kinds: &[u8]) -> usize
    requires { (length kinds.now ≤ 65536) × SomeRows kinds.now }
    ensures { CountsRows kinds.now result }
{
    let kind = kinds[0];
    if is_leaf(kind) {
        return 1;
    }
    let one = 1 + rows_of(&kinds[1..]);
    if has_one_operand(kind) {
        return one;
    }
    let two = one + rows_of(&kinds[one..]);
    if kind != WORD_REDSEQ {
        return two;
    }
    two + rows_of(&kinds[two..])
}

// [6.14] The array is used, then the start, then come the rounds. The start's rows are the first behind its own, the array's next.
#[cycle(use_reduce_use_term_write_map_write_term)]
pub fn use_reduce(
    term: TermRows<'_>,
    source: Source<'_>,
    made: &mut Made,
    state: State,
) -> Translated
    requires { (get_or term.kinds.now 0 0 ≡ word_redseq) × UseReady term source made.old.references state }
    ensures { UseMade term.entry source.entry state made.old made.new result }
{
    let first = 1;
    let from = first + rows_of(&term.kinds[first..]);
    let array = uses::use_term(term.from(from), source, made, state);
    let behind = clauses::after_use(state, array);
    let start = uses::use_term(term.from(first), source, made, behind);
    let reduction = Reduction {
        place: term.place_at(0),
        rounds: clauses::array_length(source.types, term.place_at(from)),
        array: array.value,
    };
    let inside = bodies::enter_reduction(source, made, reduction, state, start);
    let at = from + array.rows;
    let body = writes::write_term(term.from(at), source, made, start.len + 2, inside);
    bodies::leave_reduction(source, made, reduction.place, state, start, at, body)
}
