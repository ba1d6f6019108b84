// Using a term: [6.12] to [6.15].
ghost use Rattle.row_translation.specs.WriteAndUse.{UseReady, UseMade};

use crate::terms::TermRows;
use crate::{reductions, writes};
use clauses::{State, Translated};
use emission::sources::{Made, Source};
use words::groups::{has_one_operand, is_leaf, is_map};
use words::kinds::*;

// Uses the term whose rows stand in front: a leaf [6.12], a map [6.13], a reduction [6.14], any other by its operands, the left one
// first [6.15].
#[cycle(use_reduce_use_term_write_map_write_term)]
pub fn use_term(term: TermRows<'_>, source: Source<'_>, made: &mut Made, state: State) -> Translated
    requires { UseReady term source made.old.references state }
    ensures { UseMade term.entry source.entry state made.old made.new result }
{
    let head = term.head();
    if is_leaf(head.kind) {
        let row = source.plan.len() - term.numbers.len();
        return clauses::leaf(&mut made.references, head, row, state);
    }
    if is_map(head.kind) {
        let opened = clauses::open_region(source.types, made, head.place, state);
        let written = writes::write_map(term, source, made, state.len, opened);
        return clauses::region_used(state, written);
    }
    if head.kind == WORD_REDSEQ {
        return reductions::use_reduce(term, source, made, state);
    }
    let one = use_term(term.from(1), source, made, state);
    if has_one_operand(head.kind) {
        let held = clauses::node_number(head, source.types, term.place_at(1));
        return clauses::over_one(&mut made.references, head.kind, held, one);
    }
    let next = clauses::after_use(state, one);
    let two = use_term(term.from(1 + one.rows), source, made, next);
    clauses::over_two(&mut made.references, head.kind, one, two)
}
