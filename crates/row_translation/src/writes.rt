// Writing a term into a place: [6.4] to [6.11].
ghost use Rattle.std.specs.Prelude.{◌≡◌, true, ◌<◌, get_or};
ghost use Rattle.words.specs.Groups.{is_map};
ghost use Rattle.row_translation.specs.WriteAndUse.{WriteReady, WriteMade};

use crate::terms::TermRows;
use crate::uses;
use clauses::{State, Translated, bodies, parts};
use emission::assign::{Ends, put_assign};
use emission::sources::{InForce, Made, Source};
use words::groups::is_map;

// [6.7] A map is written: its array is used; then in a `par` (`mapseq`: a `for`, [18.12] `mapvec`: a `lanes`) the body is written into the
// place's element.
#[cycle(use_reduce_use_term_write_map_write_term)]
pub fn write_map(
    term: TermRows<'_>,
    source: Source<'_>,
    made: &mut Made,
    target: usize,
    state: State,
) -> Translated
    requires { (is_map (get_or term.kinds.now 0 0) ≡ true) × (target < state.len) × WriteReady term source made.old.references state }
    ensures { WriteMade term.entry source.entry target state made.old made.new result }
{
    let head = term.head();
    let used = uses::use_term(term.from(1), source, made, state);
    let inside = bodies::enter_map(source.types, made, head, target, state, used);
    let at = 1 + used.rows;
    let body = write_term(term.from(at), source, made, used.len + 1, inside);
    clauses::later(at, body)
}

// Writes the term whose rows stand in front into the place at node `target`: a map [6.7], `zip` or `pair` [6.9], `split` or `join`
// [6.10], [18.12] `asvec` or `asscal`. Any other is used and then assigned: [6.4], [6.5], [6.6], [6.8], [6.11].
#[cycle(use_reduce_use_term_write_map_write_term)]
pub fn write_term(
    term: TermRows<'_>,
    source: Source<'_>,
    made: &mut Made,
    target: usize,
    state: State,
) -> Translated
    requires { (target < state.len) × WriteReady term source made.old.references state }
    ensures { WriteMade term.entry source.entry target state made.old made.new result }
{
    let head = term.head();
    if is_map(head.kind) {
        return write_map(term, source, made, target, state);
    }
    if parts::is_paired(head.kind) {
        let first = parts::into_first(made, head.kind, target, state);
        let one = write_term(term.from(1), source, made, state.len, first);
        let at = 1 + one.rows;
        let second = parts::into_second(&mut made.references, head.kind, target, state, one);
        let two = write_term(term.from(at), source, made, one.len, second);
        return clauses::later(at, two);
    }
    if parts::is_regrouped(head.kind) {
        let held = clauses::node_number(head, source.types, term.place_at(1));
        let inside = parts::into_part(
            &mut made.references,
            parts::regrouped(head.kind),
            held,
            target,
            state,
        );
        let one = write_term(term.from(1), source, made, state.len, inside);
        return clauses::later(1, one);
    }
    let used = uses::use_term(term, source, made, state);
    let ends = Ends {
        value: used.value,
        target,
    };
    let in_force = InForce {
        counters: state.counters,
        regions: used.regions,
    };
    put_assign(source, made, head.place, ends, in_force, used.len);
    used
}
