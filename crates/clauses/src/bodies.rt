// Into and out of the loops of maps [6.7] and of reductions [6.14], whose bodies have variables of their own.
ghost use Rattle.std.specs.Prelude.{◌≡◌, ◌+◌, ◌≤◌, ◌<◌, length};
ghost use Rattle.meaning.specs.Types.{is_number};
ghost use Rattle.type_table.specs.Table.{type_at, Sound};
ghost use Rattle.emission.specs.References.{expression_at, acceptor_at};
ghost use Rattle.clauses.specs.Clauses.{map_loop, map_rows, body_region, next_rows, entered_rows, left_rows, MapEntered, ReductionPushed, ReductionBegun, InRound, ReductionEntered, ReductionLeft};

use crate::{Head, State, Translated, array_length, put_region};
use emission::assign::{Ends, put_assign};
use emission::references::{push, push_stored};
use emission::rows::Rows;
use emission::sources::{InForce, Made, Source};
use words::kinds::*;

// [6.7] The loop that a map becomes, [18.12] a `mapvec` a `lanes`.
fn map_loop(kind: u8) -> u8
    ensures { result ≡ map_loop kind }
{
    match kind {
        WORD_MAPPAR => WORD_PAR,
        WORD_MAPVEC => WORD_LANES,
        _ => WORD_FOR,
    }
}

// [6.7] Into the loop of a map that is written where node `target` says: node `used.len` is the element that was used, the body's
// variable, and the node behind it the place where the body is written.
pub fn enter_map(
    types: &[u64],
    made: &mut Made,
    head: Head,
    target: usize,
    state: State,
    used: Translated,
) -> State
    requires { Sound types.now (length types.now) × (head.place < length types.now) × (used.value < used.len) × (target < used.len)
        × (used.len + 2 ≤ 1024) × (state.counters < 65535) × (state.count < 16) }
    ensures made { MapEntered made.old.references made.new.references target state used result }
    ensures rows { made.new.rows ≡ map_rows head.kind (type_at types.now head.place) made.old.rows }
{
    made.rows
        .put_count(map_loop(head.kind), array_length(types, head.place));
    push(
        &mut made.references,
        used.len,
        WORD_CTR,
        state.counters,
        used.value,
        0,
    );
    push(
        &mut made.references,
        used.len + 1,
        WORD_CTR,
        state.counters,
        target,
        0,
    );
    let mut variables = state.variables;
    variables[state.count] = used.len as u16;
    State {
        counters: state.counters + 1,
        regions: used.regions,
        variables,
        count: state.count + 1,
        len: used.len + 2,
    }
}

// [6.14] A reduction: the place of its type, its rounds, and the node that reads its array.
#[derive(Clone, Copy)]
pub struct Reduction {
    pub place: usize,
    pub rounds: u16,
    pub array: usize,
}

// [6.14] Whether the total of a reduction, whose type is at a place, is a number: its body is then written into the total itself. Any other
// body may still read the total as it writes ([14.5]).
fn total_is_number(types: &[u64], place: usize) -> bool
    requires { Sound types.now (length types.now) × (place < length types.now) }
    ensures { result ≡ is_number (type_at types.now place) }
{
    type_table::is_number(types, place)
}

// [6.14] The region that its body is written into, where so many are in force before: the total, or next.
fn body_region(types: &[u64], place: usize, regions: u16) -> u16
    requires { Sound types.now (length types.now) × (place < length types.now) × (regions < 65535) }
    ensures { result ≡ body_region (type_at types.now place) regions }
{
    if total_is_number(types, place) {
        regions
    } else {
        regions + 1
    }
}

// [6.14] The nodes of a reduction: its total, the element of the array at a counter, and the region that its body is written into.
fn push_reduction(
    references: &mut [u64; 1024],
    reduction: Reduction,
    in_force: InForce,
    region: u16,
    len: usize,
)
    requires { (reduction.place < 65536) × (reduction.array < len) × (len + 3 ≤ 1024) }
    ensures { ReductionPushed references.old references.new reduction.place reduction.array in_force.counters in_force.regions region len }
{
    push_stored(references, len, WORD_LOC, in_force.regions, reduction.place);
    push(
        references,
        len + 1,
        WORD_CTR,
        in_force.counters,
        reduction.array,
        0,
    );
    push_stored(references, len + 2, WORD_LOC, region, reduction.place);
}

// [6.14] The rows that open next, of the type at a place, in a round: none for a number.
fn put_next_region(types: &[u64], rows: &mut Rows, place: usize)
    requires { Sound types.now (length types.now) × (place < length types.now) }
    ensures { rows.new ≡ next_rows (type_at types.now place) rows.old }
{
    if !total_is_number(types, place) {
        put_region(types, rows, place);
    }
}

// [6.14] The nodes of a reduction and its rows as far as its body, within so many counters: the start, which was used, is assigned to the
// total; then come the rounds, whose body is written into `region`.
fn begin_reduction(
    source: Source<'_>,
    made: &mut Made,
    reduction: Reduction,
    counters: u16,
    region: u16,
    start: Translated,
)
    requires { Sound source.types.now (length source.types.now) × (reduction.place < length source.types.now) × (reduction.array < start.len)
        × (start.value < start.len) × (start.len + 19 ≤ 1024) × (counters + 8 < 65536) × (start.regions + 2 < 65536) }
    ensures made { ReductionBegun made.old.references made.new.references reduction.place reduction.array counters start.regions region start.len }
    ensures rows { made.new.rows ≡ entered_rows (type_at source.entry.types.now reduction.place) reduction.rounds
        (expression_at source.entry.types.now source.entry.plan.now made.old.references start.value) counters start.regions made.old.rows }
{
    let before = InForce {
        counters,
        regions: start.regions,
    };
    push_reduction(&mut made.references, reduction, before, region, start.len);
    put_region(source.types, &mut made.rows, reduction.place);
    let ends = Ends {
        value: start.value,
        target: start.len,
    };
    let inside = InForce {
        counters,
        regions: start.regions + 1,
    };
    put_assign(source, made, reduction.place, ends, inside, start.len + 3);
    made.rows.put_count(WORD_SEQ, 0);
    made.rows.put_count(WORD_FOR, reduction.rounds);
    put_next_region(source.types, &mut made.rows, reduction.place);
}

// [3.10], [14.8] In its round, whose body is written into `region`, the innermost: the body's variables are the total, innermost, and the
// element.
fn in_round(state: State, start: Translated, region: u16) -> State
    requires { (start.len + 3 ≤ 1024) × (state.counters + 1 < 65536) × (region + 1 < 65536) × (state.count + 1 < 16) }
    ensures { InRound state start region result }
{
    let mut variables = state.variables;
    variables[state.count] = (start.len + 1) as u16;
    variables[state.count + 1] = start.len as u16;
    State {
        counters: state.counters + 1,
        regions: region + 1,
        variables,
        count: state.count + 2,
        len: start.len + 3,
    }
}

// [6.14] Into the loop of a reduction: both. Node `start.len + 2` is where the body is written.
pub fn enter_reduction(
    source: Source<'_>,
    made: &mut Made,
    reduction: Reduction,
    state: State,
    start: Translated,
) -> State
    requires { Sound source.types.now (length source.types.now) × (reduction.place < length source.types.now) × (reduction.array < start.len)
        × (start.value < start.len) × (start.len + 19 ≤ 1024) × (state.counters + 8 < 65536) × (start.regions + 2 < 65536)
        × (state.count + 1 < 16) }
    ensures made { ReductionEntered made.old.references made.new.references reduction.place reduction.array
        (body_region (type_at source.entry.types.now reduction.place) start.regions) state start result }
    ensures rows { made.new.rows ≡ entered_rows (type_at source.entry.types.now reduction.place) reduction.rounds
        (expression_at source.entry.types.now source.entry.plan.now made.old.references start.value) state.counters start.regions made.old.rows }
{
    let region = body_region(source.types, reduction.place, start.regions);
    begin_reduction(source, made, reduction, state.counters, region, start);
    in_round(state, start, region)
}

// [6.14] Out of it, whose body began `at` rows later: next, node `start.len + 2`, is assigned to the total, node `start.len`, unless that is
// a number, which stands there already. The total is what is read of the reduction.
// Seven parameters, of three moments: none of them is handed on together with another.
pub fn leave_reduction(
    source: Source<'_>,
    made: &mut Made,
    place: usize,
    state: State,
    start: Translated,
    at: usize,
    body: Translated,
) -> Translated
    requires { Sound source.types.now (length source.types.now) × (place < length source.types.now) × (start.len + 2 < body.len)
        × (body.len + 16 ≤ 1024) × (state.counters + 9 < 65536) × (start.regions + 2 < 65536) × (at ≤ 65535) × (body.rows ≤ 65535) }
    ensures made { ReductionLeft made.old.references made.new.references start.len start.regions at body result }
    ensures rows { made.new.rows ≡ left_rows (type_at source.entry.types.now place)
        (expression_at source.entry.types.now source.entry.plan.now made.old.references (start.len + 2)) (acceptor_at source.entry.types.now made.old.references start.len)
        state.counters start.regions made.old.rows }
{
    let total = start.len;
    let left = Translated {
        rows: at + body.rows,
        value: total,
        regions: start.regions + 1,
        len: body.len,
    };
    // Named here, since the proof reads the length of the references where the field is named.
    let _ = &made.references;
    if total_is_number(source.types, place) {
        return left;
    }
    let ends = Ends {
        value: total + 2,
        target: total,
    };
    let inside = InForce {
        counters: state.counters + 1,
        regions: start.regions + 2,
    };
    put_assign(source, made, place, ends, inside, body.len);
    left
}
