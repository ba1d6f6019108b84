// What one word of a term does in the translation, around the calls for its operands. Here are the clauses of using a term
// ([6.12] to [6.15]): its node over those of its operands, the region of a used map, and where the translation goes on.
#![tactic(auto)]

ghost use Rattle.std.specs.Prelude.{◌≡◌, ◌+◌, ◌≤◌, ◌<◌, length};
ghost use Rattle.words.specs.Kinds.{word_kind_in, word_var};
ghost use Rattle.meaning.specs.Types.{array_length, element as elementType};
ghost use Rattle.type_table.specs.Table.{type_at, Sound};
ghost use Rattle.clauses.specs.Clauses.{node_kind, number_over, region_rows};
ghost use Rattle.clauses.specs.Clauses.{NodeUsed, LeafUsed, OverOne, OverTwo, RegionOpened, RegionUsed, AfterUse, Later};

use emission::elements::as_elements;
use emission::references::{push, push_stored};
use emission::rows::Rows;
use emission::sources::Made;
use words::kinds::*;

pub mod bodies;
pub mod parts;

// Where the translation stands: the counters and regions in force, the nodes that the variables read (innermost last), and the nodes
// made.
#[derive(Clone, Copy)]
pub struct State {
    pub counters: u16,
    pub regions: u16,
    pub variables: [u16; 16],
    pub count: usize,
    pub len: usize,
}

// What writing or using a term gives: the rows that it passed, the node that reads what was used, the regions in force and the nodes
// made.
#[derive(Clone, Copy)]
pub struct Translated {
    pub rows: usize,
    pub value: usize,
    pub regions: u16,
    pub len: usize,
}

// What a term's first row says: its word, its number, and the place of the term's type.
#[derive(Clone, Copy)]
pub struct Head {
    pub kind: u8,
    pub number: usize,
    pub place: usize,
}

// The length of the type at a place, [18.13] of a vector its width; 0 where it is neither.
pub fn array_length(types: &[u64], place: usize) -> u16
    requires { Sound types.now (length types.now) × (place < length types.now) }
    ensures { result ≡ array_length (type_at types.now place) }
{
    let Some(elements) = as_elements(types, place) else {
        return 0;
    };
    elements.length as u16
}

// [6.22] The length of its elements: of a `join`'s operand the length of a group, [18.13] of an `asscal`'s the width, by which an index is
// divided ([14.4]).
pub fn group_length(types: &[u64], place: usize) -> u16
    requires { Sound types.now (length types.now) × (place < length types.now) }
    ensures { result ≡ array_length (elementType (type_at types.now place)) }
{
    let Some(array) = type_table::as_array(types, place) else {
        return 0;
    };
    array_length(types, array.element)
}

// [18.12] The word of arrays whose node a word of vectors makes: `split` for `asvec`, `join` for `asscal`, `idx` for `at`.
pub fn node_kind(kind: u8) -> u8
    ensures { result ≡ node_kind kind }
{
    match kind {
        WORD_ASVEC => WORD_SPLIT,
        WORD_ASSCAL => WORD_JOIN,
        WORD_AT => WORD_IDX,
        _ => kind,
    }
}

// [6.22] The number of the node of a term with one operand, whose type is at a place: a `join` has the length of a group, [18.13] an `asscal`
// the width.
pub fn node_number(head: Head, types: &[u64], place: usize) -> u16
    requires { Sound types.now (length types.now) × (place < length types.now) × (head.number < 65536) }
    ensures { result ≡ number_over head.kind head.number (type_at types.now place) }
{
    if node_kind(head.kind) == WORD_JOIN {
        return group_length(types, place);
    }
    head.number as u16
}

// A use that made node `state.len`.
fn node_used(state: State) -> Translated
    requires { state.len < 1024 }
    ensures { NodeUsed state result }
{
    Translated {
        rows: 1,
        value: state.len,
        regions: state.regions,
        len: state.len + 1,
    }
}

// [6.12] A use of an input, a variable or a literal, which stands in row `row` of the plan.
pub fn leaf(references: &mut [u64; 1024], head: Head, row: usize, state: State) -> Translated
    requires { (1 ≤ state.len) × (state.len < 1024) × (head.place < 65536) × (row < 65536)
        × (head.kind ≡ word_kind_in → head.number < 65536) × (head.kind ≡ word_var → head.number < state.count) × (state.count ≤ 16) }
    ensures { LeafUsed references.old references.new head.kind head.number head.place row state result }
{
    match head.kind {
        WORD_VAR => Translated {
            rows: 1,
            value: state.variables[state.count - (head.number + 1)] as usize,
            regions: state.regions,
            len: state.len,
        },
        WORD_IN => {
            push_stored(
                references,
                state.len,
                WORD_IN,
                head.number as u16,
                head.place,
            );
            node_used(state)
        }
        _ => {
            push_stored(references, state.len, WORD_LIT, row as u16, 0);
            node_used(state)
        }
    }
}

// [6.15] A node over the one that was used, [18.12] of a word of vectors that of the word of arrays.
pub fn over_one(references: &mut [u64; 1024], kind: u8, number: u16, one: Translated) -> Translated
    requires { (one.value < one.len) × (one.len < 1024) × (one.rows ≤ 65535) }
    ensures { OverOne references.old references.new (node_kind kind) number one result }
{
    push(references, one.len, node_kind(kind), number, one.value, 0);
    Translated {
        rows: 1 + one.rows,
        value: one.len,
        len: one.len + 1,
        ..one
    }
}

// [6.15] A node over the two that were used, one after the other.
pub fn over_two(
    references: &mut [u64; 1024],
    kind: u8,
    one: Translated,
    two: Translated,
) -> Translated
    requires { (one.value < two.len) × (two.value < two.len) × (two.len < 1024) × (one.rows ≤ 65535) × (two.rows ≤ 65535) }
    ensures { OverTwo references.old references.new kind one two result }
{
    push(references, two.len, kind, 0, one.value, two.value);
    Translated {
        rows: 1 + one.rows + two.rows,
        value: two.len,
        len: two.len + 1,
        ..two
    }
}

// [6.13], [6.14] The rows that open a region of the type at a place: `new`, and a `seq` whose first command fills it.
pub fn put_region(types: &[u64], rows: &mut Rows, place: usize)
    requires { Sound types.now (length types.now) × (place < length types.now) }
    ensures { rows.new ≡ region_rows (type_at types.now place) rows.old }
{
    rows.put_cells(types, WORD_NEW, place);
    rows.put_count(WORD_SEQ, 0);
}

// [6.13] A region for a used map whose type is at a place: node `state.len` is where the map is written.
pub fn open_region(types: &[u64], made: &mut Made, place: usize, state: State) -> State
    requires { Sound types.now (length types.now) × (place < length types.now) × (1 ≤ state.len) × (state.len < 1024)
        × (state.regions < 65535) }
    ensures made { RegionOpened made.old.references made.new.references place state result }
    ensures rows { made.new.rows ≡ region_rows (type_at types.now place) made.old.rows }
{
    push_stored(
        &mut made.references,
        state.len,
        WORD_LOC,
        state.regions,
        place,
    );
    put_region(types, &mut made.rows, place);
    State {
        regions: state.regions + 1,
        len: state.len + 1,
        ..state
    }
}

// The region that was opened before `state` is read.
pub fn region_used(state: State, written: Translated) -> Translated
    requires { state.regions < 65535 }
    ensures { RegionUsed state written result }
{
    Translated {
        value: state.len,
        regions: state.regions + 1,
        ..written
    }
}

// [6.2] The translation goes on behind a use, within C: the regions that it opened are in force.
pub fn after_use(state: State, used: Translated) -> State
    ensures { AfterUse state used result }
{
    State {
        regions: used.regions,
        len: used.len,
        ..state
    }
}

// What writing or using a term gave that began `rows` rows later.
pub fn later(rows: usize, translated: Translated) -> Translated
    requires { (rows ≤ 65535) × (translated.rows ≤ 65535) }
    ensures { Later rows translated result }
{
    Translated {
        rows: rows + translated.rows,
        ..translated
    }
}
