// The types that rows spell and the types of terms ([5.1]), found by recursion over the rows, operands first ([5.11]).
ghost use Rattle.std.specs.Prelude.{◌≡◌, List, suc, ◌+◌, ◌-◌, ◌*◌, ◌≤◌, ◌<◌, length};
ghost use Rattle.words.specs.Kinds.{word_kind_in, word_var};
ghost use Rattle.meaning.specs.Types.{DataType, number};
ghost use Rattle.meaning.specs.Terms.{Term};
ghost use Rattle.meaning.specs.Rows.{type_rows, term_rows};
ghost use Rattle.type_table.specs.Table.{type_at};
ghost use Rattle.typing.specs.Check.{check, check_type};
ghost use Rattle.type_rules.specs.Rules.{Room, Found};
ghost use Rattle.row_typing.specs.Terms.{TypeStands, Stands, Place, TermFound, FirstTyped, SecondTyped, place_found, with_type, leaf_place};

use refusals::Refusal;
use type_rules::scope::Scope;
use type_rules::{Row, Typed, rules};
use words::groups::{has_one_operand, is_leaf};
use words::kinds::*;

// The type that the rows in front spell, the first of them being this row of the plan. [18.1] A vector of a width that there is fits.
#[tactic(auto, using(crate::proofs::TypeLaws::type_there))]
pub fn type_rows(
    kinds: &[u8],
    numbers: &[i32],
    row: usize,
    types: &mut [u64],
    len: usize,
) -> Result<Typed, Refusal>
    requires { (row + length kinds.now ≤ 65536) × Room types.old len (length kinds.now) × (1 ≤ len)
        × (type_at types.old 0 ≡ number) × ((t : DataType) × TypeStands kinds.now numbers.now t) }
    ensures { (t : DataType) → TypeStands kinds.now numbers.now t
        → Found types.old len types.new (len + length (type_rows t)) (length (type_rows t)) (check_type t (row + 1)) result }
{
    let kind = kinds[0];
    let line = row + 1;
    if kind == WORD_NUM {
        return Ok(Typed {
            place: type_table::NUMBER_TYPE,
            rows: 1,
            len,
        });
    }
    if kind == WORD_VEC {
        let width = syntax::ranges::natural(numbers[0]);
        type_table::put_vector(types, len, width);
        return Ok(Typed {
            place: len,
            rows: 1,
            len: len + 1,
        });
    }
    let one = type_rows(&kinds[1..], &numbers[1..], line, types, len)?;
    let at = 1 + one.rows;
    if kind == WORD_ARR {
        let count = syntax::ranges::natural(numbers[0]);
        let own = Row {
            len: one.len,
            rows: at,
            line,
        };
        return rules::sized_array(types, own, count, one.place);
    }
    let two = type_rows(&kinds[at..], &numbers[at..], row + at, types, one.len)?;
    let own = Row {
        len: two.len,
        rows: at + two.rows,
        line,
    };
    rules::sized_pair(types, own, one.place, two.place)
}

// Notes the type that was found at its row.
fn put_type(
    column: &mut [u16],
    row: usize,
    answer: Result<Typed, Refusal>,
) -> Result<Typed, Refusal>
    requires { (row < length column.old) × (place_found answer < 65536) }
    ensures { (result ≡ answer) × (column.new ≡ with_type column.old row answer) }
{
    let found = answer?;
    column[row] = found.place as u16;
    answer
}

// [5.2] The place of the type of `in`, `var` and `lit`.
fn leaf_place(kind: u8, number: usize, scope: Scope) -> usize
    requires { (kind ≡ word_kind_in → number < 8) × (kind ≡ word_var → number < scope.count) × (scope.count ≤ 16) }
    ensures { result ≡ leaf_place kind number scope }
{
    if kind == WORD_IN {
        return scope.inputs[number] as usize;
    }
    if kind == WORD_VAR {
        return scope.variables[scope.count - (number + 1)] as usize;
    }
    type_table::NUMBER_TYPE
}

// The type of the term whose rows stand in front, the first of them being this row of the plan; it is noted, and so are those of
// all its rows.
#[cycle(type_body_type_of_type_second)]
pub fn type_of(
    kinds: &[u8],
    numbers: &[i32],
    row: usize,
    scope: Scope,
    types: &mut [u64],
    len: usize,
    column: &mut [u16],
) -> Result<Typed, Refusal>
    requires { Place kinds.now types.old len column.old row (2 * length kinds.now)
        × ((I : List DataType) × (Γ : List DataType) × (e : Term) × Stands kinds.now numbers.now types.old len scope I Γ e) }
    ensures { (I Γ : List DataType) (e : Term) → Stands kinds.now numbers.now types.old len scope I Γ e
        → TermFound types.old len column.old types.new column.new row I Γ e (len + 2 * length (term_rows e)) (check I Γ e (row + 1)) result }
{
    let kind = kinds[0];
    let number = syntax::ranges::natural(numbers[0]);
    let line = row + 1;
    if is_leaf(kind) {
        let place = leaf_place(kind, number, scope);
        return put_type(
            column,
            row,
            Ok(Typed {
                place,
                rows: 1,
                len,
            }),
        );
    }
    let first = type_of(&kinds[1..], &numbers[1..], line, scope, types, len, column)?;
    if has_one_operand(kind) {
        let own = Row {
            len: first.len,
            rows: 1 + first.rows,
            line,
        };
        let answer = rules::unary(kind, number, types, own, first.place);
        return put_type(column, row, answer);
    }
    type_second(kinds, numbers, row, scope, types, column, first)
}

// The same, of a term whose first operand has its type found: its second operand begins behind the first's rows.
#[cycle(type_body_type_of_type_second)]
fn type_second(
    kinds: &[u8],
    numbers: &[i32],
    row: usize,
    scope: Scope,
    types: &mut [u64],
    column: &mut [u16],
    first: Typed,
) -> Result<Typed, Refusal>
    requires { Place kinds.now types.old first.len column.old row (2 * (suc (length kinds.now) - (1 + first.rows)))
        × ((I : List DataType) × (Γ : List DataType) × (e : Term) × Stands kinds.now numbers.now types.old first.len scope I Γ e
        × FirstTyped types.old first.len column.old row I Γ e first.place (1 + first.rows)) }
    ensures { (I Γ : List DataType) (e : Term) → Stands kinds.now numbers.now types.old first.len scope I Γ e
        → FirstTyped types.old first.len column.old row I Γ e first.place (1 + first.rows)
        → TermFound types.old first.len column.old types.new column.new row I Γ e
        (first.len + 2 * (suc (length (term_rows e)) - (1 + first.rows))) (check I Γ e (row + 1)) result }
{
    let kind = kinds[0];
    let line = row + 1;
    let at = 1 + first.rows;
    let inner = scope.second(kind, types, first.place, line)?;
    let second = type_of(
        &kinds[at..],
        &numbers[at..],
        row + at,
        inner,
        types,
        first.len,
        column,
    )?;
    if kind == WORD_REDSEQ {
        return type_body(kinds, numbers, row, scope, types, column, first, second);
    }
    let own = Row {
        len: second.len,
        rows: at + second.rows,
        line,
    };
    let answer = rules::binary(kind, types, own, first.place, second.place);
    put_type(column, row, answer)
}

// The same, of a reduction whose start and array have their types found: its body begins behind their rows.
#[cycle(type_body_type_of_type_second)]
fn type_body(
    kinds: &[u8],
    numbers: &[i32],
    row: usize,
    scope: Scope,
    types: &mut [u64],
    column: &mut [u16],
    start: Typed,
    array: Typed,
) -> Result<Typed, Refusal>
    requires { Place kinds.now types.old array.len column.old row (2 * (suc (length kinds.now) - (1 + start.rows + array.rows)))
        × ((I : List DataType) × (Γ : List DataType) × (e : Term) × Stands kinds.now numbers.now types.old array.len scope I Γ e
        × SecondTyped types.old array.len column.old row I Γ e start.place array.place (1 + start.rows + array.rows)) }
    ensures { (I Γ : List DataType) (e : Term) → Stands kinds.now numbers.now types.old array.len scope I Γ e
        → SecondTyped types.old array.len column.old row I Γ e start.place array.place (1 + start.rows + array.rows)
        → TermFound types.old array.len column.old types.new column.new row I Γ e
        (array.len + 2 * (suc (length (term_rows e)) - (1 + start.rows + array.rows))) (check I Γ e (row + 1)) result }
{
    let line = row + 1;
    let at = 1 + start.rows + array.rows;
    let inner = scope.third(types, start.place, array.place, line)?;
    let body = type_of(
        &kinds[at..],
        &numbers[at..],
        row + at,
        inner,
        types,
        array.len,
        column,
    )?;
    let own = Row {
        len: body.len,
        rows: at + body.rows,
        line,
    };
    let answer = rules::reduce(types, own, start.place, body.place);
    put_type(column, row, answer)
}
