// [10.7] and [10.8] on a row whose operands have types.
ghost use Rattle.std.specs.Prelude.{◌≡◌, ◌+◌, ◌≤◌, ◌<◌};
ghost use Rattle.words.specs.Kinds.{word_split, word_asvec};
ghost use Rattle.meaning.specs.Types.{DataType, number as numberType, array as arrayType};
ghost use Rattle.meaning.specs.Limits.{IsWidth};
ghost use Rattle.type_table.specs.Table.{type_at};
ghost use Rattle.typing.specs.Check.{sized};
ghost use Rattle.type_rules.specs.Rules.{Room, Found, meant, LengthWithin, negate_rule, split_rule, join_rule, part_rule, index_rule, unary_rule, zip_rule};
ghost use Rattle.type_rules.specs.Rules.{map_rule, operation_rule, binary_rule, reduce_rule};

use crate::series::Series;
use crate::{Row, Typed};
use refusals::Refusal;
use words::groups::is_map;
use words::kinds::*;

// [10.8], [13.13], [13.14] Question 8 on an array of this length and element.
pub fn sized_array(
    types: &mut [u64],
    row: Row,
    count: usize,
    element: usize,
) -> Result<Typed, Refusal>
    requires { Room types.old row.len 1 × (element < row.len) × (1 ≤ count) × (count ≤ 16777216) }
    ensures { Found types.old row.len types.new (row.len + 1) row.rows (sized row.line (arrayType count (type_at types.old element))) result }
{
    if 4096 < count * type_table::cells(types, element) {
        return Err(Refusal::TypeSize(row.line));
    }
    if 8 <= type_table::levels(types, element) {
        return Err(Refusal::TypeSize(row.line));
    }
    type_table::put_array(types, row.len, count, element);
    Ok(Typed {
        place: row.len,
        rows: row.rows,
        len: row.len + 1,
    })
}

// [10.8], [13.13], [13.14] Question 8 on a pair of these two types.
pub fn sized_pair(
    types: &mut [u64],
    row: Row,
    first: usize,
    second: usize,
) -> Result<Typed, Refusal>
    requires { Room types.old row.len 1 × (first < row.len) × (second < row.len) }
    ensures { Found types.old row.len types.new (row.len + 1) row.rows
        (sized row.line (DataType.pair (type_at types.old first) (type_at types.old second))) result }
{
    if 4096 < type_table::cells(types, first) + type_table::cells(types, second) {
        return Err(Refusal::TypeSize(row.line));
    }
    if 8 <= type_table::levels(types, first) {
        return Err(Refusal::TypeSize(row.line));
    }
    if 8 <= type_table::levels(types, second) {
        return Err(Refusal::TypeSize(row.line));
    }
    type_table::put_pair(types, row.len, first, second);
    Ok(Typed {
        place: row.len,
        rows: row.rows,
        len: row.len + 1,
    })
}

// [5.8] `split,n`: an array whose length n divides; [18.4] `asvec,n`: such an array of numbers.
#[tactic(auto, using(crate::proofs::Found::quotient_bounds))]
fn split(
    series: Series,
    types: &mut [u64],
    row: Row,
    n: usize,
    place: usize,
) -> Result<Typed, Refusal>
    requires { Room types.old row.len 2 × (place < row.len) × LengthWithin (meant series) n }
    ensures { Found types.old row.len types.new (row.len + 2) row.rows (split_rule (meant series) n row.line (type_at types.old place)) result }
{
    let array = Series::Arrays.ask(types, place, row.line)?;
    if array.length % n != 0 {
        return Err(Refusal::TypeMisfit(row.line));
    }
    let group = series.sized(types, row, n, array.element)?;
    let next = Row {
        len: group.len,
        ..row
    };
    sized_array(types, next, array.length / n, group.place)
}

// [5.9] `join`: an array of arrays; [18.5] `asscal`: an array of vectors.
#[tactic(auto, using(crate::proofs::Found::product_bounds))]
fn join(series: Series, types: &mut [u64], row: Row, place: usize) -> Result<Typed, Refusal>
    requires { Room types.old row.len 1 × (place < row.len) × (type_at types.old 0 ≡ numberType) }
    ensures { Found types.old row.len types.new (row.len + 1) row.rows (join_rule (meant series) row.line (type_at types.old place)) result }
{
    let outer = Series::Arrays.ask(types, place, row.line)?;
    let inner = series.ask(types, outer.element, row.line)?;
    sized_array(types, row, outer.length * inner.length, inner.element)
}

// [5.7] `fst` and `snd`: a pair.
#[tactic(auto, using(crate::proofs::Found::known_sized, crate::proofs::Found::grown_same))]
fn part(kind: u8, types: &[u64], row: Row, place: usize) -> Result<Typed, Refusal>
    requires { Room types.now row.len 0 × (place < row.len) }
    ensures { Found types.now row.len types.now row.len row.rows (part_rule kind row.line (type_at types.now place)) result }
{
    let pair = type_table::as_pair(types, place).ok_or(Refusal::TypeMisfit(row.line))?;
    let place = if kind == WORD_FST {
        pair.first
    } else {
        pair.second
    };
    Ok(row.typed(place))
}

// [5.10] `idx,k`: an array of more than k elements; [18.7] `at,k`: a vector of more than k lanes.
#[tactic(auto, using(crate::proofs::Found::known_sized, crate::proofs::Found::grown_same))]
fn index(series: Series, types: &[u64], row: Row, k: usize, place: usize) -> Result<Typed, Refusal>
    requires { Room types.now row.len 0 × (place < row.len) × (type_at types.now 0 ≡ numberType) }
    ensures { Found types.now row.len types.now row.len row.rows (index_rule (meant series) k row.line (type_at types.now place)) result }
{
    let over = series.ask(types, place, row.line)?;
    if over.length <= k {
        return Err(Refusal::TypeMisfit(row.line));
    }
    Ok(row.typed(over.element))
}

// [5.3] `neg`: a number.
#[tactic(auto, using(crate::proofs::Found::known_sized, crate::proofs::Found::grown_same))]
fn negate(types: &[u64], row: Row, place: usize) -> Result<Typed, Refusal>
    requires { Room types.now row.len 0 × (place < row.len) }
    ensures { Found types.now row.len types.now row.len row.rows (negate_rule row.line (type_at types.now place)) result }
{
    if !type_table::is_number(types, place) {
        return Err(Refusal::TypeMisfit(row.line));
    }
    Ok(row.typed(place))
}

// A row of one operand, of the type at a place.
#[tactic(auto, using(crate::proofs::Found::found_as), unfolding(crate::specs::Rules::unary_rule))]
pub fn unary(
    kind: u8,
    number: usize,
    types: &mut [u64],
    row: Row,
    place: usize,
) -> Result<Typed, Refusal>
    requires { Room types.old row.len 2 × (place < row.len) × (kind ≡ word_split → (1 ≤ number) × (number ≤ 4096))
        × (kind ≡ word_asvec → IsWidth number) × (type_at types.old 0 ≡ numberType) }
    ensures { Found types.old row.len types.new (row.len + 2) row.rows (unary_rule kind number row.line (type_at types.old place)) result }
{
    match kind {
        WORD_NEG => negate(types, row, place),
        WORD_SPLIT => split(Series::Arrays, types, row, number, place),
        WORD_ASVEC => split(Series::Vectors, types, row, number, place),
        WORD_JOIN => join(Series::Arrays, types, row, place),
        WORD_ASSCAL => join(Series::Vectors, types, row, place),
        WORD_FST | WORD_SND => part(kind, types, row, place),
        WORD_AT => index(Series::Vectors, types, row, number, place),
        _ => index(Series::Arrays, types, row, number, place),
    }
}

// [5.6] `zip`: two arrays of one length.
fn zip(types: &mut [u64], row: Row, left: usize, right: usize) -> Result<Typed, Refusal>
    requires { Room types.old row.len 2 × (left < row.len) × (right < row.len) }
    ensures { Found types.old row.len types.new (row.len + 2) row.rows
        (zip_rule row.line (type_at types.old left) (type_at types.old right)) result }
{
    let one = Series::Arrays.ask(types, left, row.line)?;
    let other = Series::Arrays.ask(types, right, row.line)?;
    if one.length != other.length {
        return Err(Refusal::TypeMisfit(row.line));
    }
    let both = sized_pair(types, row, one.element, other.element)?;
    let next = Row {
        len: both.len,
        ..row
    };
    sized_array(types, next, one.length, both.place)
}

// [5.4] A map: an array of so many elements of the body's type; [18.6] over a vector one of as many lanes, its body being a number.
fn map(
    series: Series,
    types: &mut [u64],
    row: Row,
    over: usize,
    body: usize,
) -> Result<Typed, Refusal>
    requires { Room types.old row.len 1 × (over < row.len) × (body < row.len) }
    ensures { Found types.old row.len types.new (row.len + 1) row.rows
        (map_rule (meant series) row.line (type_at types.old over) (type_at types.old body)) result }
{
    let over = series.ask(types, over, row.line)?;
    series.sized(types, row, over.length, body)
}

// [5.3] An operation: two numbers.
#[tactic(auto, using(crate::proofs::Found::known_sized, crate::proofs::Found::grown_same))]
fn operation(types: &[u64], row: Row, left: usize, right: usize) -> Result<Typed, Refusal>
    requires { Room types.now row.len 0 × (left < row.len) × (right < row.len) }
    ensures { Found types.now row.len types.now row.len row.rows
        (operation_rule row.line (type_at types.now left) (type_at types.now right)) result }
{
    if !type_table::is_number(types, left) || !type_table::is_number(types, right) {
        return Err(Refusal::TypeMisfit(row.line));
    }
    Ok(row.typed(left))
}

// A row of two operands, of the types at two places.
#[tactic(auto, using(crate::proofs::Found::found_as), unfolding(crate::specs::Rules::binary_rule))]
pub fn binary(
    kind: u8,
    types: &mut [u64],
    row: Row,
    left: usize,
    right: usize,
) -> Result<Typed, Refusal>
    requires { Room types.old row.len 2 × (left < row.len) × (right < row.len) }
    ensures { Found types.old row.len types.new (row.len + 2) row.rows
        (binary_rule kind row.line (type_at types.old left) (type_at types.old right)) result }
{
    if is_map(kind) {
        let series = Series::of_map(kind);
        return map(series, types, row, left, right);
    }
    match kind {
        WORD_ZIP => zip(types, row, left, right),
        WORD_PAIR => sized_pair(types, row, left, right),
        _ => operation(types, row, left, right),
    }
}

// [5.5] A reduction: its body has the start's type.
#[tactic(auto, using(crate::proofs::Found::known_sized, crate::proofs::Found::grown_same, crate::proofs::Found::same_refl, crate::proofs::Found::not_same))]
pub fn reduce(types: &[u64], row: Row, start: usize, body: usize) -> Result<Typed, Refusal>
    requires { Room types.now row.len 0 × (start < row.len) × (body < row.len) }
    ensures { Found types.now row.len types.now row.len row.rows
        (reduce_rule row.line (type_at types.now start) (type_at types.now body)) result }
{
    if !type_table::same(types, body, start) {
        return Err(Refusal::TypeMisfit(row.line));
    }
    Ok(row.typed(start))
}
