// [6.18], [6.20] The rows of an offset into a type, at a path: a sum, the outermost step first.
ghost use Rattle.std.specs.Prelude.{◌≡◌, suc, ◌+◌, ◌-◌, ◌<◌, ◌≤◌, drop, length};
ghost use Rattle.meaning.specs.Offsets.{summands, offset_of, offset_from_innermost};
ghost use Rattle.meaning.specs.Rows.{offset_rows};
ghost use Rattle.type_table.specs.Table.{type_at, Sound};
ghost use Rattle.emission.specs.Table.{put_rows};
ghost use Rattle.emission.specs.Changes.{path_of};
ghost use Rattle.emission.specs.Laws.Offsets.{all_offset_rows};

use crate::elements::{Elements, as_elements};
use crate::paths::{Path, is_second, put_index};
use crate::rows::Rows;
use type_table::PairShape;
use words::kinds::*;

// [6.18] How many summands the offset into the type at a place has, from step j of the path on.
fn count_summands(types: &[u64], path: Path<'_>, place: usize, j: usize) -> usize
    requires { Sound types.now (suc place) × (path.depth ≤ 1024) × (j + place ≤ 131072) }
    ensures { (result ≡ length (summands (type_at types.now place) (drop j (path_of path.entry.changes.now path.entry.depth)))) × (result ≤ place) }
{
    if let Some(Elements { element, .. }) = as_elements(types, place) {
        return 1 + count_summands(types, path, element, j + 1);
    }
    let Some(PairShape { first, second }) = type_table::as_pair(types, place) else {
        return 0;
    };
    if is_second(path, j) {
        return 1 + count_summands(types, path, second, j + 1);
    }
    count_summands(types, path, first, j + 1)
}

// [6.18] Their rows, in order.
fn put_summands(
    types: &[u64],
    path: Path<'_>,
    rows: &mut Rows,
    place: usize,
    j: usize,
    counters: u16,
)
    requires { Sound types.now (suc place) × (path.depth ≤ 1024) × (j + place ≤ 131072) }
    ensures { rows.new ≡ put_rows
        (all_offset_rows counters (summands (type_at types.now place) (drop j (path_of path.entry.changes.now path.entry.depth)))) rows.old }
{
    if let Some(Elements { element, .. }) = as_elements(types, place) {
        rows.put_cells(types, WORD_TIMES, element);
        put_index(path, rows, j, counters);
        put_summands(types, path, rows, element, j + 1, counters);
        return;
    }
    let Some(PairShape { first, second }) = type_table::as_pair(types, place) else {
        return;
    };
    if is_second(path, j) {
        rows.put_cells(types, WORD_LIT, first);
        put_summands(types, path, rows, second, j + 1, counters);
        return;
    }
    put_summands(types, path, rows, first, j + 1, counters);
}

// [6.18], [6.20] The offset into the type at a place ([6.19]) that a path leads to. A place that the table of types does not have
// stands for a number.
pub fn put_offset(types: &[u64], path: Path<'_>, rows: &mut Rows, place: usize, counters: u16)
    requires { Sound types.now (length types.now) × (path.depth ≤ 1024) }
    ensures { rows.new ≡ put_rows
        (offset_rows (offset_from_innermost counters (offset_of (type_at types.now place) (path_of path.entry.changes.now path.entry.depth)))) rows.old }
{
    if types.len() <= place {
        rows.put_count(WORD_LIT, 0);
        return;
    }
    let many = count_summands(types, path, place, 0);
    if many == 0 {
        rows.put_count(WORD_LIT, 0);
        return;
    }
    rows.put_pluses(many - 1);
    put_summands(types, path, rows, place, 0, counters);
}
