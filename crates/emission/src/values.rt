// The rows of values: an expression read at a path ([6.22], [6.23]; Figure 5c of the paper).
ghost use Rattle.std.specs.Prelude.{◌≡◌, ◌+◌, ◌<◌, ◌≤◌, length, take, get_or, pos};
ghost use Rattle.words.specs.Kinds.{word_lit};
ghost use Rattle.meaning.specs.Offsets.{read_at, value_from_innermost};
ghost use Rattle.meaning.specs.Rows.{value_rows};
ghost use Rattle.type_table.specs.Table.{Sound};
ghost use Rattle.emission.specs.Nodes.{kind_in, left_in, right_in};
ghost use Rattle.emission.specs.Table.{put_row, put_rows};
ghost use Rattle.emission.specs.Changes.{change_of, path_of};
ghost use Rattle.emission.specs.References.{expression_at};
ghost use Rattle.emission.specs.Laws.Operands.{operand_read};

use crate::offsets::put_offset;
use crate::paths::{Change, Path, change_of, from_innermost, is_second};
use crate::references::{Class, class_of, kind_in, left_in, number_in, right_in, type_in};
use crate::rows::Rows;
use crate::sources::{InForce, Source};
use words::kinds::*;

// The literal of a row of the plan, or 0 where the plan has no such row.
fn put_literal(plan: &[i32], rows: &mut Rows, row: u16)
    ensures { rows.new ≡ put_row rows.old (word_lit, get_or plan.now row (pos 0)) }
{
    let i = row as usize;
    let number = if i < plan.len() { plan[i] } else { 0 };
    rows.put(WORD_LIT, number);
}

// The node that a path goes on to when this one is read: of a `zip` or a `pair` one of the two. Node 0, which stands for nothing,
// behind what cannot be read.
fn operand_read(path: Path<'_>, node: u64) -> usize
    requires { path.depth ≤ 1024 }
    ensures { result ≡ operand_read (change_of (kind_in node)) (path_of path.entry.changes.now path.entry.depth) (left_in node) (right_in node) }
{
    match change_of(kind_in(node)) {
        Change::Zip if is_second(path, 1) => right_in(node),
        Change::Pair if is_second(path, 0) => right_in(node),
        Change::ZipFirst | Change::ZipSecond | Change::Unchanged => 0,
        _ => left_in(node),
    }
}

// The value of the expression of node `from`, read at the path of the first `depth` changes.
// Seven parameters, as `put_place`.
pub fn put_value(
    source: Source<'_>,
    references: &[u64; 1024],
    changes: &mut [u64; 1024],
    rows: &mut Rows,
    from: usize,
    depth: usize,
    in_force: InForce,
)
    requires { Sound source.types.now (length source.types.now) × (from < 1024) × (depth + from ≤ 1024) }
    ensures rows { rows.new ≡ put_rows (value_rows (value_from_innermost in_force.counters in_force.regions
        (read_at (expression_at source.entry.types.now source.entry.plan.now references.now from) (path_of changes.old depth)))) rows.old }
    ensures kept { take depth changes.new ≡ take depth changes.old }
{
    if rows.has_too_many() {
        return;
    }
    let node = references[from];
    let left = left_in(node);
    let right = right_in(node);
    if from <= left || from <= right {
        rows.put_count(WORD_LIT, 0);
        return;
    }
    let class = class_of(kind_in(node));
    let path = Path { changes, depth };
    match class {
        Class::Literal => put_literal(source.plan, rows, number_in(node)),
        Class::Input => {
            rows.put_count(WORD_IN, number_in(node));
            put_offset(source.types, path, rows, type_in(node), in_force.counters);
        }
        Class::Region => {
            rows.put_count(WORD_LOC, from_innermost(in_force.regions, number_in(node)));
            put_offset(source.types, path, rows, type_in(node), in_force.counters);
        }
        Class::Output => rows.put_count(WORD_LIT, 0),
        Class::Negation => {
            rows.put_count(WORD_NEG, 0);
            put_value(source, references, changes, rows, left, depth, in_force);
        }
        Class::Operation => {
            rows.put_count(kind_in(node), 0);
            put_value(source, references, changes, rows, left, depth, in_force);
            put_value(source, references, changes, rows, right, depth, in_force);
        }
        Class::Rearranged => {
            let next = operand_read(path, node);
            changes[depth] = node;
            put_value(source, references, changes, rows, next, depth + 1, in_force);
        }
    }
}
