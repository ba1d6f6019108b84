// The rows of places: an acceptor written at a path ([6.22], [6.23]; Figure 5b of the paper).
ghost use Rattle.std.specs.Prelude.{◌≡◌, ◌+◌, ◌<◌, ◌≤◌, length};
ghost use Rattle.meaning.specs.Loops.{Offset, Place};
ghost use Rattle.meaning.specs.Offsets.{write_at, place_from_innermost};
ghost use Rattle.meaning.specs.Rows.{place_rows};
ghost use Rattle.type_table.specs.Table.{Sound};
ghost use Rattle.emission.specs.Nodes.{kind_in, left_in};
ghost use Rattle.emission.specs.Table.{put_rows};
ghost use Rattle.emission.specs.Changes.{change_of, path_of};
ghost use Rattle.emission.specs.References.{acceptor_at};
ghost use Rattle.emission.specs.Laws.Operands.{operand_written};

use crate::offsets::put_offset;
use crate::paths::{Change, Path, change_of, from_innermost};
use crate::references::{Class, class_of, kind_in, left_in, number_in, right_in, type_in};
use crate::rows::Rows;
use crate::sources::InForce;
use words::kinds::*;

// The place of what is no acceptor: the output's first cell.
fn put_nowhere(rows: &mut Rows)
    ensures { rows.new ≡ put_rows (place_rows (Place.output (Offset.literal 0))) rows.old }
{
    rows.put_count(WORD_OUT, 0);
    rows.put_count(WORD_LIT, 0);
}

// The node that a path goes on to when this one is written. Node 0, which stands for nothing, behind what cannot be written.
fn operand_written(node: u64) -> usize
    ensures { result ≡ operand_written (change_of (kind_in node)) (left_in node) }
{
    match change_of(kind_in(node)) {
        Change::Zip | Change::Pair | Change::Unchanged => 0,
        _ => left_in(node),
    }
}

// The place of the acceptor of node `from`, written at the path of the first `depth` changes.
// Seven parameters: the references are read while rows are put, so the two are no `Made` here.
pub fn put_place(
    types: &[u64],
    references: &[u64; 1024],
    changes: &mut [u64; 1024],
    rows: &mut Rows,
    from: usize,
    depth: usize,
    in_force: InForce,
)
    requires { Sound types.now (length types.now) × (from < 1024) × (depth + from ≤ 1024) }
    ensures { rows.new ≡ put_rows (place_rows (place_from_innermost in_force.counters in_force.regions
        (write_at (acceptor_at types.now references.now from) (path_of changes.old depth)))) rows.old }
{
    let node = references[from];
    let left = left_in(node);
    let right = right_in(node);
    if from <= left || from <= right {
        put_nowhere(rows);
        return;
    }
    let class = class_of(kind_in(node));
    let path = Path { changes, depth };
    match class {
        Class::Output => {
            rows.put_count(WORD_OUT, 0);
            put_offset(types, path, rows, type_in(node), in_force.counters);
        }
        Class::Region => {
            rows.put_count(WORD_LOC, from_innermost(in_force.regions, number_in(node)));
            put_offset(types, path, rows, type_in(node), in_force.counters);
        }
        Class::Rearranged => {
            changes[depth] = node;
            put_place(
                types,
                references,
                changes,
                rows,
                operand_written(node),
                depth + 1,
                in_force,
            );
        }
        Class::Literal | Class::Input | Class::Negation | Class::Operation => put_nowhere(rows),
    }
}
