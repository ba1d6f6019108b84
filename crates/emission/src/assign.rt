// [6.3] Assignment by type: a number is one `set`, an array a `par` over its elements, a pair its first part and then its second, [18.11] a
// vector a `lanes` over its lanes. [14.7] An array's is `par` also where all around it goes in sequence.
ghost use Rattle.std.specs.Prelude.{◌≡◌, ◌+◌, ◌*◌, ◌<◌, ◌≤◌, length};
ghost use Rattle.meaning.specs.Types.{number as numberType, levels as levelsOf};
ghost use Rattle.meaning.specs.Translation.{assign};
ghost use Rattle.meaning.specs.Rows.{command_rows};
ghost use Rattle.type_table.specs.Table.{type_at, Sound};
ghost use Rattle.emission.specs.Table.{put_rows};
ghost use Rattle.emission.specs.References.{expression_at, acceptor_at};
ghost use Rattle.emission.specs.Growth.{Grown, BothPushed};

use crate::elements::as_elements;
use crate::places::put_place;
use crate::references::push;
use crate::rows::Rows;
use crate::sources::{InForce, Made, Source};
use crate::values::put_value;
use words::kinds::*;

// The node that is read, and the one that is written.
#[derive(Clone, Copy)]
pub struct Ends {
    pub value: usize,
    pub target: usize,
}

// [6.17] One `set`: the number that node `ends.value` reads goes where node `ends.target` writes.
fn put_set(
    source: Source<'_>,
    references: &[u64; 1024],
    rows: &mut Rows,
    ends: Ends,
    in_force: InForce,
)
    requires { Sound source.types.now (length source.types.now) × (ends.value < 1024) × (ends.target < 1024) }
    ensures { rows.new ≡ put_rows (command_rows (assign numberType (expression_at source.entry.types.now source.entry.plan.now references.now ends.value)
        (acceptor_at source.entry.types.now references.now ends.target) in_force.counters in_force.regions)) rows.old }
{
    let mut changes = [0u64; 1024];
    rows.put_count(WORD_SET, 0);
    put_place(
        source.types,
        references,
        &mut changes,
        rows,
        ends.target,
        0,
        in_force,
    );
    put_value(
        source,
        references,
        &mut changes,
        rows,
        ends.value,
        0,
        in_force,
    );
}

// The same step from what is read and from where it is written, as nodes `len` and `len + 1`.
fn push_both(references: &mut [u64; 1024], len: usize, kind: u8, number: u16, ends: Ends)
    requires { (len + 1 < 1024) × (ends.value < len) × (ends.target < len) }
    ensures { BothPushed references.old references.new len kind number ends.value ends.target }
{
    push(references, len, kind, number, ends.value, 0);
    push(references, len + 1, kind, number, ends.target, 0);
}

// [6.3] What node `ends.value` reads, of the type at a place, goes where node `ends.target` writes. Nodes from `len` on are free.
pub fn put_assign(
    source: Source<'_>,
    made: &mut Made,
    place: usize,
    ends: Ends,
    in_force: InForce,
    len: usize,
)
    requires { Sound source.types.now (length source.types.now) × (place < length source.types.now) × (ends.value < len) × (ends.target < len)
        × (len + 2 * levelsOf (type_at source.types.now place) ≤ 1024) × (in_force.counters + levelsOf (type_at source.types.now place) < 65536) }
    ensures rows { made.new.rows ≡ put_rows (command_rows (assign (type_at source.entry.types.now place)
        (expression_at source.entry.types.now source.entry.plan.now made.old.references ends.value) (acceptor_at source.entry.types.now made.old.references ends.target)
        in_force.counters in_force.regions)) made.old.rows }
    ensures grown { Grown made.old.references made.new.references len }
{
    if made.rows.has_too_many() {
        return;
    }
    let next = Ends {
        value: len,
        target: len + 1,
    };
    if let Some(elements) = as_elements(source.types, place) {
        made.rows.put_count(elements.word, elements.length as u16);
        push_both(&mut made.references, len, WORD_CTR, in_force.counters, ends);
        let inside = InForce {
            counters: in_force.counters + 1,
            ..in_force
        };
        put_assign(source, made, elements.element, next, inside, len + 2);
        return;
    }
    let Some(pair) = type_table::as_pair(source.types, place) else {
        put_set(source, &made.references, &mut made.rows, ends, in_force);
        return;
    };
    made.rows.put_count(WORD_SEQ, 0);
    push_both(&mut made.references, len, WORD_FST, 0, ends);
    put_assign(source, made, pair.first, next, in_force, len + 2);
    push_both(&mut made.references, len, WORD_SND, 0, ends);
    put_assign(source, made, pair.second, next, in_force, len + 2);
}
