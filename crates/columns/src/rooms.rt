// [7.4] The rooms of commands: one pass from the last row to the first.
ghost use Rattle.std.specs.Prelude.{◌≡◌, min, ◌+◌, ◌*◌, ◌≤◌, ◌<◌, length, get_or};
ghost use Rattle.columns.specs.Ends.{Ends};
ghost use Rattle.columns.specs.Figures.{room_by, room_at, Rooms};

use crate::entries::cells_at;
use crate::rows::Rows;
use words::kinds::*;

// 2^48 stands for every greater number of cells.
const MOST_CELLS: usize = 281474976710656;

// A sum of cells.
pub fn capped_sum(x: usize, y: usize) -> usize
    ensures { result ≡ min (x + y) 281474976710656 }
{
    x.saturating_add(y).min(MOST_CELLS)
}

// The cells of n rounds.
fn capped_product(n: usize, x: usize) -> usize
    ensures { result ≡ min (n * x) 281474976710656 }
{
    n.saturating_mul(x).min(MOST_CELLS)
}

// The room of a command's regions.
#[tactic(auto, using(std::proofs::lemmas::Bool::Decides::nat_tests), unfolding(crate::specs::Figures::room_by))]
fn row_room(kind: u8, n: usize, first: usize, second: usize) -> usize
    ensures { result ≡ room_by kind n first second }
{
    match kind {
        WORD_SET => 0,
        WORD_SEQ => first.max(second),
        WORD_NEW => capped_sum(n, first),
        WORD_PAR | WORD_LANES => capped_product(n, first),
        _ => first,
    }
}

// The room of row q, from the column behind it.
fn room_at(rows: Rows, rooms: &[u64], q: usize) -> usize
    requires { q < length rows.kinds.now }
    ensures { result ≡ room_at rows.entry.kinds.now rows.entry.numbers.now q (get_or rooms.now (q + 1) 0)
        (get_or rooms.now (get_or rows.entry.ends.now (q + 1) 0) 0) }
{
    row_room(
        rows.kinds[q],
        rows.number(q),
        cells_at(rooms, q + 1),
        cells_at(rooms, rows.second(q)),
    )
}

// Puts at every command's row its room.
pub fn fill(kinds: &[u8], numbers: &[i32], ends: &[u16], rooms: &mut [u64])
    requires ended { Ends kinds.now ends.now }
    requires long { length kinds.now ≤ length rooms.old }
    ensures kept { length rooms.new ≡ length rooms.old }
    ensures rooms { Rooms kinds.now numbers.now ends.now rooms.new }
{
    let rows = Rows {
        kinds,
        numbers,
        ends,
    };
    for q in (0..kinds.len()).rev() {
        rooms[q] = room_at(rows, rooms, q) as u64;
    }
}
