// [9.1] A store lent as two slices, either of which may be empty: first cells, then bytes, four to a cell. Every place is answered:
// past the end a cell reads as 0, and nothing is put. No struct holds both: the entries for C lend them as two slices.
#![tactic(auto)]

ghost use Rattle.std.specs.Prelude.{◌≡◌, pos, length, get_or, set};
ghost use Rattle.store.specs.Store.{store_of, frame_of};

mod bytes;

// How many cells a store has.
pub fn count(cells: &[i32], bytes: &[u8]) -> usize
    ensures { result ≡ length (store_of cells.now bytes.now) }
{
    cells.len() + bytes.len() / 4
}

pub fn read(cells: &[i32], bytes: &[u8], at: usize) -> i32
    ensures { result ≡ get_or (store_of cells.now bytes.now) at (pos 0) }
{
    if at < cells.len() {
        return cells[at];
    }
    bytes::cell_at(bytes, at - cells.len())
}

pub fn put(cells: &mut [i32], bytes: &mut [u8], at: usize, value: i32)
    ensures cells { store_of cells.new bytes.new ≡ set (store_of cells.old bytes.old) at value }
    ensures frame { frame_of cells.new bytes.new ≡ frame_of cells.old bytes.old }
{
    if at < cells.len() {
        cells[at] = value;
        return;
    }
    bytes::put_cell(bytes, at - cells.len(), value);
}
