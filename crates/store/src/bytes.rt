// [9.11] Cells in bytes: four to a cell, two's complement, lowest byte first.
ghost use Rattle.std.specs.Prelude.{◌≡◌, pos, length, get_or, set};
ghost use Rattle.store.specs.Cells.{cells_of, left_over};

pub fn cell_at(bytes: &[u8], cell: usize) -> i32
    ensures { result ≡ get_or (cells_of bytes.now) cell (pos 0) }
{
    if bytes.len() / 4 <= cell {
        return 0;
    }
    let at = 4 * cell;
    i32::from_le_bytes([bytes[at], bytes[at + 1], bytes[at + 2], bytes[at + 3]])
}

pub fn put_cell(bytes: &mut [u8], cell: usize, number: i32)
    ensures cells { cells_of bytes.new ≡ set (cells_of bytes.old) cell number }
    ensures rest { (length bytes.new ≡ length bytes.old) × (left_over bytes.new ≡ left_over bytes.old) }
{
    if bytes.len() / 4 <= cell {
        return;
    }
    let at = 4 * cell;
    let [lowest, second, third, highest] = number.to_le_bytes();
    bytes[at] = lowest;
    bytes[at + 1] = second;
    bytes[at + 2] = third;
    bytes[at + 3] = highest;
}
