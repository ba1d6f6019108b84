// What a column or a table has at a row, 0 past its end.
ghost use Rattle.std.specs.Prelude.{◌≡◌, ◌≤◌, pos, get_or};
ghost use Rattle.syntax.specs.Ranges.{as_natural};

use syntax::ranges;

// One generic function for the three types of columns would be no plainer: their bounds differ, so it needs a trait with three impls.

// A column of rows.
pub fn row_at(rows: &[u16], i: usize) -> usize
    ensures { (result ≡ get_or rows.now i 0) × (result ≤ 65535) }
{
    rows.get(i).map_or(0, |row| usize::from(*row))
}

// A column of counts.
pub fn count_at(counts: &[u32], i: usize) -> usize
    ensures { (result ≡ get_or counts.now i 0) × (result ≤ 4294967295) }
{
    counts.get(i).map_or(0, |count| *count as usize)
}

// A column of rooms.
pub fn cells_at(rooms: &[u64], i: usize) -> usize
    ensures { result ≡ get_or rooms.now i 0 }
{
    rooms.get(i).map_or(0, |room| *room as usize)
}

// The numbers of a table.
pub fn number_at(numbers: &[i32], i: usize) -> usize
    ensures { (result ≡ as_natural (get_or numbers.now i (pos 0))) × (result ≤ 2147483648) }
{
    numbers.get(i).map_or(0, |number| ranges::natural(*number))
}
