// The values file of the runner: questions 1, 2, 14 and 15 of [10.16], and each value into its cell ([11.3]).
// The cells named and their values come as two columns, as `lines` reads them.
#![tactic(auto)]

ghost use Rattle.std.specs.Prelude.{◌≡◌, ◌≤◌, length};
ghost use Rattle.words.specs.Kinds.{rows_of};
ghost use Rattle.values.specs.Promises.{FillsStore};
ghost use Rattle.values.specs.Values.{one_line_each};
ghost use Rattle.values.specs.Stored.{stored};

use refusals::Refusal;

// [10.15] Has each cell below the count exactly one line, and is there no other line?
fn one_line_each(cells: &[u32], count: usize) -> bool
    requires { length cells.now ≤ 16384 }
    ensures { result ≡ one_line_each count cells.now }
{
    if cells.len() != count {
        return false;
    }
    let mut seen = [false; 16384];
    for cell in cells {
        let place = *cell as usize;
        if count <= place || seen[place] {
            return false;
        }
        seen[place] = true;
    }
    true
}

// Puts each value into its cell.
fn put_values(cells: &[u32], values: &[i32], store: &mut [i32])
    ensures { store.new ≡ stored (rows_of cells.now values.now) store.old }
{
    for (cell, value) in cells.iter().zip(values) {
        slices::put(store, *cell as usize, *value);
    }
}

// Fills the cells below the count from a values file: how many lines it has, or the first "no".
pub fn fill(text: &[u8], count: usize, store: &mut [i32]) -> Result<usize, Refusal>
    ensures { FillsStore text.now count store.old result store.new }
{
    let mut cells = [0u32; 16384];
    let mut values = [0i32; 16384];
    let rows = lines::read_values(text, &mut cells, &mut values)?;
    if store.len() < count {
        return Err(Refusal::StoreSize);
    }
    let named = &cells[..rows];
    if !one_line_each(named, count) {
        return Err(Refusal::ValueLines);
    }
    put_values(named, &values[..rows], store);
    Ok(rows)
}
