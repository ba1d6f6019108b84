// The walk over rows in prefix order [1.7] that puts questions 4, 5, 6 and 18 to them, row by row from the top: [10.4] to [10.6], [18.15]. One walk
// serves plans and loops: what a row is asked depends on what is due.
// Kinds and numbers of rows come as two slices, as the interface for C lends them.
#![tactic(auto)]

mod names;
mod operands;
pub mod ranges;

ghost use Rattle.std.specs.Prelude.{◌≡◌, not, List, ◌∷◌, ◌+◌, ◌≤◌, ◌<◌, length, drop, position, Ok, IfOk};
ghost use Rattle.words.specs.Groups.{is_listed};
ghost use Rattle.words.specs.Kinds.{rows_of};
ghost use Rattle.words.specs.Packed.{packed_table};
ghost use Rattle.words.specs.declared.Sort.TheVariants.{Plan as PlanSort, Loops as LoopsSort};
ghost use Rattle.syntax.specs.Names.{Bounded};
ghost use Rattle.syntax.specs.Walk.{ask_row, walk_from, walk_on, passed, listed_from, walk_table};
ghost use Rattle.syntax.specs.declared.operands.Due.{Due};

use crate::names::Names;
use crate::operands::Due;
use refusals::Refusal;
use words::groups::is_listed;
use words::{Sort, Table};

// [10.18] Questions 4, 5, 6 and 18, in this order, put to a row: how many operands it has, or the first "no".
#[tactic(auto, using(crate::proofs::WalkSteps::three_operands), unfolding(crate::specs::Walk::ask_row))]
fn ask(built_in: &Table, due: Due, kind: u8, number: usize, line: usize) -> Result<usize, Refusal>
    requires { (number ≤ 2147483648) × Bounded due.names × (built_in.now ≡ packed_table) }
    ensures { result ≡ ask_row due kind number line }
{
    let count = words::operand_count(built_in, kind, due.sort).ok_or(Refusal::RowDue(line))?;
    if !ranges::in_range(due.sort, due.names, kind, number) {
        return Err(Refusal::NumberRange(line));
    }
    let opened = due.names.opened(kind, number);
    if !opened.names_fit() {
        return Err(Refusal::NameCount(line));
    }
    if !opened.lanes_fit() {
        return Err(Refusal::LanesInside(line));
    }
    Ok(operands::inputs_counted(due.sort, number) + count)
}

// The rows of a table, as many kinds as numbers, and the built-in table of words.
#[derive(Clone, Copy)]
struct Rows<'a> {
    built_in: &'a Table,
    kinds: &'a [u8],
    numbers: &'a [i32],
}

impl Rows<'_> {
    // From a row on, the row that is due and its operands: the row behind them, or the first "no". The walk goes on to a row's last operand and
    // calls itself for the others.
    fn walk(&self, first: usize, due: Due) -> Result<usize, Refusal>
        requires { (length self.now.kinds.now ≡ length self.now.numbers.now) × (first ≤ length self.now.kinds.now) × Bounded due.names
            × (self.now.built_in.now ≡ packed_table) }
        ensures bounds { IfOk result (λ end. (first ≤ end) × (end ≤ length self.now.kinds.now)) }
        ensures result { (ds : List Due) → walk_from first (due ∷ ds) (drop first (rows_of self.now.kinds.now self.now.numbers.now))
            ≡ walk_on result ds (rows_of self.now.kinds.now self.now.numbers.now) }
    {
        let mut row = first;
        let mut next = due;
        // No `for`: how far a turn goes is what the calls for the operands answer.
        while row < self.kinds.len() {
            let kind = self.kinds[row];
            let number = ranges::natural(self.numbers[row]);
            let count = ask(self.built_in, next, kind, number, row + 1)?;
            row += 1;
            if count == 0 {
                return Ok(row);
            }
            for _ in 1..count {
                row = self.walk(row, next.operand(kind, number, false))?;
            }
            next = next.operand(kind, number, true);
        }
        Err(Refusal::RowDue(row + 1))
    }
}

// The first kind that is no word.
fn unlisted(kinds: &[u8]) -> Option<usize>
    ensures { result ≡ position (λ k. not (is_listed k)) kinds.now }
{
    kinds.iter().position(|kind| !is_listed(*kind))
}

// [10.2] of a table that was not read from a text: how many rows it has, as many as the shorter slice [1.8]; or its first kind that is
// no word.
pub fn listed_rows(kinds: &[u8], numbers: &[i32]) -> Result<usize, Refusal>
    ensures bounds { (passed result ≤ length kinds.now) × (passed result ≤ length numbers.now) }
    ensures result { result ≡ listed_from 0 (rows_of kinds.now numbers.now) (Ok (length (rows_of kinds.now numbers.now))) }
{
    let rows = words::row_count(kinds, numbers);
    match unlisted(&kinds[..rows]) {
        Some(row) => Err(Refusal::LineForm(row + 1)),
        None => Ok(rows),
    }
}

// A table of which one row of this sort is due.
fn walk_table(kinds: &[u8], numbers: &[i32], sort: Sort) -> Result<usize, Refusal>
    ensures { result ≡ walk_table sort (rows_of kinds.now numbers.now) }
{
    let rows = listed_rows(kinds, numbers)?;
    let names = Names {
        inputs: 0,
        variables: 0,
        counters: 0,
        regions: 0,
        lanes: 0,
    };
    let table = Rows {
        built_in: &words::built_in(),
        kinds: &kinds[..rows],
        numbers: &numbers[..rows],
    };
    let end = table.walk(0, Due { sort, names })?;
    if end < rows {
        return Err(Refusal::RowDue(end + 1));
    }
    Ok(end)
}

// The rows of a plan's table: how many they are, or the first "no" to questions 2 (of the kinds), 4, 5 and 6.
pub fn walk_plan(kinds: &[u8], numbers: &[i32]) -> Result<usize, Refusal>
    ensures { result ≡ walk_table PlanSort (rows_of kinds.now numbers.now) }
{
    walk_table(kinds, numbers, Sort::Plan)
}

// The rows of a loops' table, in the same way.
pub fn walk_loops(kinds: &[u8], numbers: &[i32]) -> Result<usize, Refusal>
    ensures { result ≡ walk_table LoopsSort (rows_of kinds.now numbers.now) }
{
    walk_table(kinds, numbers, Sort::Loops)
}
