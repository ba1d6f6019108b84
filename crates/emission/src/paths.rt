// A path is a stack of changes: the nodes passed from the one first read, or written, to the one reached. Each changes the path behind
// it as [6.21] to [6.23] say (Figure 5 of the paper). Steps are found without building the path.
ghost use Rattle.std.specs.Prelude.{◌≡◌, true, false, suc, ◌+◌, ◌-◌, ◌<◌, ◌≤◌, drop};
ghost use Rattle.meaning.specs.Paths.{by_part};
ghost use Rattle.meaning.specs.Offsets.{leading_index, offset_from_innermost};
ghost use Rattle.meaning.specs.Rows.{offset_rows};
ghost use Rattle.emission.specs.Table.{put_rows};
ghost use Rattle.emission.specs.Changes.{change_of, path_of};
ghost use Rattle.emission.specs.Laws.PathSteps.{made_by, gone_by, own_found, found_at};

use crate::references::{ZIP_FIRST, ZIP_SECOND, kind_in, number_in};
use crate::rows::Rows;
use words::kinds::*;

// The path of the first `depth` changes.
#[derive(Clone, Copy)]
pub struct Path<'a> {
    pub changes: &'a [u64; 1024],
    pub depth: usize,
}

#[derive(Clone, Copy)]
pub enum Change {
    Zip,
    Pair,
    Ungrouped,
    Grouped,
    First,
    Second,
    AtLiteral,
    AtCounter,
    ZipFirst,
    ZipSecond,
    Unchanged,
}

// What stands at a step of a path: a part, or an index. An index made of others names the depth of their path.
#[derive(Clone, Copy)]
pub enum Found {
    FirstPart,
    SecondPart,
    CounterAt(u16),
    LiteralAt(u16),
    Same(usize),
    OfGroup(u16, usize),
    Quotient(u16, usize),
    Remainder(u16, usize),
}

// A `From<u8>` would say no more, and its contract would not name the definition.
pub fn change_of(kind: u8) -> Change
    ensures { result ≡ change_of kind }
{
    match kind {
        WORD_ZIP => Change::Zip,
        WORD_PAIR => Change::Pair,
        WORD_SPLIT => Change::Ungrouped,
        WORD_JOIN => Change::Grouped,
        WORD_FST => Change::First,
        WORD_SND => Change::Second,
        WORD_IDX => Change::AtLiteral,
        WORD_CTR => Change::AtCounter,
        ZIP_FIRST => Change::ZipFirst,
        ZIP_SECOND => Change::ZipSecond,
        _ => Change::Unchanged,
    }
}

impl Change {
    // How many steps a change puts in front.
    fn made(self) -> usize
        ensures { result ≡ made_by self }
    {
        match self {
            Change::Pair | Change::Unchanged => 0,
            Change::Grouped | Change::ZipFirst | Change::ZipSecond => 2,
            Change::Zip
            | Change::Ungrouped
            | Change::First
            | Change::Second
            | Change::AtLiteral
            | Change::AtCounter => 1,
        }
    }

    // How many of the steps behind it are gone.
    fn gone(self) -> usize
        ensures { result ≡ gone_by self }
    {
        match self {
            Change::Zip | Change::Ungrouped => 2,
            Change::Pair | Change::Grouped | Change::ZipFirst | Change::ZipSecond => 1,
            Change::First
            | Change::Second
            | Change::AtLiteral
            | Change::AtCounter
            | Change::Unchanged => 0,
        }
    }
}

// [6.22], [6.23] Step j of those that a change puts in front of the path at depth `behind`.
fn own_step(change: Change, number: u16, j: usize, behind: usize) -> Option<Found>
    ensures { result ≡ own_found change number j behind }
{
    match change {
        Change::Pair | Change::Unchanged => None,
        Change::Zip => Some(Found::Same(behind)),
        Change::Ungrouped => Some(Found::OfGroup(number, behind)),
        Change::Grouped if j == 0 => Some(Found::Quotient(number, behind)),
        Change::Grouped => Some(Found::Remainder(number, behind)),
        Change::ZipFirst | Change::ZipSecond if j == 0 => Some(Found::Same(behind)),
        Change::First | Change::ZipFirst => Some(Found::FirstPart),
        Change::Second | Change::ZipSecond => Some(Found::SecondPart),
        Change::AtLiteral => Some(Found::LiteralAt(number)),
        Change::AtCounter => Some(Found::CounterAt(number)),
    }
}

// What stands at step j of a path.
fn step_at(path: Path<'_>, j: usize) -> Option<Found>
    requires { (path.depth ≤ 1024) × (j + path.depth ≤ 1048576) }
    ensures { result ≡ found_at path.entry.changes.now path.entry.depth j }
{
    if path.depth == 0 {
        return None;
    }
    let depth = path.depth - 1;
    let node = path.changes[depth];
    let change = change_of(kind_in(node));
    if j < change.made() {
        return own_step(change, number_in(node), j, depth);
    }
    step_at(Path { depth, ..path }, j - change.made() + change.gone())
}

// Whether step j leads to a second part.
pub fn is_second(path: Path<'_>, j: usize) -> bool
    requires { (path.depth ≤ 1024) × (j + path.depth ≤ 1048576) }
    ensures { result ≡ by_part (drop j (path_of path.entry.changes.now path.entry.depth)) false true }
{
    let Some(found) = step_at(path, j) else {
        return false;
    };
    matches!(found, Found::SecondPart)
}

// [3.16], [6.17] The counter or region of a level, counted from 0 innermost, where so many are in force.
pub fn from_innermost(many: u16, level: u16) -> u16
    ensures { result ≡ many - suc level }
{
    if level < many { many - 1 - level } else { 0 }
}

// [6.21], [6.22] The rows of the index at step j.
pub fn put_index(path: Path<'_>, rows: &mut Rows, j: usize, counters: u16)
    requires { (path.depth ≤ 1024) × (j + path.depth ≤ 1048576) }
    ensures { rows.new ≡ put_rows
        (offset_rows (offset_from_innermost counters (leading_index (drop j (path_of path.entry.changes.now path.entry.depth))))) rows.old }
{
    if rows.has_too_many() {
        return;
    }
    let Some(found) = step_at(path, j) else {
        rows.put_count(WORD_LIT, 0);
        return;
    };
    match found {
        Found::CounterAt(level) => rows.put_count(WORD_CTR, from_innermost(counters, level)),
        Found::LiteralAt(value) => rows.put_count(WORD_LIT, value),
        Found::Same(depth) => put_index(Path { depth, ..path }, rows, 0, counters),
        Found::OfGroup(length, depth) => {
            rows.put_count(WORD_PLUS, 0);
            rows.put_count(WORD_TIMES, length);
            put_index(Path { depth, ..path }, rows, 0, counters);
            put_index(Path { depth, ..path }, rows, 1, counters);
        }
        Found::Quotient(length, depth) => {
            rows.put_count(WORD_OVER, length);
            put_index(Path { depth, ..path }, rows, 0, counters);
        }
        Found::Remainder(length, depth) => {
            rows.put_count(WORD_REST, length);
            put_index(Path { depth, ..path }, rows, 0, counters);
        }
        Found::FirstPart | Found::SecondPart => rows.put_count(WORD_LIT, 0),
    }
}
