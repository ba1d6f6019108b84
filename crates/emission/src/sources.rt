// What the functions of the translation hand on: what it reads, what it makes, and how many counters and regions are in force.

use crate::rows::Rows;

// The table of types, and the numbers of the plan's rows, which literals name.
#[derive(Clone, Copy)]
pub struct Source<'a> {
    pub types: &'a [u64],
    pub plan: &'a [i32],
}

// The nodes that were made, and the rows that were put. It is 28 KiB: it is made once and lent.
#[derive(Drop)]
pub struct Made {
    pub references: [u64; 1024],
    pub rows: Rows,
}

// How many counters and how many regions are in force.
#[derive(Clone, Copy)]
pub struct InForce {
    pub counters: u16,
    pub regions: u16,
}
