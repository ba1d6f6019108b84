// What the translation of a plan emits: the rows of values, of places and of assignments: [6.3], [6.17] to [6.23].
#![tactic(auto)]

pub mod assign;
pub mod elements;
mod offsets;
mod paths;
mod places;
pub mod references;
pub mod rows;
pub mod sources;
mod values;
