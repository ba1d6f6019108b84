// [6.2] Writing a term, and using it in a command C, over the term's rows. A use is in tail position: its rows are put, and what C
// puts follows; so a use hands back the node that C is to read.
#![tactic(auto)]

mod reductions;
pub mod terms;
mod uses;
pub mod writes;
