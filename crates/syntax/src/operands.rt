// What is due behind a row [1.7]: its operands, their sorts, and the names in force in each.
ghost use Rattle.std.specs.Prelude.{◌≡◌, ◌≤◌};
ghost use Rattle.syntax.specs.Names.{Bounded};
ghost use Rattle.syntax.specs.Operands.{inputs_counted, operand_sort, operand_of};

use crate::names::Names;
use words::Sort;
use words::kinds::*;

// What is due: a row of a sort, and the names in force there.
#[derive(Clone, Copy, Debug, PartialEq, Eq)]
pub struct Due {
    pub sort: Sort,
    pub names: Names,
}

// [2.3] The inputs that stand before the operands that the table lists for a row of this sort.
pub fn inputs_counted(sort: Sort, number: usize) -> usize
    ensures { (result ≡ inputs_counted sort number) × (result ≤ number) }
{
    match sort {
        Sort::Plan | Sort::Loops => number,
        _ => 0,
    }
}

// The sort of a row's operand, the last one or another.
#[tactic(auto, unfolding(words::specs::Groups::one_of))]
fn operand_sort(sort: Sort, kind: u8, last: bool) -> Sort
    ensures { result ≡ operand_sort sort kind last }
{
    match (sort, kind, last) {
        (Sort::Plan, _, false) => Sort::DataType,
        (Sort::Plan, _, true) => Sort::Term,
        (Sort::Loops, _, false) => Sort::Cells,
        (Sort::Loops, _, true) => Sort::Command,
        (Sort::Command, WORD_SET, false) => Sort::Place,
        (Sort::Command, WORD_SET, true) => Sort::Value,
        (Sort::Place, _, _) | (Sort::Value, WORD_IN | WORD_LOC, _) => Sort::Offset,
        _ => sort,
    }
}

impl Due {
    // What is due as a row's operand: the names that the row opens are in force in the last one.
    #[tactic(auto, unfolding(crate::specs::Operands::operand_of))]
    pub fn operand(self, kind: u8, number: usize, last: bool) -> Due
        requires { Bounded self.names }
        ensures { result ≡ operand_of self kind number last }
    {
        let sort = operand_sort(self.sort, kind, last);
        if last {
            let names = self.names.opened(kind, number);
            return Due { sort, names };
        }
        Due { sort, ..self }
    }
}
