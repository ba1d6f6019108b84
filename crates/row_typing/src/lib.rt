// The types of a plan's rows, by recursion over the rows: [10.7] and [10.8].
// Kinds and numbers of rows come as two slices, as the interface for C lends them.
#![tactic(auto)]

mod inputs;
mod terms;

ghost use Rattle.row_typing.specs.Typed.{PlanRoom, PlanAnswered};

use refusals::Refusal;
use type_rules::Typed;
use type_rules::scope::Scope;

// The places of the inputs' types, the term's first row, and what was found of the term.
#[derive(Clone, Copy, Debug, PartialEq, Eq)]
pub struct TypedPlan {
    pub inputs: [u16; 8],
    pub row: usize,
    pub term: Typed,
}

// [3.6] The types of a plan: they are put in the table of types, and those of its term's rows noted in the column beside them.
pub fn type_plan(
    kinds: &[u8],
    numbers: &[i32],
    types: &mut [u64],
    column: &mut [u16],
) -> Result<TypedPlan, Refusal>
    requires { PlanRoom kinds.now numbers.now types.old column.old }
    ensures { PlanAnswered kinds.now numbers.now types.old column.old types.new column.new result }
{
    let inputs = inputs::type_inputs(kinds, numbers, types)?;
    let row = inputs.row;
    let places = inputs.places;
    let scope = Scope {
        inputs: places,
        variables: [0; 16],
        count: 0,
    };
    let term = terms::type_of(
        &kinds[row..],
        &numbers[row..],
        row,
        scope,
        types,
        inputs.len,
        column,
    )?;
    Ok(TypedPlan {
        inputs: places,
        row,
        term,
    })
}
