// The types of a plan's inputs, which are asked first ([10.19]).
ghost use Rattle.std.specs.Prelude.{◌≡◌, ◌≤◌, length};
ghost use Rattle.meaning.specs.Terms.{Plan};
ghost use Rattle.row_typing.specs.Typed.{PlanStands, InputsFound};

use crate::terms;
use refusals::Refusal;

// The places of the inputs' types, the term's first row, and the types that the table has.
#[derive(Clone, Copy, Debug, PartialEq, Eq)]
pub struct TypedInputs {
    pub places: [u16; 8],
    pub row: usize,
    pub len: usize,
}

// The inputs' types.
pub fn type_inputs(kinds: &[u8], numbers: &[i32], types: &mut [u64]) -> Result<TypedInputs, Refusal>
    requires { (length kinds.now ≡ length numbers.now) × (length kinds.now ≤ 256) × (512 ≤ length types.old)
        × ((P : Plan) × PlanStands kinds.now numbers.now P) }
    ensures { (P : Plan) → PlanStands kinds.now numbers.now P → InputsFound types.old types.new P result }
{
    type_table::put_number(types);
    let mut places = [0u16; 8];
    let mut row = 1;
    let mut len = 1;
    for i in 0..syntax::ranges::natural(numbers[0]) {
        let input = terms::type_rows(&kinds[row..], &numbers[row..], row, types, len)?;
        places[i] = input.place as u16;
        row += input.rows;
        len = input.len;
    }
    Ok(TypedInputs { places, row, len })
}
