// What is read and assigned element by element: an array, [18.2] and a vector, whose lanes are numbers.
ghost use Rattle.std.specs.Prelude.{suc};
ghost use Rattle.type_table.specs.Table.{Sound};
ghost use Rattle.emission.specs.Elements.{ElementsTold};

use type_table::{NUMBER_TYPE, Shape};
use words::kinds::*;

// How many elements there are, the place of their type, and the word of the loop that assigns them.
#[derive(Clone, Copy)]
pub struct Elements {
    pub length: usize,
    pub element: usize,
    pub word: u8,
}

// [6.3] The elements of the type at a place: of an array a `par` assigns them, [18.11] of a vector a `lanes`.
pub fn as_elements(types: &[u64], place: usize) -> Option<Elements>
    requires { Sound types.now (suc place) }
    ensures { ElementsTold types.now place result }
{
    match type_table::shape_at(types, place) {
        Shape::Array(array) => Some(Elements {
            length: array.length,
            element: array.element,
            word: WORD_PAR,
        }),
        Shape::Vector(width) => Some(Elements {
            length: width,
            element: NUMBER_TYPE,
            word: WORD_LANES,
        }),
        Shape::Number | Shape::Pair(_) => None,
    }
}
