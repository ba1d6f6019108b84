// [18.2] Arrays or vectors: what a map, a `split`, a `join` and an `idx` are of. [10.7] and [10.8] on either.
ghost use Rattle.std.specs.Prelude.{◌≡◌, suc, ◌+◌, ◌*◌, ◌≤◌, ◌<◌};
ghost use Rattle.meaning.specs.Types.{array as arrayType, series_of};
ghost use Rattle.type_table.specs.Table.{type_at, Sound};
ghost use Rattle.typing.specs.Check.{may_be_in, sized, fitted};
ghost use Rattle.type_rules.specs.Rules.{Room, Found, meant, map_series, LengthWithin, SeriesTold, SeriesAsked};

use crate::rules::sized_array;
use crate::{Row, Typed};
use refusals::Refusal;
use type_table::ArrayShape;
use words::kinds::WORD_MAPVEC;

#[derive(Clone, Copy, Debug, PartialEq, Eq)]
pub enum Series {
    Arrays,
    Vectors,
}

impl Series {
    // [18.3] What a map of this kind goes over.
    pub fn of_map(kind: u8) -> Series
        ensures { meant result ≡ map_series kind }
    {
        if kind == WORD_MAPVEC {
            Series::Vectors
        } else {
            Series::Arrays
        }
    }

    // The length and element of the type at a place, where it is such a series: the elements of a vector are numbers.
    #[tactic(auto, using(crate::proofs::Found::array_told, crate::proofs::Found::vector_within))]
    fn at(self, types: &[u64], place: usize) -> Option<ArrayShape>
        requires { Sound types.now (suc place) }
        ensures { SeriesTold (meant self) types.now place result }
    {
        match self {
            Series::Arrays => type_table::as_array(types, place),
            Series::Vectors => {
                let length = type_table::as_vector(types, place)?;
                Some(ArrayShape {
                    length,
                    element: type_table::NUMBER_TYPE,
                })
            }
        }
    }

    // [10.7] The same of an operand that has to be such a series, or the "no" to question 7.
    pub fn ask(self, types: &[u64], place: usize, line: usize) -> Result<ArrayShape, Refusal>
        requires { Sound types.now (suc place) }
        ensures { SeriesAsked (meant self) line types.now place result }
    {
        self.at(types, place).ok_or(Refusal::TypeMisfit(line))
    }

    // Question 7 on the element of such a series, which in a vector is a number, and then question 8 on the series.
    pub fn sized(
        self,
        types: &mut [u64],
        row: Row,
        count: usize,
        element: usize,
    ) -> Result<Typed, Refusal>
        requires { Room types.old row.len 1 × (element < row.len) × LengthWithin (meant self) count }
        ensures { Found types.old row.len types.new (row.len + 1) row.rows
            (fitted row.line (may_be_in (meant self) (type_at types.old element)) (series_of (meant self) count (type_at types.old element))) result }
    {
        match self {
            Series::Arrays => sized_array(types, row, count, element),
            Series::Vectors => {
                if !type_table::is_number(types, element) {
                    return Err(Refusal::TypeMisfit(row.line));
                }
                type_table::put_vector(types, row.len, count);
                Ok(Typed {
                    place: row.len,
                    rows: row.rows,
                    len: row.len + 1,
                })
            }
        }
    }
}
