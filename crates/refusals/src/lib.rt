// The refusals: one case for each question, [10.1] to [10.15], [16.4], [16.5] and [18.15], that can be answered "no". What may refuse answers
// `Result<_, Refusal>`.
#![tactic(auto)]

ghost use Rattle.std.specs.Prelude.{◌≡◌};
ghost use Rattle.refusals.specs.Refusals.{refusal_number, refusal_line};

use std::error::Error;
use std::fmt;

// Which question was answered "no"; where its rule gives a line, that line, counted from 1 [1.5].
#[derive(Clone, Copy, Debug, PartialEq, Eq)]
pub enum Refusal {
    TextForm,
    LineForm(usize),
    LineCount,
    RowDue(usize),
    NumberRange(usize),
    NameCount(usize),
    TypeMisfit(usize),
    TypeSize(usize),
    OffsetBound(usize),
    LoopsLength,
    WriteCount,
    LentSize,
    UnknownOrder,
    StoreSize,
    ValueLines,
    WordsForm,
    WordTwice,
    LanesInside(usize),
}

impl Refusal {
    // [10.17] Its number.
    pub fn number(self) -> u8
        ensures { result ≡ refusal_number self }
    {
        match self {
            Refusal::TextForm => 1,
            Refusal::LineForm(_) => 2,
            Refusal::LineCount => 3,
            Refusal::RowDue(_) => 4,
            Refusal::NumberRange(_) => 5,
            Refusal::NameCount(_) => 6,
            Refusal::TypeMisfit(_) => 7,
            Refusal::TypeSize(_) => 8,
            Refusal::OffsetBound(_) => 9,
            Refusal::LoopsLength => 10,
            Refusal::WriteCount => 11,
            Refusal::LentSize => 12,
            Refusal::UnknownOrder => 13,
            Refusal::StoreSize => 14,
            Refusal::ValueLines => 15,
            Refusal::WordsForm => 16,
            Refusal::WordTwice => 17,
            Refusal::LanesInside(_) => 18,
        }
    }

    // [10.17] Its line: 0 where the question is put to a whole.
    pub fn line(self) -> usize
        ensures { result ≡ refusal_line self }
    {
        match self {
            Refusal::LineForm(line)
            | Refusal::RowDue(line)
            | Refusal::NumberRange(line)
            | Refusal::NameCount(line)
            | Refusal::TypeMisfit(line)
            | Refusal::TypeSize(line)
            | Refusal::OffsetBound(line)
            | Refusal::LanesInside(line) => line,
            _ => 0,
        }
    }
}

// The number and the line with the commas of [11.8]. The two programs put these bytes by hand, since their bytes are promised and those of
// Display are not.
impl fmt::Display for Refusal {
    fn fmt<W: fmt::Write>(&self, f: &mut fmt::Formatter<W>) -> fmt::Result {
        write!(f, "no,{},{}", self.number(), self.line())
    }
}

impl Error for Refusal {}
