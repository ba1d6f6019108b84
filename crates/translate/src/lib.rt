// The translation of a plan's text: [10.1] to [10.8], [10.10], [18.15], [10.11] and [10.12], before them [16.4] and [16.5] where a words text is
// given, and the loops as rows or as a text. Nothing lent is touched before the last "no" has been ruled out ([10.17]).
// Kinds and numbers of rows come as two slices, as the interface for C lends them.
#![tactic(auto)]

ghost use Rattle.words.specs.Tables.{words_in};
ghost use Rattle.words.specs.Words.{words};
ghost use Rattle.translate.specs.Promises.{TranslatesRows, TranslatesText, TranslatesRowsIn, TranslatesTextIn};

use refusals::Refusal;
use words::Table;

mod making;

// Translates a plan's text that is read with this table of words: the rows of its loops.
pub fn rows_with(
    table: &Table,
    text: &[u8],
    kinds: &mut [u8],
    numbers: &mut [i32],
) -> Result<usize, Refusal>
    ensures { TranslatesRows (words_in table.now) text.now kinds.old numbers.old result kinds.new numbers.new }
{
    let mut plan_kinds = [0u8; 256];
    let mut plan_numbers = [0i32; 256];
    let rows = lines::read_plan(table, text, &mut plan_kinds, &mut plan_numbers)?;
    making::make_rows(&plan_kinds[..rows], &plan_numbers[..rows], kinds, numbers)
}

// The same: the text of its loops, printed with the same table.
fn text_with(table: &Table, text: &[u8], lent: &mut [u8]) -> Result<usize, Refusal>
    ensures { TranslatesText (words_in table.now) text.now lent.old result lent.new }
{
    let mut kinds = [0u8; 4096];
    let mut numbers = [0i32; 4096];
    let rows = rows_with(table, text, &mut kinds, &mut numbers)?;
    lines::print(table, &kinds[..rows], &numbers[..rows], lent)
}

// [10.16] Translates a plan's text; the rows of the loops go to the front of the lent table of rows: how many they are, or the first "no".
pub fn translate_rows(text: &[u8], kinds: &mut [u8], numbers: &mut [i32]) -> Result<usize, Refusal>
    ensures { TranslatesRows words text.now kinds.old numbers.old result kinds.new numbers.new }
{
    rows_with(&words::built_in(), text, kinds, numbers)
}

// [10.16] Translates a plan's text; the text of the loops goes to the front of the lent one: how many bytes it has, or the first "no".
pub fn translate_text(text: &[u8], lent: &mut [u8]) -> Result<usize, Refusal>
    ensures { TranslatesText words text.now lent.old result lent.new }
{
    text_with(&words::built_in(), text, lent)
}

// [16.7] The translation to rows under a words text.
pub fn translate_rows_in(
    words: &[u8],
    text: &[u8],
    kinds: &mut [u8],
    numbers: &mut [i32],
) -> Result<usize, Refusal>
    ensures { TranslatesRowsIn words.now text.now kinds.old numbers.old result kinds.new numbers.new }
{
    let table = own_words::read(words)?;
    rows_with(&table, text, kinds, numbers)
}

// [16.7] The translation to a text under a words text, whose words it is in.
pub fn translate_text_in(words: &[u8], text: &[u8], lent: &mut [u8]) -> Result<usize, Refusal>
    ensures { TranslatesTextIn words.now text.now lent.old result lent.new }
{
    let table = own_words::read(words)?;
    text_with(&table, text, lent)
}
