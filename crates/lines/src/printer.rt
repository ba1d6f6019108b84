// [1.9] From rows to a text, line by line.
ghost use Rattle.std.specs.Prelude.{◌≡◌, ◌+◌, ◌≤◌, ◌<◌, length};
ghost use Rattle.std.proofs.lemmas.List.Edits.{sets};
ghost use Rattle.words.specs.Kinds.{rows_of};
ghost use Rattle.words.specs.Tables.{words_in};
ghost use Rattle.words.specs.Words.{word_at};
ghost use Rattle.lines.specs.Printing.{written, text_of, printing};

use refusals::Refusal;
use words::Table;

// The bytes of a row's line.
fn line_size(table: &Table, kind: u8, number: i32) -> usize
    ensures { (result ≡ length (written (words_in table.now) (kind, number))) × (result ≤ 21) }
{
    words::length(table, kind) + 1 + numerals::size(number) + 1
}

// The bytes of the rows' text, if it has at most as many as there is room for.
pub fn text_size(
    table: &Table,
    kinds: &[u8],
    numbers: &[i32],
    room: usize,
) -> Result<usize, Refusal>
    ensures { result ≡ printing (text_of (words_in table.now) (rows_of kinds.now numbers.now)) room }
{
    let mut bytes = 0;
    for (kind, number) in kinds.iter().zip(numbers) {
        let size = line_size(table, *kind, *number);
        if room - bytes < size {
            return Err(Refusal::LentSize);
        }
        bytes += size;
    }
    Ok(bytes)
}

// Puts a word's letters.
fn put_word(table: &Table, kind: u8, text: &mut [u8], at: usize)
    requires { at ≤ length text.old }
    ensures { text.new ≡ sets text.old at (word_at (words_in table.now) kind) }
{
    for i in 0..words::length(table, kind) {
        slices::put(text, at + i, words::letter(table, kind, i));
    }
}

// Puts a row's line; the place behind it.
fn put_line(table: &Table, kind: u8, number: i32, text: &mut [u8], at: usize) -> usize
    requires { at ≤ length text.old }
    ensures { (result ≡ at + length (written (words_in table.now) (kind, number)))
        × (text.new ≡ sets text.old at (written (words_in table.now) (kind, number))) }
{
    put_word(table, kind, text, at);
    let comma = at + words::length(table, kind);
    slices::put(text, comma, b',');
    numerals::put(number, text, comma + 1);
    let end = comma + 1 + numerals::size(number);
    slices::put(text, end, b'\n');
    end + 1
}

// Puts the rows' text at the front of a text that has room for it.
pub fn put_text(table: &Table, kinds: &[u8], numbers: &[i32], text: &mut [u8])
    requires { length (text_of (words_in table.now) (rows_of kinds.now numbers.now)) ≤ length text.old }
    ensures { text.new ≡ sets text.old 0 (text_of (words_in table.now) (rows_of kinds.now numbers.now)) }
{
    let mut at = 0;
    for (kind, number) in kinds.iter().zip(numbers) {
        at = put_line(table, *kind, *number, text, at);
    }
}
