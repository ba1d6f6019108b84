// Reads a words text into a table of words: [16.1], [16.2], [16.4] to [16.6]; and searches its own words: [17.3].
#![tactic(auto)]

ghost use Rattle.std.specs.Prelude.{◌≡◌, true, map, ◌+◌, ◌≤◌, ◌<◌, length, get_or, drop};
ghost use Rattle.words.specs.Good.{lower_case, distinct};
ghost use Rattle.words.specs.Tables.{word_in, words_in};
ghost use Rattle.words.specs.Words.{words, word_at};
ghost use Rattle.texts.specs.Texts.{lines_of, after_comma, place_of};
ghost use Rattle.own_words.specs.OwnWords.{most_letters, is_own_word, is_own_line, are_own_lines, TakesLines};
ghost use Rattle.own_words.specs.Promises.{ReadsWords, LooksUpIn};

use refusals::Refusal;
use words::kinds::{WORD_COUNT, WORD_LIT};
use words::{Search, Table};

// [16.2] How many letters the own word of this kind may have.
fn most_letters(kind: usize) -> usize
    ensures { result ≡ most_letters kind }
{
    if kind == WORD_LIT as usize {
        return 3;
    }
    8
}

// Whether these are letters a to z.
fn is_lower_case(letters: &[u8]) -> bool
    ensures { result ≡ lower_case letters.now }
{
    letters.iter().all(|letter| letter.is_ascii_lowercase())
}

// [16.2] Whether these letters can be the own word of this kind.
fn is_own_word(kind: usize, letters: &[u8]) -> bool
    ensures { result ≡ is_own_word kind letters.now }
{
    if letters.is_empty() {
        return false;
    }
    if most_letters(kind) < letters.len() {
        return false;
    }
    is_lower_case(letters)
}

// [16.1] Whether a line is the built-in word of this kind, a comma and an own word.
fn is_own_line(built_in: &Table, kind: usize, line: &[u8]) -> bool
    requires { (words_in built_in.now ≡ words) × (kind < length words) }
    ensures { result ≡ is_own_line kind (word_at words kind) line.now }
{
    let comma = texts::field_length(line);
    let front = words::find(built_in, &line[..comma]).found;
    if front != Some(kind) {
        return false;
    }
    if line.len() == comma {
        return false;
    }
    let behind = comma + 1;
    is_own_word(kind, &line[behind..])
}

// The letter of this place; a blank behind the last one.
fn letter_or_blank(letters: &[u8], i: usize) -> u8
    ensures { result ≡ get_or letters.now i 32 }
{
    letters.get(i).copied().unwrap_or(b' ')
}

// A table's row with the word of these letters. Its operands are not looked at ([16.3]): those of the built-in table count.
fn row_with(row: [u8; 19], letters: &[u8]) -> [u8; 19]
    requires { length letters.now ≤ 8 }
    ensures { word_in result ≡ letters.now }
{
    let mut own = row;
    own[8] = b'0' + letters.len() as u8;
    for i in 0..8 {
        own[i] = letter_or_blank(letters, i);
    }
    own
}

// A table's row with the own word of a line.
fn row_of_line(row: [u8; 19], line: &[u8]) -> [u8; 19]
    requires { (1 ≤ length (after_comma line.now)) × (length (after_comma line.now) ≤ 8) }
    ensures { word_in result ≡ after_comma line.now }
{
    let behind = texts::field_length(line) + 1;
    row_with(row, &line[behind..])
}

// [1.1] Where the line that begins here ends.
fn line_end(text: &[u8], at: usize) -> usize
    requires { at < length text.now }
    ensures { (result ≡ at + place_of 10 (drop at text.now)) × (result ≤ length text.now) }
{
    at + texts::line_length(&text[at..])
}

// [16.1] The table with the own words of a text that has a line for each built-in word and none besides.
fn own_table(text: &[u8]) -> Option<Table>
    ensures { TakesLines text.now result }
{
    let built_in = words::built_in();
    let mut own = built_in;
    let mut at = 0;
    for kind in 0..WORD_COUNT {
        if text.len() <= at {
            return None;
        }
        let end = line_end(text, at);
        let line = &text[at..end];
        if !is_own_line(&built_in, kind, line) {
            return None;
        }
        let row = own[kind];
        own[kind] = row_of_line(row, line);
        at = end + 1;
    }
    if at < text.len() {
        return None;
    }
    Some(own)
}

// [16.5] Whether no two words of a table are alike: each is found at its own place.
fn are_distinct(table: &Table) -> bool
    ensures { result ≡ distinct (words_in table.now) }
{
    for kind in 0..WORD_COUNT {
        let found = words::find_row(table, table[kind]);
        if found != Some(kind) {
            return false;
        }
    }
    true
}

// [16.4], [16.5] Reads a words text: the table with its own words, or the "no".
pub fn read(text: &[u8]) -> Result<Table, Refusal>
    ensures { ReadsWords text.now result }
{
    if text.is_empty() {
        return Err(Refusal::WordsForm);
    }
    let last = text[text.len() - 1];
    if last != b'\n' {
        return Err(Refusal::WordsForm);
    }
    let table = own_table(text).ok_or(Refusal::WordsForm)?;
    if !are_distinct(&table) {
        return Err(Refusal::WordTwice);
    }
    Ok(table)
}

// [17.3] The search for a word among the own words of a words text.
pub fn look_up_in(words: &[u8], word: &[u8]) -> Result<Search, Refusal>
    ensures { LooksUpIn words.now word.now result }
{
    let table = read(words)?;
    Ok(words::find(&table, word))
}
