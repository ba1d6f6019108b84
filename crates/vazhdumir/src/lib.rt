// The entries for firmware written in C: [12.1]. Each answers as [12.2] and [12.3] say; slices and stores come as [12.4] says, and
// nothing is allocated or kept ([12.5]). `vazhdumir_c` exports them.
// Kinds and numbers of rows come as two slices, as the interface for C lends them.
#![tactic(auto)]

ghost use Rattle.std.specs.Prelude.{◌≤◌, length, ◌≡◌, Ok};
ghost use Rattle.words.specs.Words.{words};
ghost use Rattle.words.specs.declared.Search.{Search};
ghost use Rattle.loops.specs.Check.{writes_of};
ghost use Rattle.vazhdumir.specs.Codes.{refusal_code, answer_code, accepted_code, search_code, searched_code};
ghost use Rattle.vazhdumir.specs.Promises.{ChecksPlanForC, TranslatesForC, ChecksLoopsForC, TellsNeedForC};
ghost use Rattle.vazhdumir.specs.Promises.{ReadsLoopsForC, RunsTextForC, RunsRowsForC, LooksUpForC};
ghost use Rattle.vazhdumir.specs.Promises.{ChecksPlanForCIn, TranslatesForCIn, ChecksLoopsForCIn, TellsNeedForCIn};
ghost use Rattle.vazhdumir.specs.Promises.{ReadsLoopsForCIn, RunsTextForCIn, LooksUpForCIn};

use columns::Counted;
use refusals::Refusal;
use words::Search;

// [12.2] The greatest line that an answer holds.
const MOST_LINE: usize = 72057594037927935;

// [17.4] The bit of a word that is listed.
const LISTED: u64 = 65536;

fn refusal_code(refusal: Refusal) -> u64
    ensures { result ≡ refusal_code refusal }
{
    let number = refusal.number() as u64;
    let line = refusal.line().min(MOST_LINE);
    number * 72057594037927936 + line as u64
}

fn code(answer: Result<usize, Refusal>) -> u64
    ensures { result ≡ answer_code answer }
{
    match answer {
        Ok(number) => number as u64,
        Err(refusal) => refusal_code(refusal),
    }
}

fn accepted_code(answer: Result<usize, Refusal>) -> u64
    ensures { result ≡ accepted_code answer }
{
    match answer {
        Ok(_) => 0,
        Err(refusal) => refusal_code(refusal),
    }
}

fn checked_code(checked: Result<Counted, Refusal>) -> u64
    ensures { result ≡ answer_code (writes_of checked) }
{
    match checked {
        Ok(counted) => counted.writes as u64,
        Err(refusal) => refusal_code(refusal),
    }
}

fn search_code(search: Search) -> u64
    requires { search.compared ≤ length words }
    ensures { result ≡ search_code search }
{
    let compared = search.compared as u64;
    match search.found {
        Some(_) => LISTED + compared,
        None => compared,
    }
}

fn searched_code(searched: Result<Search, Refusal>) -> u64
    requires { (s : Search) → searched ≡ Ok s → s.compared ≤ length words }
    ensures { result ≡ searched_code searched }
{
    match searched {
        Ok(search) => search_code(search),
        Err(refusal) => refusal_code(refusal),
    }
}

// Checks a plan's text.
pub fn vazhdumir_check_plan(text: &[u8]) -> u64
    ensures { ChecksPlanForC words text.now result }
{
    accepted_code(plans::check_text(text))
}

// Translates a plan's text; the text of the loops goes to the front of the lent one: how many bytes were put.
pub fn vazhdumir_translate(text: &[u8], lent: &mut [u8]) -> u64
    ensures { TranslatesForC words text.now lent.old result lent.new }
{
    code(translate::translate_text(text, lent))
}

// Checks a text of loops: the writes that every run of them makes.
pub fn vazhdumir_check_loops(text: &[u8]) -> u64
    ensures { ChecksLoopsForC words text.now result }
{
    checked_code(loops::check_text(text))
}

// The cells that a text of loops needs.
pub fn vazhdumir_need(text: &[u8]) -> u64
    ensures { TellsNeedForC words text.now result }
{
    code(loops::need_text(text))
}

// Reads a text of loops into a lent table: how many rows were put.
pub fn vazhdumir_read_loops(text: &[u8], kinds: &mut [u8], numbers: &mut [i32]) -> u64
    ensures { ReadsLoopsForC words text.now kinds.old numbers.old result kinds.new numbers.new }
{
    code(loops::read_text(text, kinds, numbers))
}

// Runs a text of loops on a store in bytes, every `par` in the order named: how many writes were made.
pub fn vazhdumir_run(text: &[u8], order: u32, bytes: &mut [u8]) -> u64
    ensures { RunsTextForC words text.now order bytes.old result bytes.new }
{
    let mut none = [0i32; 0];
    code(run::run_text(text, order, &mut none, bytes))
}

// The same of a lent table.
pub fn vazhdumir_run_rows(kinds: &[u8], numbers: &[i32], order: u32, bytes: &mut [u8]) -> u64
    ensures { RunsRowsForC kinds.now numbers.now order bytes.old result bytes.new }
{
    let mut none = [0i32; 0];
    code(run::run_rows(kinds, numbers, order, &mut none, bytes))
}

// Searches the built-in words for one: how many rows were compared, and 2^16 more where it is listed.
pub fn vazhdumir_look_up(word: &[u8]) -> u64
    ensures { LooksUpForC words word.now result }
{
    search_code(words::look_up(word))
}

// [16.7] The twins: each takes a words text, and then what its entry takes.
pub fn vazhdumir_check_plan_in(words: &[u8], text: &[u8]) -> u64
    ensures { ChecksPlanForCIn words.now text.now result }
{
    accepted_code(plans::check_text_in(words, text))
}

pub fn vazhdumir_translate_in(words: &[u8], text: &[u8], lent: &mut [u8]) -> u64
    ensures { TranslatesForCIn words.now text.now lent.old result lent.new }
{
    code(translate::translate_text_in(words, text, lent))
}

pub fn vazhdumir_check_loops_in(words: &[u8], text: &[u8]) -> u64
    ensures { ChecksLoopsForCIn words.now text.now result }
{
    checked_code(loops::check_text_in(words, text))
}

pub fn vazhdumir_need_in(words: &[u8], text: &[u8]) -> u64
    ensures { TellsNeedForCIn words.now text.now result }
{
    code(loops::need_text_in(words, text))
}

pub fn vazhdumir_read_loops_in(
    words: &[u8],
    text: &[u8],
    kinds: &mut [u8],
    numbers: &mut [i32],
) -> u64
    ensures { ReadsLoopsForCIn words.now text.now kinds.old numbers.old result kinds.new numbers.new }
{
    code(loops::read_text_in(words, text, kinds, numbers))
}

pub fn vazhdumir_run_in(words: &[u8], text: &[u8], order: u32, bytes: &mut [u8]) -> u64
    ensures { RunsTextForCIn words.now text.now order bytes.old result bytes.new }
{
    let mut none = [0i32; 0];
    code(run::run_text_in(words, text, order, &mut none, bytes))
}

pub fn vazhdumir_look_up_in(words: &[u8], word: &[u8]) -> u64
    ensures { LooksUpForCIn words.now word.now result }
{
    searched_code(own_words::look_up_in(words, word))
}
