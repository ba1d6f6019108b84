// The static library for firmware written in C, [12.1]: each export calls the entry of its name in `vazhdumir`, and promises what it promises.
#![tactic(auto)]

ghost use Rattle.words.specs.Words.{words};
ghost use Rattle.vazhdumir.specs.Promises.{ChecksPlanForC, TranslatesForC, ChecksLoopsForC, TellsNeedForC};
ghost use Rattle.vazhdumir.specs.Promises.{ReadsLoopsForC, RunsTextForC, RunsRowsForC, LooksUpForC};
ghost use Rattle.vazhdumir.specs.Promises.{ChecksPlanForCIn, TranslatesForCIn, ChecksLoopsForCIn, TellsNeedForCIn};
ghost use Rattle.vazhdumir.specs.Promises.{ReadsLoopsForCIn, RunsTextForCIn, LooksUpForCIn};

// Checks a plan's text.
#[unsafe(no_mangle)]
pub extern "C" fn vazhdumir_check_plan(text: &[u8]) -> u64
    ensures { ChecksPlanForC words text.now result }
{
    vazhdumir::vazhdumir_check_plan(text)
}

// Translates a plan's text; the text of the loops goes to the front of the lent one: how many bytes were put.
#[unsafe(no_mangle)]
pub extern "C" fn vazhdumir_translate(text: &[u8], lent: &mut [u8]) -> u64
    ensures { TranslatesForC words text.now lent.old result lent.new }
{
    vazhdumir::vazhdumir_translate(text, lent)
}

// Checks a text of loops: the writes that every run of them makes.
#[unsafe(no_mangle)]
pub extern "C" fn vazhdumir_check_loops(text: &[u8]) -> u64
    ensures { ChecksLoopsForC words text.now result }
{
    vazhdumir::vazhdumir_check_loops(text)
}

// The cells that a text of loops needs.
#[unsafe(no_mangle)]
pub extern "C" fn vazhdumir_need(text: &[u8]) -> u64
    ensures { TellsNeedForC words text.now result }
{
    vazhdumir::vazhdumir_need(text)
}

// Reads a text of loops into a lent table: how many rows were put.
#[unsafe(no_mangle)]
pub extern "C" fn vazhdumir_read_loops(text: &[u8], kinds: &mut [u8], numbers: &mut [i32]) -> u64
    ensures { ReadsLoopsForC words text.now kinds.old numbers.old result kinds.new numbers.new }
{
    vazhdumir::vazhdumir_read_loops(text, kinds, numbers)
}

// Runs a text of loops on a store in bytes, every `par` in the order named: how many writes were made.
#[unsafe(no_mangle)]
pub extern "C" fn vazhdumir_run(text: &[u8], order: u32, bytes: &mut [u8]) -> u64
    ensures { RunsTextForC words text.now order bytes.old result bytes.new }
{
    vazhdumir::vazhdumir_run(text, order, bytes)
}

// The same of a lent table.
#[unsafe(no_mangle)]
pub extern "C" fn vazhdumir_run_rows(
    kinds: &[u8],
    numbers: &[i32],
    order: u32,
    bytes: &mut [u8],
) -> u64
    ensures { RunsRowsForC kinds.now numbers.now order bytes.old result bytes.new }
{
    vazhdumir::vazhdumir_run_rows(kinds, numbers, order, bytes)
}

// Searches the built-in words for one: how many rows were compared, and 2^16 more where it is listed.
#[unsafe(no_mangle)]
pub extern "C" fn vazhdumir_look_up(word: &[u8]) -> u64
    ensures { LooksUpForC words word.now result }
{
    vazhdumir::vazhdumir_look_up(word)
}

// [16.7] The twins: each takes a words text, and then what its entry takes.
#[unsafe(no_mangle)]
pub extern "C" fn vazhdumir_check_plan_in(words: &[u8], text: &[u8]) -> u64
    ensures { ChecksPlanForCIn words.now text.now result }
{
    vazhdumir::vazhdumir_check_plan_in(words, text)
}

#[unsafe(no_mangle)]
pub extern "C" fn vazhdumir_translate_in(words: &[u8], text: &[u8], lent: &mut [u8]) -> u64
    ensures { TranslatesForCIn words.now text.now lent.old result lent.new }
{
    vazhdumir::vazhdumir_translate_in(words, text, lent)
}

#[unsafe(no_mangle)]
pub extern "C" fn vazhdumir_check_loops_in(words: &[u8], text: &[u8]) -> u64
    ensures { ChecksLoopsForCIn words.now text.now result }
{
    vazhdumir::vazhdumir_check_loops_in(words, text)
}

#[unsafe(no_mangle)]
pub extern "C" fn vazhdumir_need_in(words: &[u8], text: &[u8]) -> u64
    ensures { TellsNeedForCIn words.now text.now result }
{
    vazhdumir::vazhdumir_need_in(words, text)
}

#[unsafe(no_mangle)]
pub extern "C" fn vazhdumir_read_loops_in(
    words: &[u8],
    text: &[u8],
    kinds: &mut [u8],
    numbers: &mut [i32],
) -> u64
    ensures { ReadsLoopsForCIn words.now text.now kinds.old numbers.old result kinds.new numbers.new }
{
    vazhdumir::vazhdumir_read_loops_in(words, text, kinds, numbers)
}

#[unsafe(no_mangle)]
pub extern "C" fn vazhdumir_run_in(words: &[u8], text: &[u8], order: u32, bytes: &mut [u8]) -> u64
    ensures { RunsTextForCIn words.now text.now order bytes.old result bytes.new }
{
    vazhdumir::vazhdumir_run_in(words, text, order, bytes)
}

#[unsafe(no_mangle)]
pub extern "C" fn vazhdumir_look_up_in(words: &[u8], word: &[u8]) -> u64
    ensures { LooksUpForCIn words.now word.now result }
{
    vazhdumir::vazhdumir_look_up_in(words, word)
}
