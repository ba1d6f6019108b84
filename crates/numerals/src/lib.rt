// [1.4] Numbers as a text writes them, in decimal: read from bytes, and put into bytes.
#![tactic(auto)]

ghost use Rattle.std.specs.Prelude.{◌≡◌, ◌≤◌, pos, nat_abs, length};
ghost use Rattle.std.proofs.lemmas.List.Edits.{sets};
ghost use Rattle.numerals.specs.Numerals.{numeral_of, unsigned, not_below_zero, below_zero, decimal};
ghost use Rattle.numerals.specs.Magnitudes.{at_most};

// The number that all of `bytes` say; none where they are not well written.
pub fn read(bytes: &[u8]) -> Option<i32>
    ensures { result ≡ numeral_of bytes.now }
{
    if bytes.is_empty() {
        return None;
    }
    if bytes[0] == b'-' {
        return read_below_zero(&bytes[1..]);
    }
    read_not_below_zero(bytes)
}

// The number that `digits` say with no minus before them.
fn read_not_below_zero(digits: &[u8]) -> Option<i32>
    ensures { result ≡ not_below_zero (unsigned digits.now) }
{
    let value = read_digits(digits, 2147483647)?;
    Some(value as i32)
}

// The number that `digits` say with a minus before them.
fn read_below_zero(digits: &[u8]) -> Option<i32>
    ensures { result ≡ below_zero (unsigned digits.now) }
{
    let value = read_digits(digits, 2147483648)?;
    if value == 0 {
        return None;
    }
    let number = -(value as i64);
    Some(number as i32)
}

// The number that `digits` stand for, if they are well written and it is at most `most`. It stops at the digit that
// takes it past `most`, so no length of `digits` makes it overflow.
fn read_digits(digits: &[u8], most: u64) -> Option<u64>
    requires { most ≤ 2147483648 }
    ensures { result ≡ at_most most (unsigned digits.now) }
{
    if digits.is_empty() {
        return None;
    }
    if 1 < digits.len() && digits[0] == b'0' {
        return None;
    }
    let mut value: u64 = 0;
    for byte in digits {
        if !byte.is_ascii_digit() {
            return None;
        }
        value = 10 * value + (*byte - b'0') as u64;
        if most < value {
            return None;
        }
    }
    Some(value)
}

// How many bytes `put` puts.
pub fn size(number: i32) -> usize
    ensures value { result ≡ length (decimal number) }
    ensures upper_bound { result ≤ 11 }
{
    let digits = natural_size(absolute(number));
    if number < 0 {
        return 1 + digits;
    }
    digits
}

// Puts `number` from place `at` on; a byte whose place is past the end of `text` is left out.
pub fn put(number: i32, text: &mut [u8], at: usize)
    ensures { text.new ≡ sets text.old at (decimal number) }
{
    if text.len() <= at {
        return;
    }
    let value = absolute(number);
    if number < 0 {
        text[at] = b'-';
        put_digits(value, text, at + 1);
    } else {
        put_digits(value, text, at);
    }
}

// How many digits `value` is written with.
pub fn natural_size(value: u64) -> usize
    ensures { (result ≡ length (decimal (pos value))) × (result ≤ 20) }
{
    let mut count = 1;
    let mut rest = value / 10;
    // No `for`: how many digits there are is what is counted.
    while 0 < rest {
        count += 1;
        rest = rest / 10;
    }
    count
}

// Puts a number that is not below zero from place `at` on; a byte whose place is past the end of `text` is left out.
pub fn put_natural(value: u64, text: &mut [u8], at: usize)
    ensures { text.new ≡ sets text.old at (decimal (pos value)) }
{
    if text.len() <= at {
        return;
    }
    put_digits(value, text, at);
}

// Puts the digits of `value`, the last one first.
fn put_digits(value: u64, text: &mut [u8], at: usize)
    requires { at ≤ length text.old }
    ensures { text.new ≡ sets text.old at (decimal (pos value)) }
{
    let mut rest = value;
    for end in (at..at + natural_size(value)).rev() {
        slices::put(text, end, b'0' + (rest % 10) as u8);
        rest = rest / 10;
    }
}

// The number without its sign.
fn absolute(number: i32) -> u64
    ensures { result ≡ nat_abs number }
{
    number.unsigned_abs() as u64
}
