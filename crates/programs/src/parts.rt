// The parts of what is printed: numbers and a refusal's line ([11.8]).
ghost use Rattle.std.specs.Prelude.{[], ◌∷◌, ◌++◌, ◌≡◌, ◌+◌, ◌≤◌, pos, length};
ghost use Rattle.std.proofs.lemmas.List.Edits.{sets};
ghost use Rattle.numerals.specs.Numerals.{decimal};
ghost use Rattle.programs.specs.Printed.{refusal_text, PutInto};

use refusals::Refusal;

// Puts a natural number and the byte behind it; the place behind both.
pub fn put_natural(value: u64, closing: u8, text: &mut [u8], at: usize) -> usize
    requires { at ≤ length text.old }
    ensures { (result ≡ at + length (decimal (pos value) ++ (closing ∷ [])))
        × (text.new ≡ sets text.old at (decimal (pos value) ++ (closing ∷ []))) × (result ≤ at + 21) }
{
    numerals::put_natural(value, text, at);
    let end = at + numerals::natural_size(value);
    slices::put(text, end, closing);
    end + 1
}

// The bytes of a refusal's line.
fn refusal_size(refusal: Refusal) -> usize
    ensures { (result ≡ length (refusal_text refusal)) × (3 ≤ result) × (result ≤ 45) }
{
    let number = refusal.number() as u64;
    let line = refusal.line() as u64;
    3 + numerals::natural_size(number) + 1 + numerals::natural_size(line) + 1
}

// Puts a refusal's line at the front of a text, if it has room for it. By hand: its bytes are promised, and Display promises none.
pub fn put_refusal(refusal: Refusal, text: &mut [u8]) -> Result<usize, Refusal>
    ensures { PutInto (refusal_text refusal) text.old result text.new × (length (refusal_text refusal) ≤ 45) }
{
    let size = refusal_size(refusal);
    if text.len() < size {
        return Err(Refusal::LentSize);
    }
    let number = refusal.number() as u64;
    let line = refusal.line() as u64;
    text[..3].copy_from_slice(b"no,");
    let comma = put_natural(number, b',', text, 3);
    put_natural(line, b'\n', text, comma);
    Ok(size)
}
