// Cutting a text into lines [1.1] and a line into fields [1.2]: a line ends at the next byte 10, a field at the next comma.
#![tactic(auto)]

ghost use Rattle.std.specs.Prelude.{◌≡◌, ◌≤◌, length};
ghost use Rattle.texts.specs.Texts.{place_of};

// Where the byte first stands; the length where it does not.
fn place_of(byte: u8, bytes: &[u8]) -> usize
    ensures { (result ≡ place_of byte bytes.now) × (result ≤ length bytes.now) }
{
    bytes.iter().position(|b| *b == byte).unwrap_or(bytes.len())
}

// [1.1] How many bytes stand before the end of a text's first line.
pub fn line_length(text: &[u8]) -> usize
    ensures { (result ≡ place_of 10 text.now) × (result ≤ length text.now) }
{
    place_of(b'\n', text)
}

// [1.2] How many bytes stand before the first comma of a line.
pub fn field_length(line: &[u8]) -> usize
    ensures { (result ≡ place_of 44 line.now) × (result ≤ length line.now) }
{
    place_of(b',', line)
}
