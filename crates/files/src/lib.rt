// What the programs read and print: files by name ([11.2], [16.8]), and a text on standard output.
#![tactic(auto)]

ghost use Rattle.std.specs.Prelude.{◌≡◌, ◌≤◌, length, take};
ghost use Rattle.files.specs.Files.{Counted, Within};

use refusals::Refusal;
use std::rt::Files;
use std::{fs, io};

// Reads a file, as far as the lent text has room for it: how many bytes were put at its front; none where it cannot be opened.
pub fn read<R: Files>(rt: &R, path: &str, text: &mut [u8]) -> Option<usize>
    ensures { Counted result text.new }
{
    let mut file = fs::open(rt, path).ok()?;
    let bytes = fill(&mut file, text);
    Some(bytes)
}

// The same for who does not tell a file that cannot be opened from an empty one: how many bytes were put, 0 where it cannot be opened.
pub fn read_if_there<R: Files>(rt: &R, path: &str, text: &mut [u8]) -> usize
    ensures { (result ≤ length text.new) × (result ≡ length (take result text.new)) }
{
    read(rt, path, text).unwrap_or(0)
}

// Reads to the end, or as far as the lent text has room, or until reading fails: how many bytes were put at its front. Each read says how
// far it came, so the bytes are counted by hand.
pub fn fill<S: io::Read>(source: &mut S, text: &mut [u8]) -> usize
    ensures { (result ≤ length text.new) × (result ≡ length (take result text.new)) }
{
    let mut filled = 0usize;
    while filled < text.len() {
        let Ok(more) = source.read(&mut text[filled..]) else {
            return filled;
        };
        if more == 0 {
            return filled;
        }
        filled += more;
    }
    filled
}

// Prints the front of a text, of so many bytes as were put there; nothing where none were. What cannot be written is let go ([11.8]).
pub fn print<P: Print>(rt: &P, put: Result<usize, Refusal>, text: &[u8])
    requires { Within put text.now }
{
    let Ok(bytes) = put else {
        return;
    };
    let _written = rt.write_all(&text[..bytes]);
}
