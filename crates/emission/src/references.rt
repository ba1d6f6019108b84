// What the translation reads and where it writes, as nodes of a table: expressions and acceptors. A node is one word: its kind,
// the place of a type in the table of types, a number, and the numbers of two nodes. One whose nodes do not stand before it
// stands for nothing, and node 0 does not: so every table has a meaning, and a node's number is a measure.
ghost use Rattle.std.specs.Prelude.{◌≡◌, ◌<◌, length};
ghost use Rattle.emission.specs.Nodes.{node_of, kind_in, type_in, number_in, left_in, right_in};
ghost use Rattle.emission.specs.References.{class_of};
ghost use Rattle.emission.specs.Growth.{Pushed};

use words::groups::is_operation;
use words::kinds::*;

// Kinds of nodes that are no word, past those of every table of words: the acceptors of the two operands of a `zip` ([6.9]). The others are named by words: `in`, `loc` and
// `out` lie in the store in some type, their numbers being an input or a region's level; the number of `lit` is its row in
// the plan. `split` and `join` are those of what is read; where a write goes through ([6.22]), `join` stands for the place of a
// `split`'s operand, and `split` for that of a `join`'s. [18.12] Vectors have no nodes of their own: `asvec`, `asscal` and `at` make those of
// `split`, `join` and `idx`.
pub const ZIP_FIRST: u8 = 254;

pub const ZIP_SECOND: u8 = 255;

// What is done with a node.
#[derive(Clone, Copy)]
pub enum Class {
    Literal,
    Input,
    Region,
    Output,
    Negation,
    Operation,
    Rearranged,
}

// As `change_of`: a `From<u8>` would say no more.
pub fn class_of(kind: u8) -> Class
    ensures { result ≡ class_of kind }
{
    match kind {
        WORD_LIT => Class::Literal,
        WORD_IN => Class::Input,
        WORD_LOC => Class::Region,
        WORD_OUT => Class::Output,
        WORD_NEG => Class::Negation,
        _ => if is_operation(kind) {
            Class::Operation
        } else {
            Class::Rearranged
        },
    }
}

fn node(kind: u8, place: usize, number: u16, left: usize, right: usize) -> u64
    requires { (place < 65536) × (left < 4096) × (right < 4096) }
    ensures { result ≡ node_of kind place number left right }
{
    (kind as u64) * 72057594037927936
        + (place as u64) * 1099511627776
        + (number as u64) * 16777216
        + (left as u64) * 4096
        + right as u64
}

pub fn kind_in(node: u64) -> u8
    ensures { result ≡ kind_in node }
{
    (node / 72057594037927936) as u8
}

// The place of its type.
pub fn type_in(node: u64) -> usize
    ensures { result ≡ type_in node }
{
    (node / 1099511627776 % 65536) as usize
}

pub fn number_in(node: u64) -> u16
    ensures { result ≡ number_in node }
{
    (node / 16777216 % 65536) as u16
}

pub fn left_in(node: u64) -> usize
    ensures { result ≡ left_in node }
{
    (node / 4096 % 4096) as usize
}

pub fn right_in(node: u64) -> usize
    ensures { result ≡ right_in node }
{
    (node % 4096) as usize
}

// Puts a node over two others as node `len`, the first that is free.
pub fn push(
    references: &mut [u64; 1024],
    len: usize,
    kind: u8,
    number: u16,
    left: usize,
    right: usize,
)
    requires { (len < 1024) × (left < len) × (right < len) }
    ensures { Pushed references.old references.new len (node_of kind 0 number left right) }
{
    references[len] = node(kind, 0, number, left, right);
}

// Puts what lies in the store in the type at a place: an input, a region or the output.
pub fn push_stored(references: &mut [u64; 1024], len: usize, kind: u8, number: u16, place: usize)
    requires { (0 < len) × (len < 1024) × (place < 65536) }
    ensures { Pushed references.old references.new len (node_of kind place number 0 0) }
{
    references[len] = node(kind, place, number, 0, 0);
}
