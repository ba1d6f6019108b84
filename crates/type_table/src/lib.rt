// A table of types in lent words, for the check of a plan and for its translation. A type is named by its place; what it
// is made of stands before it. Beside each type stand its cells and levels, so that nobody counts them again.
// A table is a lent slice and how many of its words are in use: there is no heap.
#![tactic(auto)]

ghost use Rattle.std.specs.Prelude.{◌≡◌, true, false, suc, ◌+◌, ◌*◌, ◌≤◌, ◌<◌, max, length};
ghost use Rattle.meaning.specs.Types.{DataType, number, array as arrayType, vector, is_number, cells as cells_of, levels as levelsOf};
ghost use Rattle.meaning.specs.Limits.{IsWidth};
ghost use Rattle.type_table.specs.Nodes.{node_of, kind_of, left_of, right_of, shape_in};
ghost use Rattle.type_table.specs.Table.{type_at, Sound, Put, ShapeTold, ArrayTold, PairTold, VectorTold};

use std::cmp::max;

// The place of the type of numbers, the first of every table.
pub const NUMBER_TYPE: usize = 0;

// An array's length and the place of its element's type.
#[derive(Clone, Copy, Debug, PartialEq, Eq)]
pub struct ArrayShape {
    pub length: usize,
    pub element: usize,
}

// The places of a pair's two types.
#[derive(Clone, Copy, Debug, PartialEq, Eq)]
pub struct PairShape {
    pub first: usize,
    pub second: usize,
}

// [3.1] What a type is made of. [18.1] Of a vector that is its width.
#[derive(Clone, Copy, Debug, PartialEq, Eq)]
pub enum Shape {
    Number,
    Array(ArrayShape),
    Pair(PairShape),
    Vector(usize),
}

// A node as one word. It stays packed: as a struct it would take five times the stack, whose figures in include/vazhdumir.h may not grow.
fn node(shape: Shape, levels: usize, cells: usize) -> u64
    requires { (levels < 256) × (cells < 65536) × (left_of shape < 65536) × (right_of shape < 65536) }
    ensures { result ≡ node_of (kind_of shape) levels cells (left_of shape) (right_of shape) }
{
    let (kind, left, right) = match shape {
        Shape::Number => (0, 0, 0),
        Shape::Array(array) => (1, array.length, array.element),
        Shape::Pair(pair) => (2, pair.first, pair.second),
        Shape::Vector(width) => (3, width, 0),
    };
    kind * 72057594037927936
        + (levels as u64) * 281474976710656
        + (cells as u64) * 4294967296
        + (left as u64) * 65536
        + right as u64
}

// The shape that a node's word says.
fn shape_in(node: u64) -> Shape
    ensures { result ≡ shape_in node }
{
    let left = (node / 65536 % 65536) as usize;
    let right = (node % 65536) as usize;
    match node / 72057594037927936 {
        0 => Shape::Number,
        1 => Shape::Array(ArrayShape {
            length: left,
            element: right,
        }),
        2 => Shape::Pair(PairShape {
            first: left,
            second: right,
        }),
        _ => Shape::Vector(left),
    }
}

// [3.2] The cells of the type at a place.
pub fn cells(types: &[u64], place: usize) -> usize
    requires { Sound types.now (suc place) }
    ensures { result ≡ cells_of (type_at types.now place) }
{
    (types[place] / 4294967296 % 65536) as usize
}

// [3.3] Its levels.
pub fn levels(types: &[u64], place: usize) -> usize
    requires { Sound types.now (suc place) }
    ensures { result ≡ levelsOf (type_at types.now place) }
{
    (types[place] / 281474976710656 % 256) as usize
}

// What it is made of.
pub fn shape_at(types: &[u64], place: usize) -> Shape
    requires { Sound types.now (suc place) }
    ensures { ShapeTold types.now place result }
{
    shape_in(types[place])
}

// Whether it is the type of numbers.
pub fn is_number(types: &[u64], place: usize) -> bool
    requires { Sound types.now (suc place) }
    ensures { result ≡ is_number (type_at types.now place) }
{
    matches!(shape_at(types, place), Shape::Number)
}

// Its length and element, where it is an array.
pub fn as_array(types: &[u64], place: usize) -> Option<ArrayShape>
    requires { Sound types.now (suc place) }
    ensures { ArrayTold types.now place result }
{
    match shape_at(types, place) {
        Shape::Array(array) => Some(array),
        _ => None,
    }
}

// Its two types, where it is a pair.
pub fn as_pair(types: &[u64], place: usize) -> Option<PairShape>
    requires { Sound types.now (suc place) }
    ensures { PairTold types.now place result }
{
    match shape_at(types, place) {
        Shape::Pair(pair) => Some(pair),
        _ => None,
    }
}

// [18.1] Its width, where it is a vector.
pub fn as_vector(types: &[u64], place: usize) -> Option<usize>
    requires { Sound types.now (suc place) }
    ensures { VectorTold types.now place result }
{
    match shape_at(types, place) {
        Shape::Vector(width) => Some(width),
        _ => None,
    }
}

// [3.5] Whether the types at two places are the same.
// No derived `==`: what a node's parts are stands in the table, not in the node.
pub fn same(types: &[u64], a: usize, b: usize) -> bool
    requires { Sound types.now (suc a) × Sound types.now (suc b) }
    ensures yes { result ≡ true → type_at types.now a ≡ type_at types.now b }
    ensures not { result ≡ false → type_at types.now a ≡ type_at types.now b → ⊥ }
{
    match (shape_at(types, a), shape_at(types, b)) {
        (Shape::Number, Shape::Number) => true,
        (Shape::Array(one), Shape::Array(other)) => {
            one.length == other.length && same(types, one.element, other.element)
        }
        (Shape::Pair(one), Shape::Pair(other)) => {
            same(types, one.first, other.first) && same(types, one.second, other.second)
        }
        (Shape::Vector(one), Shape::Vector(other)) => one == other,
        _ => false,
    }
}

// Puts the type of numbers at the table's first place.
pub fn put_number(types: &mut [u64])
    requires { 0 < length types.old }
    ensures { Put types.old types.new 0 number }
{
    types[NUMBER_TYPE] = node(Shape::Number, 1, 1);
}

// Puts the type of arrays of this length and element at place `len`, the first that is free.
pub fn put_array(types: &mut [u64], len: usize, count: usize, element: usize)
    requires { Sound types.old len × (len < length types.old) × (len < 65536) × (element < len)
        × (1 ≤ count) × (count * cells_of (type_at types.old element) ≤ 4096) × (levelsOf (type_at types.old element) < 8) }
    ensures { Put types.old types.new len (arrayType count (type_at types.old element)) }
{
    let levels = 1 + levels(types, element);
    let cells = count * cells(types, element);
    types[len] = node(
        Shape::Array(ArrayShape {
            length: count,
            element,
        }),
        levels,
        cells,
    );
}

// Puts the type of pairs of these two at place `len`, the first that is free.
pub fn put_pair(types: &mut [u64], len: usize, first: usize, second: usize)
    requires { Sound types.old len × (len < length types.old) × (len < 65536) × (first < len) × (second < len)
        × (cells_of (type_at types.old first) + cells_of (type_at types.old second) ≤ 4096)
        × (max (levelsOf (type_at types.old first)) (levelsOf (type_at types.old second)) < 8) }
    ensures { Put types.old types.new len (DataType.pair (type_at types.old first) (type_at types.old second)) }
{
    let levels = 1 + max(levels(types, first), levels(types, second));
    let cells = cells(types, first) + cells(types, second);
    types[len] = node(Shape::Pair(PairShape { first, second }), levels, cells);
}

// [18.1] Puts the type of vectors of this width at place `len`, the first that is free.
pub fn put_vector(types: &mut [u64], len: usize, width: usize)
    requires { Sound types.old len × (len < length types.old) × (len < 65536) × (0 < len) × IsWidth width }
    ensures { Put types.old types.new len (vector width) }
{
    types[len] = node(Shape::Vector(width), 2, width);
}
