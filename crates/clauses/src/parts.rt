// The clauses of writing a term whose operands are written into parts of its place: `zip` and `pair` [6.9], `split` and `join` [6.10],
// [18.12] `asvec` and `asscal`.
ghost use Rattle.std.specs.Prelude.{◌≡◌, ◌<◌, pos};
ghost use Rattle.words.specs.Kinds.{word_seq};
ghost use Rattle.emission.specs.Table.{put_row};
ghost use Rattle.clauses.specs.Clauses.{is_paired, is_regrouped, first_part, second_part, regrouped_by, IntoPart};

use crate::{State, Translated, node_kind};
use emission::references::{ZIP_FIRST, ZIP_SECOND, push};
use emission::sources::Made;
use words::kinds::*;

// Whether a term of this kind is made of two that are written one after the other.
pub fn is_paired(kind: u8) -> bool
    ensures { result ≡ is_paired kind }
{
    matches!(kind, WORD_ZIP | WORD_PAIR)
}

// Whether it is one whose elements are grouped otherwise.
pub fn is_regrouped(kind: u8) -> bool
    ensures { result ≡ is_regrouped kind }
{
    matches!(node_kind(kind), WORD_SPLIT | WORD_JOIN)
}

// The kind of the place of a `zip`'s or a `pair`'s first operand.
// Two matches: whoever had both kinds in one answer would take it apart at each call.
pub fn first_part(kind: u8) -> u8
    ensures { result ≡ first_part kind }
{
    match kind {
        WORD_ZIP => ZIP_FIRST,
        _ => WORD_FST,
    }
}

// And of the second's.
pub fn second_part(kind: u8) -> u8
    ensures { result ≡ second_part kind }
{
    match kind {
        WORD_ZIP => ZIP_SECOND,
        _ => WORD_SND,
    }
}

// [6.22] The kind of the place of a `split`'s or a `join`'s operand, [18.13] of an `asvec`'s or an `asscal`'s.
pub fn regrouped(kind: u8) -> u8
    ensures { result ≡ regrouped_by kind }
{
    match node_kind(kind) {
        WORD_SPLIT => WORD_JOIN,
        _ => WORD_SPLIT,
    }
}

// Node `state.len` is a part of the place at node `target`.
pub fn into_part(
    references: &mut [u64; 1024],
    kind: u8,
    number: u16,
    target: usize,
    state: State,
) -> State
    requires { (target < state.len) × (state.len < 1024) }
    ensures { IntoPart references.old references.new kind number target state.len state result }
{
    push(references, state.len, kind, number, target, 0);
    State {
        len: state.len + 1,
        ..state
    }
}

// [6.9] Into the part of the first of two operands: `seq`, and node `state.len`.
pub fn into_first(made: &mut Made, kind: u8, target: usize, state: State) -> State
    requires { (target < state.len) × (state.len < 1024) }
    ensures made { IntoPart made.old.references made.new.references (first_part kind) 0 target state.len state result }
    ensures rows { made.new.rows ≡ put_row made.old.rows (word_seq, pos 0) }
{
    made.rows.put_count(WORD_SEQ, 0);
    into_part(&mut made.references, first_part(kind), 0, target, state)
}

// [6.9] Into the part of the second, behind the first: node `written.len`.
pub fn into_second(
    references: &mut [u64; 1024],
    kind: u8,
    target: usize,
    state: State,
    written: Translated,
) -> State
    requires { (target < written.len) × (written.len < 1024) }
    ensures { IntoPart references.old references.new (second_part kind) 0 target written.len state result }
{
    let behind = State {
        len: written.len,
        ..state
    };
    into_part(references, second_part(kind), 0, target, behind)
}
