// [1.8] The kinds of rows: each word's place in the table.
pub const WORD_PLAN: u8 = 0;

pub const WORD_NUM: u8 = 1;

pub const WORD_ARR: u8 = 2;

pub const WORD_TWO: u8 = 3;

pub const WORD_IN: u8 = 4;

pub const WORD_VAR: u8 = 5;

pub const WORD_LIT: u8 = 6;

pub const WORD_NEG: u8 = 7;

pub const WORD_ADD: u8 = 8;

pub const WORD_SUB: u8 = 9;

pub const WORD_MUL: u8 = 10;

pub const WORD_DIV: u8 = 11;

pub const WORD_MIN: u8 = 12;

pub const WORD_MAX: u8 = 13;

pub const WORD_MAPPAR: u8 = 14;

pub const WORD_MAPSEQ: u8 = 15;

pub const WORD_REDSEQ: u8 = 16;

pub const WORD_ZIP: u8 = 17;

pub const WORD_PAIR: u8 = 18;

pub const WORD_SPLIT: u8 = 19;

pub const WORD_JOIN: u8 = 20;

pub const WORD_FST: u8 = 21;

pub const WORD_SND: u8 = 22;

pub const WORD_IDX: u8 = 23;

pub const WORD_LOOPS: u8 = 24;

pub const WORD_CELLS: u8 = 25;

pub const WORD_SET: u8 = 26;

pub const WORD_SEQ: u8 = 27;

pub const WORD_FOR: u8 = 28;

pub const WORD_PAR: u8 = 29;

pub const WORD_NEW: u8 = 30;

pub const WORD_OUT: u8 = 31;

pub const WORD_LOC: u8 = 32;

pub const WORD_CTR: u8 = 33;

pub const WORD_PLUS: u8 = 34;

pub const WORD_TIMES: u8 = 35;

pub const WORD_OVER: u8 = 36;

pub const WORD_REST: u8 = 37;

pub const WORD_VEC: u8 = 38;

pub const WORD_ASVEC: u8 = 39;

pub const WORD_ASSCAL: u8 = 40;

pub const WORD_MAPVEC: u8 = 41;

pub const WORD_AT: u8 = 42;

pub const WORD_LANES: u8 = 43;

// [2.2] How many words there are.
pub const WORD_COUNT: usize = 44;
