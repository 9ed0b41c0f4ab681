// The bounds that 01 and 02 set, as specs/Limits.antt names them.

// The most symbols of a book, and the most arguments of a symbol.
pub const MAX_SYMBOLS: usize = 256;

pub const MAX_ARITY: usize = 8;

// The most entries of a strategy.
pub const MAX_ENTRIES: usize = 16;

// The most rules of a book, and the most words of a side.
pub const MAX_RULES: usize = 128;

pub const SIDE_WORDS: usize = 64;

// Where the variables start among the words of a side, and how many there are.
pub const VARIABLE: usize = 32768;

pub const VARIABLES: usize = 16;

pub const PAST_VARIABLES: usize = VARIABLE + VARIABLES;

// The most words of a term, and the least of an answer buffer.
pub const TERM_WORDS: usize = 4096;

// The words of a work buffer that are used: a row of 4,096 words each for the term, for the lengths beside its words, and for the counts.
pub const AREA_WORDS: usize = 12288;

// The deepest level of an evaluation.
pub const LEVELS: usize = 64;

// The largest step limit.
pub const MAX_STEPS: u32 = 4294967295;

// The largest weight of a symbol.
pub const MAX_WEIGHT: usize = 1000;

// The largest sort.
pub const MAX_SORT: usize = 63;
