// The sides of rules: with how many words two of them end alike, how many words a filled one has, and one written in the rows, its lengths beside it:
// in one pass, or row by row. The inner interface of what puts a reduct in the place of a redex.
#![tactic(auto)]

pub mod crowded;
pub(crate) mod passes;
pub mod sides;
pub mod writing;
