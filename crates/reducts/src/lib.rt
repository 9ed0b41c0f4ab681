// A reduct put in the place of words of a term in the rows: it is written where the gap has room, and what follows those words stays where it is. The
// inner interface for the layers above.
#![tactic(auto)]

pub mod putting;
