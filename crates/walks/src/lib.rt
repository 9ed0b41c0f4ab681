// Positions of a term that are active, and the walk to one in the rows, from the position of the last step (02, F-3).
#![tactic(auto)]

pub mod walk;
