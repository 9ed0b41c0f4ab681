// The first rule that matches a subterm of a term in the rows (02, F-5).
#![tactic(auto)]

pub mod search;
