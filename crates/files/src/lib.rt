// The files of the programs: reading one, its checks, and its words.
#![tactic(auto)]

pub mod checks;
pub mod reading;
pub mod words;
