// A run of the machine, from any state: advancing and rewriting in turn, each step told in the record; and the evaluation, a run from the start.
#![tactic(auto)]

pub mod run;
pub mod running;
