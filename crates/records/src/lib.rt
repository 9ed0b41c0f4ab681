// The limits that a caller sets, and the step record in words that the caller lends (02, F-3).
#![tactic(auto)]

pub mod recording;
