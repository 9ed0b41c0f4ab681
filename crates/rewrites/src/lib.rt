// One rewrite in the rows, by the match that was found.
#![tactic(auto)]

pub mod rewrites;
