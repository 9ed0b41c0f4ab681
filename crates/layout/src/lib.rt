// How an accepted book lies in memory: where its rules and its strategies stand, and what an entry of a strategy asks for.
#![tactic(auto)]

pub mod entries;
pub mod index;
pub mod listed;
mod rules;
pub mod strategies;
