// A step of the machine: the rewrite, and the lengths on the way made true again; and how long the term would be after it.
#![tactic(auto)]

pub mod sizes;
pub mod steps;
