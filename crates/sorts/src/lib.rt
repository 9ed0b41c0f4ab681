// Sorts (02, F-8: "Kinds of cue"): what it is for a rule and for a term to be well-sorted by a lent list, that every rewrite by well-sorted rules
// keeps a term well-sorted, and its sort (subject reduction), and the check of a rule, by recursion over its sides. The test of a book and a term
// is the crate `sort_test`.
#![tactic(auto)]

pub mod sides;
