// The machine in an area of lent words: on to the next rewrite (`advance`), the rewrite itself (`rewrites`) and with it a step (`steps`), without
// recursion. The inner interface of the evaluator: they ask for an area that holds a state, over an accepted book.
#![tactic(auto)]

pub mod advance;
