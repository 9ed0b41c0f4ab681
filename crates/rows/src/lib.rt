// A term in lent words, and beside each word the length of the subterm that starts there (02, F-5: "Lengths kept with the words"): two rows of
// 4,096 words with one gap in both, at the place of the last rewrite, so that what follows a rewrite stays where it is. Behind them the layers
// above keep words of their own.
#![tactic(auto)]

pub mod gap;
pub mod lengths;
