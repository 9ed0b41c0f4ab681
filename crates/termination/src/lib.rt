// Termination (02, F-6: "Finite shows"): a test by weights, built on the contracts of `system` and the laws of `matching` and `rewriting`. Where
// every rule falls, each step makes the term lighter, so that its weight bounds the steps. `test_weights` and
// `weighing::weigh` ask nothing of their caller; `testing::test` is the inner interface for the layers above, over a book that was scanned.
#![tactic(auto)]

ghost use Rattle.std.specs.Prelude.{◌≡◌};
ghost use Rattle.termination.specs.Tells.{TellsWeights};
ghost use Rattle.termination.specs.WeightTest.{weights_answer};

use reader::scan::scan_book;
use system::Answer;

mod falling;
pub mod testing;
pub mod weighing;

// The test by weights: the reader's answer where it refuses the book; 18 where the list is not one weight from 1 to 1,000 for each listed
// symbol; 19 with the lowest rule that does not fall; else 0 0 0. `told` says what that means by the rules' own weights.
pub fn test_weights(book: &[u16], weights: &[u16]) -> Answer
    ensures tested { result ≡ weights_answer book.now weights.now }
    ensures told { TellsWeights book.now weights.now result }
{
    testing::test(&scan_book(book), weights)
}
