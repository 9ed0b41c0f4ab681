// The sort test (02, F-8: "Kinds of cue"): a test of a book and a term by a lent list of sorts. `test_kinds` asks nothing of its caller;
// `testing::test` is the inner interface for the layers above, over a book that was scanned.
#![tactic(auto)]

ghost use Rattle.std.specs.Prelude.{◌≡◌};
ghost use Rattle.sort_test.specs.SortTest.{sorts_answer};
ghost use Rattle.sort_test.specs.Tells.{TellsSorts};

use reader::scan::scan_book;
use system::Answer;

pub mod testing;
mod windows;

// The sort test: the reader's answer where it refuses the book; 20 where the list is not one of sorts for it; 21 with the lowest rule that fails; 9
// with its place where the term is not whole; 22 where it is not well-sorted; else 0 0 0. `told` says what that means by the sorts themselves.
pub fn test_kinds(book: &[u16], term: &[u16], kinds: &[u16]) -> Answer
    ensures tested { result ≡ sorts_answer book.now term.now kinds.now }
    ensures told { TellsSorts book.now term.now kinds.now result }
{
    testing::test(&scan_book(book), term, kinds)
}
