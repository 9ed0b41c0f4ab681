// The termination test by weights, over a book that was scanned.
ghost use Rattle.std.specs.Prelude.{◌≡◌, true, MatchOption};
ghost use Rattle.std.proofs.Math.Option.{none, some};
ghost use Rattle.reader.specs.Book.{system_of};
ghost use Rattle.termination.specs.WeightTest.{in_range, weighs, first_rising, weights_answer};

use crate::falling::falls;
use layout::listed::rules_of;
use reader::book::Book;
use reader::scan::Scan;
use system::Answer;
use system::limits::MAX_WEIGHT;
use system::numbers::Verdict;

// Whether each weight is from 1 to 1,000.
fn in_range(weights: &[u16]) -> bool
    ensures { result ≡ in_range weights.now }
{
    weights
        .iter()
        .all(|w| 1 <= *w && usize::from(*w) <= MAX_WEIGHT)
}

// Whether it is a list of weights for so many symbols.
#[tactic(auto, unfolding(crate::specs::WeightTest::weighs))]
fn weighs(weights: &[u16], symbols: usize) -> bool
    ensures { result ≡ weighs weights.now symbols }
{
    weights.len() == symbols && in_range(weights)
}

// The lowest rule that does not fall.
fn first_rising(book: &Book<'_>, weights: &[u16]) -> Option<usize>
    requires { in_range weights.now ≡ true }
    ensures { MatchOption result (first_rising weights.now (system_of book.now.words.now) ≡ none)
        (λ k. first_rising weights.now (system_of book.now.words.now) ≡ some k) }
{
    rules_of(book).position(|r| !falls(weights, r.lhs, r.rhs))
}

// The test of a book that was scanned: the reader's answer where it was refused, then the list of weights, then the rules.
pub fn test(scan: &Scan<'_>, weights: &[u16]) -> Answer
    ensures { result ≡ weights_answer scan.now.words.now weights.now }
{
    let book = match scan.outcome {
        Ok(book) => book,
        Err(refusal) => return refusal.into(),
    };
    if !weighs(weights, book.shape.symbols) {
        return Answer::new(Verdict::Misweighed, 0, 0);
    }
    match first_rising(&book, weights) {
        Some(k) => Answer::new(Verdict::Rising, k, 0),
        None => Answer::new(Verdict::Taken, 0, 0),
    }
}
