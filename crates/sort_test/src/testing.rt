// The sort test, over a book that was scanned.
ghost use Rattle.std.specs.Prelude.{◌≡◌, MatchOption};
ghost use Rattle.std.proofs.Math.Option.{none, some};
ghost use Rattle.system.specs.Signature.{signature_of};
ghost use Rattle.reader.specs.Book.{system_of};
ghost use Rattle.sort_test.specs.SortTest.{all_small, lists, first_ill, term_test, sorts_answer};

use crate::windows::sorted;
use layout::listed::rules_of;
use reader::book::Book;
use reader::scan::Scan;
use sorts::sides::{offset, passes};
use system::Answer;
use system::limits::MAX_SORT;
use system::numbers::Verdict;
use terms::checking::first_break;

// Whether no sort is above 63.
fn all_small(kinds: &[u16]) -> bool
    ensures { result ≡ all_small kinds.now }
{
    kinds.iter().all(|k| usize::from(*k) <= MAX_SORT)
}

// Whether it is a list of sorts for the book.
fn lists(book: &Book<'_>, kinds: &[u16]) -> bool
    ensures { result ≡ lists kinds.now (signature_of book.now.words.now) }
{
    kinds.len() == offset(book.words, 65535) && all_small(kinds)
}

// The lowest rule that fails.
fn first_ill(book: &Book<'_>, kinds: &[u16]) -> Option<usize>
    ensures { MatchOption result (first_ill kinds.now (system_of book.now.words.now) ≡ none)
        (λ k. first_ill kinds.now (system_of book.now.words.now) ≡ some k) }
{
    rules_of(book).position(|r| !passes(book.words, kinds, r.lhs, r.rhs))
}

// The test of a term, over a book whose rules all pass: 9 and its place where it is not whole, 22 where it is not well-sorted, else 0.
fn test_term(book: &Book<'_>, kinds: &[u16], term: &[u16]) -> Answer
    ensures { result ≡ term_test (signature_of book.now.words.now) kinds.now term.now }
{
    if let Some(place) = first_break(book.words, term) {
        return Answer::new(Verdict::Broken, place, 0);
    }
    if !sorted(book.words, kinds, term) {
        return Answer::new(Verdict::IllTerm, 0, 0);
    }
    Answer::new(Verdict::Taken, 0, 0)
}

// The test of a book that was scanned: the reader's answer where it was refused, then the list of sorts, then the rules, then the term.
pub fn test(scan: &Scan<'_>, term: &[u16], kinds: &[u16]) -> Answer
    ensures { result ≡ sorts_answer scan.now.words.now term.now kinds.now }
{
    let book = match scan.outcome {
        Ok(book) => book,
        Err(refusal) => return refusal.into(),
    };
    if !lists(&book, kinds) {
        return Answer::new(Verdict::Missorted, 0, 0);
    }
    match first_ill(&book, kinds) {
        Some(k) => Answer::new(Verdict::IllRule, k, 0),
        None => test_term(&book, kinds, term),
    }
}
