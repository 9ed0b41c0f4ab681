// Whether words are one whole term over the symbols of a book.
ghost use Rattle.std.specs.Prelude.{◌≡◌};
ghost use Rattle.reader.specs.Answers.{term_answer};
ghost use Rattle.system.specs.Signature.{signature_of};
ghost use Rattle.reader.specs.scan.Sections.{found};
ghost use Rattle.system.specs.TermCheck.{term_fault};

use reader::book::Book;
use reader::scan::Scan;
use system::Answer;
use system::limits::TERM_WORDS;
use system::numbers::Verdict;
use system::words::{arity, is_symbol};

// The index of the first word that can't stand there, or of the end where the term ends early.
pub fn first_break(book: &[u16], term: &[u16]) -> Option<usize>
    ensures { result ≡ found (term_fault (signature_of book.now) 1 term.now 0) }
{
    let mut due = 1;
    for (i, w) in term.iter().enumerate() {
        if due == 0 || TERM_WORDS <= i || !is_symbol(book, *w) {
            return Some(i);
        }
        due = due - 1 + arity(book, *w);
    }
    (due != 0).then_some(term.len())
}

// Checks a term against an accepted book: 9 and the index of the first word that can't stand there, or 0 and the length.
pub fn check_over(book: &Book<'_>, term: &[u16]) -> Answer
    ensures { result ≡ term_answer book.now.words.now term.now }
{
    match first_break(book.words, term) {
        Some(place) => Answer::new(Verdict::Broken, place, 0),
        None => Answer::new(Verdict::Taken, term.len(), 0),
    }
}

// Checks a term against a book that was scanned: the reader's answer where the book is refused.
#[tactic(auto, using(crate::proofs::checking::Checks::scan_refuses))]
pub fn check(scan: &Scan<'_>, term: &[u16]) -> Answer
    ensures { result ≡ term_answer scan.now.words.now term.now }
{
    match scan.outcome {
        Ok(book) => check_over(&book, term),
        Err(refusal) => refusal.into(),
    }
}
