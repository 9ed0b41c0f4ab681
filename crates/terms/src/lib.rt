// Terms (01: cues) against a book: whether words are one whole term, and one argument of it. None of the operations here asks anything of its
// caller; `checking` is the inner interface for the layers above, over a book that was scanned or accepted.
#![tactic(auto)]

ghost use Rattle.std.specs.Prelude.{◌≡◌, ◌+◌, ◌≤◌, length};
ghost use Rattle.reader.specs.Answers.{term_answer, argument_at, start_of, part_of, argument_span, LiesIn};

pub mod checking;

use reader::ArgumentSpan;
use reader::scan::scan_book;
use system::Answer;
use system::words::{arity, span, spans};

// Checks a term (01: a cue) against a book: the reader's answer where the book is refused, else 9 and the index of the first word
// that can't stand there, or 0 and the term's length.
pub fn check_term(book: &[u16], term: &[u16]) -> Answer
    ensures { result ≡ term_answer book.now term.now }
{
    checking::check(&scan_book(book), term)
}

// Where argument i (from 1) of the term's first symbol stands: 0 and 0 exactly when the book or the term would be refused, or there is no such
// argument.
pub fn argument_span(book: &[u16], term: &[u16], i: usize) -> ArgumentSpan
    ensures value { result ≡ argument_span book.now term.now i }
    ensures within { result.start + result.length ≤ length term.now }
{
    let none = ArgumentSpan {
        start: 0,
        length: 0,
    };
    let c = check_term(book, term);
    if !c.is_taken() || i == 0 || arity(book, term[0]) < i {
        return none;
    }
    let start = 1 + spans(book, &term[1..], i - 1);
    let length = span(book, &term[start..]);
    ArgumentSpan { start, length }
}

// Argument i (from 1) of the term's first symbol, as a part of the caller's own slice; it is empty where there is none.
pub fn argument<'a>(book: &[u16], term: &'a [u16], i: usize) -> &'a [u16]
    ensures words { result.now ≡ part_of book.now term.now (argument_at book.now term.now i) }
    ensures place { LiesIn term.entry (start_of (argument_at book.now term.now i)) result }
{
    let s = argument_span(book, term, i);
    &term[s.start..s.start + s.length]
}
