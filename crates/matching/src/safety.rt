// The strategy test, symbol by symbol.
ghost use Rattle.std.specs.Prelude.{◌≡◌, not, MatchOption};
ghost use Rattle.std.proofs.Math.Option.{none, some};
ghost use Rattle.system.specs.Signature.{signature_of};
ghost use Rattle.system.specs.System.{strategy};
ghost use Rattle.system.specs.Terms.{occurs};
ghost use Rattle.reader.specs.Book.{system_of};
ghost use Rattle.matching.specs.StrategyTest.{held_once, idle_test, closes, constructs, passes, first_unsafe, test_answer};

use layout::listed::rules_of;
use layout::strategies::strategies_of;
use reader::book::Book;
use reader::scan::Scan;
use system::Answer;
use system::limits::VARIABLE;
use system::numbers::Verdict;
use system::words::spans;

// How often word w stands among the words.
fn occurs(words: &[u16], w: u16) -> usize
    ensures { result ≡ occurs w words.now }
{
    words.iter().filter(|v| **v == w).count()
}

// Whether the argument with i others before it is a variable that the left side holds once.
fn held_once(book: &[u16], lhs: &[u16], i: usize) -> bool
    ensures { result ≡ held_once (signature_of book.now) lhs.now i }
{
    let Some((_, arguments)) = lhs.split_first() else {
        return false;
    };
    let Some(&w) = arguments.get(spans(book, arguments, i)) else {
        return false;
    };
    VARIABLE <= usize::from(w) && occurs(lhs, w) == 1
}

// Whether the argument of f with i others before it is idle: a variable held once in every left side that starts with f.
fn idle(book: &Book<'_>, f: usize, i: usize) -> bool
    ensures { result ≡ idle_test (system_of book.now.words.now) f i }
{
    rules_of(book)
        .filter(|r| usize::from(r.lhs[0]) == f)
        .all(|r| held_once(book.words, r.lhs, i))
}

// Whether some left side starts with f.
fn defined(book: &Book<'_>, f: usize) -> bool
    ensures { result ≡ not (constructs (system_of book.now.words.now) f) }
{
    rules_of(book).any(|r| usize::from(r.lhs[0]) == f)
}

// Whether the strategy of f, which has these entries, holds a 0 and only idle arguments after the last 0. It is looked through from its end.
fn closes(book: &Book<'_>, f: usize, entries: &[u16]) -> bool
    ensures { result ≡ closes (idle_test (system_of book.now.words.now) f) entries.now }
{
    for e in entries.iter().rev() {
        let e = usize::from(*e);
        if e == 0 {
            return true;
        }
        if !idle(book, f, e - 1) {
            return false;
        }
    }
    false
}

// Whether the symbol f passes, whose strategy has these entries.
fn passes(book: &Book<'_>, f: usize, entries: &[u16]) -> bool
    requires { entries.now ≡ strategy (system_of book.now.words.now) f }
    ensures { result ≡ passes (system_of book.now.words.now) f }
{
    !defined(book, f) || closes(book, f, entries)
}

// The lowest-numbered symbol that fails.
pub fn first_unsafe(book: &Book<'_>) -> Option<usize>
    ensures { MatchOption result (first_unsafe (system_of book.now.words.now) ≡ none)
        (λ f. first_unsafe (system_of book.now.words.now) ≡ some f) }
{
    for (f, strategy) in strategies_of(book).enumerate() {
        if !passes(book, f, strategy.entries) {
            return Some(f);
        }
    }
    None
}

// The test of a book that was scanned: the reader's answer where it was refused, else 14 with the lowest-numbered symbol that fails, or 0 0 0.
pub fn test(scan: &Scan<'_>) -> Answer
    ensures { result ≡ test_answer scan.now.words.now }
{
    let book = match scan.outcome {
        Ok(book) => book,
        Err(refusal) => return refusal.into(),
    };
    if let Some(f) = first_unsafe(&book) {
        return Answer::new(Verdict::Unsettled, f, 0);
    }
    Answer::new(Verdict::Taken, 0, 0)
}
