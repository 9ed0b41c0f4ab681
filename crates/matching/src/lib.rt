// Matching a left side, the first rule that matches, and the strategy test (01: fitting with the order test): the second library. Its operations
// ask nothing of their caller; `rules`, `operators` and `safety` are the inner interface for the layers above.
#![tactic(auto)]

ghost use Rattle.std.specs.Prelude.{◌≡◌};
ghost use Rattle.matching.specs.Bindings.{match_in};
ghost use Rattle.matching.specs.Fits.{TellsMatch};
ghost use Rattle.matching.specs.Safety.{Tells};
ghost use Rattle.matching.specs.StrategyTest.{test_answer};

use reader::scan::scan_book;
use system::Answer;
use system::limits::VARIABLES;

pub mod operators;
pub mod rules;
pub mod safety;

// A rule that matches. One that the book lists: its number, the index in the book of the first word of its right side, and how
// many words that has. A built-in one: its number, and the word that it puts there.
#[derive(Clone, Copy)]
pub enum FirstRule {
    First {
        number: usize,
        rhs: usize,
        size: usize,
    },
    Computed {
        number: usize,
        word: u16,
    },
}

// The first rule that matches, and for each variable where its stretch of the subterm starts and how many words it has; 0 and 0 of the others.
#[derive(Clone, Copy)]
pub struct Match {
    pub rule: Option<FirstRule>,
    pub starts: [usize; VARIABLES],
    pub lengths: [usize; VARIABLES],
}

// The first rule that matches the subterm at the front of ws, listed or built in; nothing over a book that the reader refuses. `told` says what
// that means by substitutions.
pub fn first_match(book: &[u16], ws: &[u16]) -> Match
    ensures matched { result ≡ match_in book.now ws.now }
    ensures told { TellsMatch book.now ws.now result }
{
    match scan_book(book).outcome {
        Ok(b) => rules::first_rule(&b, ws),
        Err(_) => Match {
            rule: None,
            starts: [0; VARIABLES],
            lengths: [0; VARIABLES],
        },
    }
}

// The strategy test: the reader's answer where it refuses the book, else 0 0 0 where every symbol passes, and otherwise 14 with the
// lowest-numbered symbol that fails. `told` says what that means by the test's own condition.
pub fn test_strategies(book: &[u16]) -> Answer
    ensures tested { result ≡ test_answer book.now }
    ensures told { Tells book.now result }
{
    safety::test(&scan_book(book))
}
