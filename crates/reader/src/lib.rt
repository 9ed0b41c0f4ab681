// The reader: show books read from words.
//
// A book is a slice of words, three sections one after the other, each after its count (01: "The show book"). None of the
// operations here asks anything of its caller: every refusal is a number of 01's table. `scan::scan_book` is the inner interface for the
// layers above: a book is scanned once, and all that is asked of it goes by the scan.
#![tactic(auto)]

ghost use Rattle.std.specs.Prelude.{◌≡◌};
ghost use Rattle.reader.specs.Answers.{answer_of, shape_of};
ghost use Rattle.reader.specs.Parser.{read};
ghost use Rattle.system.specs.Numbers.{fault_number};

pub mod book;
pub mod scan;

use crate::scan::scan_book;
use system::Answer;
use system::numbers::{Fault, Verdict};

// What the layers above need of an accepted book: how many symbols and rules it has, and at which index its first strategy and
// its first rule start. All are 0 of a refused book.
#[derive(Clone, Copy)]
pub struct Shape {
    pub symbols: usize,
    pub strategies: usize,
    pub rules: usize,
    pub first_rule: usize,
}

// Why a book is refused: its first fault, and the index of the word that was being read.
#[derive(Clone, Copy, PartialEq, Eq, Debug)]
pub struct Refusal {
    pub fault: Fault,
    pub place: usize,
}

impl From<Refusal> for Answer {
    ghost from_gives = { λ r a. a ≡ record { number = fault_number r.fault; place = r.place; steps = 0 } };

    fn from(r: Refusal) -> Answer {
        Answer::new(r.fault.into(), r.place, 0)
    }
}

// An argument in a term: the index of its first word, and how many words it has; 0 and 0 for none, as it is handed on to C.
#[derive(Clone, Copy)]
pub struct ArgumentSpan {
    pub start: usize,
    pub length: usize,
}

// Reads a book: 0 and its length, or the first fault with the index of the word being read.
pub fn read(book: &[u16]) -> Answer
    ensures { result ≡ answer_of (read book.now) }
{
    match scan_book(book).outcome {
        Ok(_) => Answer::new(Verdict::Taken, book.len(), 0),
        Err(r) => r.into(),
    }
}

// The shape of an accepted book.
pub fn shape_of(book: &[u16]) -> Shape
    ensures { result ≡ shape_of (read book.now) }
{
    match scan_book(book).outcome {
        Ok(b) => b.shape,
        Err(_) => Shape {
            symbols: 0,
            strategies: 0,
            rules: 0,
            first_rule: 0,
        },
    }
}
