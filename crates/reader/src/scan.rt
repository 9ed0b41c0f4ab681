// The reader: one pass over the book, from left to right, that ends at the first fault.
ghost use Rattle.std.specs.Prelude.{◌≡◌, MatchResult};
ghost use Rattle.std.proofs.Props.{props};
ghost use Rattle.reader.specs.Parser.{read, fault};

mod numbers;
mod sections;
mod sides;

use crate::Refusal;
use crate::book::Book;
use crate::scan::sections::{read_sections, shape_at};

// Words that were read once, for all that is asked of them: the book that they are, or its first fault with the index of the word that was being
// read.
#[derive(Clone, Copy)]
pub struct Scan<'a> {
    pub words: &'a [u16],
    pub outcome: Result<Book<'a>, Refusal>,
    ghost scanned: { MatchResult outcome (λ b. b.words.now ≡ words.now) (λ r. read words.now ≡ fault r.fault r.place) } by { Prim.hlevel props },
}

// The whole book, in one pass: the inner interface for all operations that take one.
pub fn scan_book(words: &[u16]) -> Scan<'_>
    ensures { result.words ≡ words.entry }
{
    let outcome = match read_sections(words) {
        Ok(s) => Ok(Book {
            words,
            shape: shape_at(words, s.rules),
        }),
        Err(r) => Err(r),
    };
    Scan { words, outcome }
}
