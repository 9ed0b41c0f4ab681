// The strategies of an accepted book, one after the other.
ghost use Rattle.std.specs.Prelude.{◌≡◌, ◌≤◌, ◌+◌, length, drop};
ghost use Rattle.system.specs.Limits.{max_word};
ghost use Rattle.layout.specs.strategies.Walked.{words_left};

use reader::book::Book;
use system::words::wide;

// The strategy of a symbol of an accepted book: its entries, and the index in the book of the length before them.
#[derive(Clone, Copy)]
pub struct Strategy<'a> {
    pub at: usize,
    pub entries: &'a [u16],
    pub ghost inside: { at + length entries.now ≤ max_word },
}

// Those strategies from the one at `at` on, `left` of them.
#[derive(Clone, Copy)]
pub struct Strategies<'a> {
    book: Book<'a>,
    at: usize,
    left: usize,
    pub ghost within: { left ≤ book.shape.symbols },
    pub ghost stands: { drop at book.words.now ≡ words_left book.words.now left },
}

impl<'a> Iterator for Strategies<'a> {
    ghost use Rattle.std.specs.Iterator.{item_count};
    ghost use Rattle.layout.specs.strategies.Listed.{rest_of, YieldsStrategy};

    type Item = Strategy<'a>;

    ghost next_gives = { YieldsStrategy };

    ghost remaining = { item_count rest_of };

    fn next(&mut self) -> Option<Strategy<'a>> {
        if self.left == 0 {
            return None;
        }
        let words = self.book.words;
        let at = self.at;
        let first = at + 1;
        let end = first + wide(words[at]);
        let entries = &words[first..end];
        self.at = end;
        self.left -= 1;
        Some(Strategy { at, entries })
    }
}

// The strategies of a book, in the order of its symbols.
pub fn strategies_of<'a>(book: &Book<'a>) -> Strategies<'a>
    ensures at { result.at ≡ book.now.shape.strategies }
    ensures left { result.left ≡ book.now.shape.symbols }
    ensures book { result.book.words.now ≡ book.now.words.now }
{
    Strategies {
        book: *book,
        at: book.shape.strategies,
        left: book.shape.symbols,
    }
}
