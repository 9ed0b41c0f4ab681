// What the program prints, from the bytes of show.book.
ghost use Rattle.std.specs.Prelude.{◌+◌, ◌-◌, ◌≤◌, ◌≡◌, ◌++◌, length};
ghost use Rattle.printing.specs.Text.{in_room};
ghost use Rattle.files.specs.Words.{words_of};
ghost use Rattle.files.specs.Files.{book_bytes, file_of};
ghost use Rattle.check_book.specs.Verdict.{text_bytes, book_text, verdict};

use crate::lines::{put_fault, put_order, put_taken};
use files::checks::{BOOK_BYTES, BOOK_WORDS, check_file};
use files::words::load;
use matching::safety::test;
use printing::Page;
use reader::scan::scan_book;

// The bytes that any text has room in.
pub const TEXT_BYTES: usize = 256;

// Puts the text for the book's file on the page. It is told the file's bytes, all of them or more than it may have, or that it is not there.
// A page with room for fewer than 256 bytes stays as it is.
#[tactic(auto, unfolding(crate::specs::Verdict::text_of))]
pub fn verdict<const N: usize>(book: Option<&[u8]>, page: &mut Page<N>)
    ensures { page.new ≡ page.old ++ in_room text_bytes (N - length page.old)
        (verdict (file_of book.entry)) }
{
    if page.room() < TEXT_BYTES {
        return;
    }
    match check_file(book, BOOK_BYTES) {
        Ok(book) => check_bytes(book, page),
        Err(why) => page.put_line(why.word()),
    }
}

// The file is taken.
fn check_bytes<const N: usize>(book: &[u8], page: &mut Page<N>)
    requires fits { length book.now ≤ book_bytes }
    requires room { length page.old + text_bytes ≤ N }
    ensures { page.new ≡ page.old ++ book_text (words_of book.now) }
{
    let mut words = [0u16; BOOK_WORDS];
    let n = load(book, &mut words);
    check_words(&words[..n], page);
}

// The reader's line, and the order test's where the reader takes the book. The book is read once.
fn check_words<const N: usize>(book: &[u16], page: &mut Page<N>)
    requires { length page.old + text_bytes ≤ N }
    ensures { page.new ≡ page.old ++ book_text book.now }
{
    let s = scan_book(book);
    if let Err(refusal) = s.outcome {
        return put_fault(refusal, page);
    }
    put_taken(book.len(), page);
    put_order(test(&s), page);
}
