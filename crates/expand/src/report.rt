// What the program prints, from the bytes of its two files.
ghost use Rattle.std.specs.Prelude.{◌+◌, ◌-◌, ◌≤◌, ◌≡◌, [], ◌++◌, length};
ghost use Rattle.system.specs.Limits.{term_words};
ghost use Rattle.rewriting.specs.Evaluation.{unrecorded};
ghost use Rattle.evaluation.specs.Expansion.{expansion, answer_and_buffers};
ghost use Rattle.buffers.specs.Words.{zeros};
ghost use Rattle.system.specs.Limits.{area_words};
ghost use Rattle.printing.specs.Text.{in_room};
ghost use Rattle.files.specs.Words.{words_of};
ghost use Rattle.files.specs.Files.{book_bytes, file_of, holds};
ghost use Rattle.expand.specs.Report.{cue_bytes, text_bytes, answer_text, text_of, report};

use files::checks::{BOOK_BYTES, BOOK_WORDS, check_file};
use files::words::load;
use printing::Page;
use system::Answer;
use system::limits::{AREA_WORDS, TERM_WORDS};

// The most bytes of a cue file, its words, and the bytes that any text has room in.
pub const CUE_BYTES: usize = 8194;

const CUE_WORDS: usize = CUE_BYTES / 2;

pub const TEXT_BYTES: usize = 24638;

// Puts the text for both files on the page. Of each file it is told the bytes, all of them or more than it may have, or that it is not
// there. A page with room for fewer than 24,638 bytes stays as it is.
#[tactic(auto, unfolding(crate::specs::Report::text_of))]
pub fn report<const N: usize>(book: Option<&[u8]>, cue: Option<&[u8]>, page: &mut Page<N>)
    ensures { page.new ≡ page.old ++ in_room text_bytes (N - length page.old)
        (report (file_of book.entry) (file_of cue.entry)) }
{
    if page.room() < TEXT_BYTES {
        return;
    }
    match (check_file(book, BOOK_BYTES), check_file(cue, CUE_BYTES)) {
        (Ok(book), Ok(cue)) => expand_files(book, cue, page),
        (Err(why), _) | (_, Err(why)) => page.put_line(why.word()),
    }
}

// Both files are taken: expands where the cue file has its first word, the allowance.
#[tactic(auto, using(crate::proofs::report::Reports::text_short))]
fn expand_files<const N: usize>(book: &[u8], cue: &[u8], page: &mut Page<N>)
    requires book_fits { length book.now ≤ book_bytes }
    requires cue_fits { length cue.now ≤ cue_bytes }
    requires room { length page.old + text_bytes ≤ N }
    ensures { page.new ≡ page.old ++ text_of (holds (words_of book.now)) (holds (words_of cue.now)) }
{
    let mut words = [0u16; BOOK_WORDS];
    let n = load(book, &mut words);
    let mut term = [0u16; CUE_WORDS];
    let m = load(cue, &mut term);
    match &term[..m] {
        [] => page.put_line("short"),
        [allowance, cue @ ..] => expand_cue(&words[..n], cue, u32::from(*allowance), page),
    }
}

// Expands a cue over a book, in buffers of its own.
fn expand_cue<const N: usize>(book: &[u16], cue: &[u16], allowance: u32, page: &mut Page<N>)
    requires { length page.old + text_bytes ≤ N }
    ensures { page.new ≡ page.old ++ answer_text
        (expansion book.now cue.now (unrecorded allowance) (zeros term_words) (zeros area_words)) }
{
    let mut out = [0u16; TERM_WORDS];
    let mut work = [0u16; AREA_WORDS];
    let a = evaluation::expand(book, cue, allowance, &mut out, &mut work);
    put_answer(a, &out, page);
}

// Heading, three numbers, and on 0 the answer, a word a line.
fn put_answer<const N: usize>(a: Answer, out: &[u16], page: &mut Page<N>)
    requires answer { a.number ≡ 0 → a.place ≤ length out.now }
    requires small { length out.now ≤ term_words }
    requires room { length page.old + text_bytes ≤ N }
    ensures { page.new ≡ page.old ++ answer_text (answer_and_buffers a out.now []) }
{
    page.put_heading();
    page.put_numbers(a);
    if a.is_taken() {
        page.put_words(&out[..a.place]);
    }
}
