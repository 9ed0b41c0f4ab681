// The evaluation of terms by local strategies (01: the expander), in memory that the caller lends. The operations here ask nothing of their
// caller; `scanned` is the inner interface for the layers above, over a book that was scanned.
#![tactic(auto)]

ghost use Rattle.std.specs.Prelude.{◌≡◌, length};
ghost use Rattle.rewriting.specs.Evaluation.{unrecorded, recorded};
ghost use Rattle.evaluation.specs.Expansion.{answer_and_buffers, expansion, record_after};

pub mod scanned;

use reader::scan::scan_book;
use records::recording::Bounds;
use system::Answer;

// Expands a term (01: a cue) over a book, with at most `limit` steps (01: the allowance).
//
// It checks the buffers (10: `out` below 4,096 words or `work` below 12,288), then the book, then the term; none of these numbers
// touches a buffer. Otherwise the first 12,288 words of `work` are zero afterwards and the rest is unchanged; and on 0 the answer
// stands in the first words of `out`, whose other words, and on 11 to 13 all words, are unchanged.
pub fn expand(book: &[u16], term: &[u16], limit: u32, out: &mut [u16], work: &mut [u16]) -> Answer
    ensures { answer_and_buffers result out.new work.new
        ≡ expansion book.now term.now (unrecorded limit) out.old work.old }
{
    scanned::expand_scanned(&scan_book(book), term, limit, out, work)
}

// The same, and tells each step in a record that is lent: two words for each, its index in the whole term before it and the number of its
// rule. Where a step finds fewer than two words left it is 16, after 11 and before 12. After any answer the record holds the pairs of the
// steps that are reported, and its other words are unchanged.
pub fn expand_recorded(
    book: &[u16],
    term: &[u16],
    limit: u32,
    out: &mut [u16],
    work: &mut [u16],
    record: &mut [u16],
) -> Answer
    ensures expanded { answer_and_buffers result out.new work.new
        ≡ expansion book.now term.now (recorded limit (length «record».old))
        out.old work.old }
    ensures told { «record».new ≡ record_after book.now term.now (recorded limit (length «record».old))
        out.old work.old «record».old }
{
    let bounds = Bounds {
        limit,
        recorded: true,
    };
    scanned::expand_within(&scan_book(book), term, bounds, out, work, record)
}
