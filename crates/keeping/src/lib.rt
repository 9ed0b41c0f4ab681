// What 02 (F-8) says of kinds and expansions, as contracts: small functions that call the sort test and the evaluator, and whose contracts are
// its sentence.
#![tactic(auto)]

ghost use Rattle.std.specs.Prelude.{◌≡◌, length};
ghost use Rattle.rewriting.specs.Evaluation.{unrecorded, recorded};
ghost use Rattle.sort_test.specs.SortTest.{sorts_answer};
ghost use Rattle.evaluation.specs.Expansion.{answer_and_buffers, expansion, record_after};
ghost use Rattle.keeping.specs.Kept.{IsKept};

use demands::Tested;
use evaluation::scanned::{expand_scanned, expand_within};
use reader::scan::scan_book;
use records::recording::Bounds;
use sort_test::testing::test;

// Tests book and term by the list of sorts, and expands the term: where they passed, every step keeps a term well-sorted and of its sort, so what is
// handed back is, and where a limit stops it, the term that was reached.
pub fn expand_kinded(
    book: &[u16],
    kinds: &[u16],
    term: &[u16],
    limit: u32,
    out: &mut [u16],
    work: &mut [u16],
) -> Tested
    ensures tested { result.test ≡ sorts_answer book.now term.now kinds.now }
    ensures expanded { answer_and_buffers result.answer out.new work.new
        ≡ expansion book.now term.now (unrecorded limit) out.old work.old }
    ensures kept { IsKept book.now kinds.now term.now (unrecorded limit)
        (answer_and_buffers result.answer out.new work.new) }
{
    let s = scan_book(book);
    let test = test(&s, term, kinds);
    let answer = expand_scanned(&s, term, limit, out, work);
    Tested { test, answer }
}

// The same with a record of the steps.
pub fn expand_kinded_recorded(
    book: &[u16],
    kinds: &[u16],
    term: &[u16],
    limit: u32,
    out: &mut [u16],
    work: &mut [u16],
    record: &mut [u16],
) -> Tested
    ensures tested { result.test ≡ sorts_answer book.now term.now kinds.now }
    ensures expanded { answer_and_buffers result.answer out.new work.new
        ≡ expansion book.now term.now (recorded limit (length «record».old))
        out.old work.old }
    ensures told { «record».new ≡ record_after book.now term.now
        (recorded limit (length «record».old)) out.old work.old «record».old }
    ensures kept { IsKept book.now kinds.now term.now
        (recorded limit (length «record».old)) (answer_and_buffers result.answer out.new work.new) }
{
    let s = scan_book(book);
    let test = test(&s, term, kinds);
    let bounds = Bounds {
        limit,
        recorded: true,
    };
    let answer = expand_within(&s, term, bounds, out, work, record);
    Tested { test, answer }
}
