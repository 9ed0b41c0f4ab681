// What 02 (F-6) says of weights, as contracts: small functions that call the test by weights and the evaluator, and whose contracts are its
// sentences.
ghost use Rattle.std.specs.Prelude.{◌≡◌, length};
ghost use Rattle.rewriting.specs.Evaluation.{unrecorded, recorded};
ghost use Rattle.termination.specs.WeightTest.{weights_answer, weight_limit};
ghost use Rattle.evaluation.specs.Expansion.{answer_and_buffers, expansion, record_after};
ghost use Rattle.demands.specs.Finite.{IsFinite, NeverSpent};

use crate::Tested;
use evaluation::scanned::{expand_scanned, expand_within};
use reader::scan::scan_book;
use records::recording::Bounds;
use termination::testing::test;
use termination::weighing::weigh;

// Tests the book by the weights, and expands the term: where every rule falls, its weight bounds the steps.
pub fn expand_weighed(
    book: &[u16],
    weights: &[u16],
    term: &[u16],
    limit: u32,
    out: &mut [u16],
    work: &mut [u16],
) -> Tested
    ensures tested { result.test ≡ weights_answer book.now weights.now }
    ensures expanded { answer_and_buffers result.answer out.new work.new
        ≡ expansion book.now term.now (unrecorded limit) out.old work.old }
    ensures finite { IsFinite book.now weights.now term.now (unrecorded limit)
        (answer_and_buffers result.answer out.new work.new) }
{
    let s = scan_book(book);
    let test = test(&s, weights);
    let answer = expand_scanned(&s, term, limit, out, work);
    Tested { test, answer }
}

// The same with a record of the steps.
pub fn expand_weighed_recorded(
    book: &[u16],
    weights: &[u16],
    term: &[u16],
    limit: u32,
    out: &mut [u16],
    work: &mut [u16],
    record: &mut [u16],
) -> Tested
    ensures tested { result.test ≡ weights_answer book.now weights.now }
    ensures expanded { answer_and_buffers result.answer out.new work.new
        ≡ expansion book.now term.now (recorded limit (length «record».old))
        out.old work.old }
    ensures told { «record».new ≡ record_after book.now term.now
        (recorded limit (length «record».old)) out.old work.old «record».old }
    ensures finite { IsFinite book.now weights.now term.now
        (recorded limit (length «record».old)) (answer_and_buffers result.answer out.new work.new) }
{
    let s = scan_book(book);
    let test = test(&s, weights);
    let bounds = Bounds {
        limit,
        recorded: true,
    };
    let answer = expand_within(&s, term, bounds, out, work, record);
    Tested { test, answer }
}

// Tests the book by the weights, and expands the term with its own weight as the step limit, which is then never used up.
pub fn expand_by_weight(
    book: &[u16],
    weights: &[u16],
    term: &[u16],
    out: &mut [u16],
    work: &mut [u16],
) -> Tested
    ensures tested { result.test ≡ weights_answer book.now weights.now }
    ensures expanded { answer_and_buffers result.answer out.new work.new
        ≡ expansion book.now term.now (unrecorded (weight_limit weights.now term.now))
        out.old work.old }
    ensures unspent { NeverSpent book.now weights.now term.now
        (unrecorded (weight_limit weights.now term.now)) (answer_and_buffers result.answer out.new work.new) }
{
    let limit = weigh(weights, term);
    expand_weighed(book, weights, term, limit, out, work)
}
