// What libcue.a exports: each operation of `cue` under its own name, with the same clauses. include/cue.h declares what stands here.
#![tactic(auto)]

ghost use Rattle.std.specs.Prelude.{◌≡◌, length};
ghost use Rattle.reader.specs.Answers.{answer_of, shape_of, term_answer, argument_span};
ghost use Rattle.system.specs.Signature.{signature_of};
ghost use Rattle.reader.specs.Parser.{read};
ghost use Rattle.system.specs.Signature.{span};
ghost use Rattle.matching.specs.Bindings.{match_in};
ghost use Rattle.matching.specs.Safety.{Tells};
ghost use Rattle.matching.specs.StrategyTest.{test_answer};
ghost use Rattle.termination.specs.Tells.{TellsWeights};
ghost use Rattle.termination.specs.WeightTest.{weights_answer, weight_limit};
ghost use Rattle.sort_test.specs.Tells.{TellsSorts};
ghost use Rattle.sort_test.specs.SortTest.{sorts_answer};
ghost use Rattle.rewriting.specs.Evaluation.{unrecorded, recorded};
ghost use Rattle.evaluation.specs.Expansion.{answer_and_buffers, expansion, record_after};
ghost use Rattle.demands.specs.Demand3.{IsDone, IsStopped, IsHandedBack, IsFound, secondly, RestsAgain};
ghost use Rattle.cue.specs.Exports.{answer_for, as_answer, shape_for, part_for, match_for, version};

use cue::{CueAnswer, CueChecked, CueMatch, CuePart, CueShape, CueTwice};

// The version that this archive was built for: where it is not the header's CUE_VERSION, the two do not belong together.
#[unsafe(no_mangle)]
pub extern "C" fn cue_version() -> u32
    ensures { result ≡ version }
{
    cue::cue_version()
}

// Reads a book.
#[unsafe(no_mangle)]
pub extern "C" fn cue_read(book: &[u16]) -> CueAnswer
    ensures { result ≡ answer_for (answer_of (read book.now)) }
{
    cue::cue_read(book)
}

// The shape of an accepted book; all 0 of a refused one.
#[unsafe(no_mangle)]
pub extern "C" fn cue_shape_of(book: &[u16]) -> CueShape
    ensures { result ≡ shape_for (shape_of (read book.now)) }
{
    cue::cue_shape_of(book)
}

// Checks a term (01: a cue) against a book.
#[unsafe(no_mangle)]
pub extern "C" fn cue_check_term(book: &[u16], term: &[u16]) -> CueAnswer
    ensures { result ≡ answer_for (term_answer book.now term.now) }
{
    cue::cue_check_term(book, term)
}

// Argument i (from 1) of the term's first symbol.
#[unsafe(no_mangle)]
pub extern "C" fn cue_argument(book: &[u16], term: &[u16], i: usize) -> CuePart
    ensures { result ≡ part_for (argument_span book.now term.now i) }
{
    cue::cue_argument(book, term, i)
}

// How many words the subterm at the front of ws takes, by the arities that the book's words list.
#[unsafe(no_mangle)]
pub extern "C" fn cue_span(book: &[u16], ws: &[u16]) -> usize
    ensures { result ≡ span (signature_of book.now) ws.now 1 }
{
    cue::cue_span(book, ws)
}

// The first rule that matches the subterm at the front of ws, listed or built in.
#[unsafe(no_mangle)]
pub extern "C" fn cue_first_match(book: &[u16], ws: &[u16]) -> CueMatch
    ensures { result ≡ match_for (match_in book.now ws.now) }
{
    cue::cue_first_match(book, ws)
}

// The strategy test (01: the order test).
#[unsafe(no_mangle)]
pub extern "C" fn cue_test_strategies(book: &[u16]) -> CueAnswer
    ensures tested { result ≡ answer_for (test_answer book.now) }
    ensures told { Tells book.now (as_answer result) }
{
    cue::cue_test_strategies(book)
}

// The test by weights (02, F-6).
#[unsafe(no_mangle)]
pub extern "C" fn cue_test_weights(book: &[u16], weights: &[u16]) -> CueAnswer
    ensures tested { result ≡ answer_for (weights_answer book.now weights.now) }
    ensures told { TellsWeights book.now weights.now (as_answer result) }
{
    cue::cue_test_weights(book, weights)
}

// What a term weighs in all, as a step limit.
#[unsafe(no_mangle)]
pub extern "C" fn cue_weigh(weights: &[u16], term: &[u16]) -> u32
    ensures { result ≡ weight_limit weights.now term.now }
{
    cue::cue_weigh(weights, term)
}

// The sort test (02, F-8).
#[unsafe(no_mangle)]
pub extern "C" fn cue_test_kinds(book: &[u16], term: &[u16], kinds: &[u16]) -> CueAnswer
    ensures tested { result ≡ answer_for (sorts_answer book.now term.now kinds.now) }
    ensures told { TellsSorts book.now term.now kinds.now (as_answer result) }
{
    cue::cue_test_kinds(book, term, kinds)
}

// Expands a term over a book with at most `limit` steps (01: the allowance).
#[unsafe(no_mangle)]
pub extern "C" fn cue_expand(
    book: &[u16],
    term: &[u16],
    limit: u32,
    out: &mut [u16],
    work: &mut [u16],
) -> CueAnswer
    ensures { answer_and_buffers (as_answer result) out.new work.new
        ≡ expansion book.now term.now (unrecorded limit) out.old work.old }
{
    cue::cue_expand(book, term, limit, out, work)
}

// Tests the book's strategies and expands the term: "done" whether or not the book passed, "found" where it did.
#[unsafe(no_mangle)]
pub extern "C" fn cue_expand_checked(
    book: &[u16],
    term: &[u16],
    limit: u32,
    out: &mut [u16],
    work: &mut [u16],
) -> CueChecked
    ensures tested { result.test ≡ answer_for (test_answer book.now) }
    ensures expanded { answer_and_buffers (as_answer result.answer) out.new work.new
        ≡ expansion book.now term.now (unrecorded limit) out.old work.old }
    ensures done { IsDone book.now term.now (unrecorded limit)
        (answer_and_buffers (as_answer result.answer) out.new work.new) }
    ensures handed { IsHandedBack book.now term.now (unrecorded limit) out.old work.old
        (answer_and_buffers (as_answer result.answer) out.new work.new) }
    ensures found { IsFound book.now (answer_and_buffers (as_answer result.answer) out.new work.new) }
    ensures stopped { IsStopped book.now term.now (unrecorded limit)
        (answer_and_buffers (as_answer result.answer) out.new work.new) }
{
    cue::cue_expand_checked(book, term, limit, out, work)
}

// Expands the term, and what is handed back again with step limit 0 in a second pair of buffers; where nothing is handed back the first
// answer stands for the second.
#[unsafe(no_mangle)]
pub extern "C" fn cue_expand_twice(
    book: &[u16],
    term: &[u16],
    limit: u32,
    out: &mut [u16],
    work: &mut [u16],
    again: &mut [u16],
    spare: &mut [u16],
) -> CueTwice
    ensures tested { result.test ≡ answer_for (test_answer book.now) }
    ensures expanded { answer_and_buffers (as_answer result.first) out.new work.new
        ≡ expansion book.now term.now (unrecorded limit) out.old work.old }
    ensures second { answer_and_buffers (as_answer result.second) again.new spare.new
        ≡ secondly book.now (expansion book.now term.now (unrecorded limit) out.old work.old)
        again.old spare.old }
    ensures found { IsFound book.now (answer_and_buffers (as_answer result.first) out.new work.new) }
    ensures rests { RestsAgain book.now (answer_and_buffers (as_answer result.first) out.new work.new)
        again.old spare.old (answer_and_buffers (as_answer result.second) again.new spare.new) }
{
    cue::cue_expand_twice(book, term, limit, out, work, again, spare)
}

// Expands a term over a book with at most `limit` steps, and tells each step in the record: its index in the whole term before it, and the
// number of its rule.
#[unsafe(no_mangle)]
pub extern "C" fn cue_expand_recorded(
    book: &[u16],
    term: &[u16],
    limit: u32,
    out: &mut [u16],
    work: &mut [u16],
    record: &mut [u16],
) -> CueAnswer
    ensures expanded { answer_and_buffers (as_answer result) out.new work.new
        ≡ expansion book.now term.now (recorded limit (length «record».old))
        out.old work.old }
    ensures told { «record».new ≡ record_after book.now term.now
        (recorded limit (length «record».old)) out.old work.old «record».old }
{
    cue::cue_expand_recorded(book, term, limit, out, work, record)
}
