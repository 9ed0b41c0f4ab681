// The libraries' public operations as C and other languages call them, but for the replay's, which `cue_replay` has: `cue_c` exports them under
// these names, and include/cue.h declares them. Each function hands its arguments on and its answer back; none asks anything of its caller.
#![tactic(auto)]

ghost use Rattle.std.specs.Prelude.{◌≡◌, length};
ghost use Rattle.reader.specs.Answers.{answer_of, shape_of, term_answer, argument_span};
ghost use Rattle.system.specs.Signature.{signature_of};
ghost use Rattle.reader.specs.Parser.{read};
ghost use Rattle.system.specs.Signature.{span};
ghost use Rattle.matching.specs.Bindings.{match_in};
ghost use Rattle.matching.specs.Safety.{Tells};
ghost use Rattle.matching.specs.StrategyTest.{test_answer};
ghost use Rattle.termination.specs.Tells.{TellsWeights};
ghost use Rattle.termination.specs.WeightTest.{weights_answer, weight_limit};
ghost use Rattle.sort_test.specs.Tells.{TellsSorts};
ghost use Rattle.sort_test.specs.SortTest.{sorts_answer};
ghost use Rattle.rewriting.specs.Evaluation.{unrecorded, recorded};
ghost use Rattle.evaluation.specs.Expansion.{answer_and_buffers, expansion, record_after};
ghost use Rattle.demands.specs.Demand3.{IsDone, IsStopped, IsHandedBack, IsFound, secondly, RestsAgain};
ghost use Rattle.cue.specs.Exports.{answer_for, as_answer, shape_for, part_for, match_for, version};

mod conversions;

use system::limits::VARIABLES;
use termination::weighing::weigh;

// The version of include/cue.h, which has the same two numbers.
pub const VERSION_MAJOR: u32 = 4;

pub const VERSION_MINOR: u32 = 1;

// Three numbers: one of 01's table, a place, and steps.
#[repr(C)]
#[derive(Clone, Copy)]
pub struct CueAnswer {
    pub number: u32,
    pub place: usize,
    pub steps: u32,
}

// How many symbols and rules a book has, and at which index its first strategy and its first rule start.
#[repr(C)]
#[derive(Clone, Copy)]
pub struct CueShape {
    pub symbols: usize,
    pub strategies: usize,
    pub rules: usize,
    pub first_rule: usize,
}

// A part of the caller's own words. (A reference cannot be handed to C.)
#[repr(C)]
#[derive(Clone, Copy)]
pub struct CuePart {
    pub start: usize,
    pub length: usize,
}

// The first rule that matches, if `found` is 1: its number, where in the book its right side's words start and how many they are, and
// for each variable where its words start in the subterm and how many they are. A built-in rule has no right side in the book: `word` is
// what it puts there, and 0 of a listed rule.
#[repr(C)]
#[derive(Clone, Copy)]
pub struct CueMatch {
    pub found: u32,
    pub number: usize,
    pub rhs: usize,
    pub size: usize,
    pub starts: [usize; VARIABLES],
    pub lengths: [usize; VARIABLES],
    pub word: u16,
}

// The answers of the strategy test and of the evaluator.
#[repr(C)]
#[derive(Clone, Copy)]
pub struct CueChecked {
    pub test: CueAnswer,
    pub answer: CueAnswer,
}

// The answers of the strategy test and of two expansions.
#[repr(C)]
#[derive(Clone, Copy)]
pub struct CueTwice {
    pub test: CueAnswer,
    pub first: CueAnswer,
    pub second: CueAnswer,
}

// The version that this archive was built for: where it is not the header's CUE_VERSION, the two do not belong together.
pub fn cue_version() -> u32
    ensures { result ≡ version }
{
    VERSION_MAJOR * 65536 + VERSION_MINOR
}

// Reads a book.
pub fn cue_read(book: &[u16]) -> CueAnswer
    ensures { result ≡ answer_for (answer_of (read book.now)) }
{
    reader::read(book).into()
}

// The shape of an accepted book; all 0 of a refused one.
pub fn cue_shape_of(book: &[u16]) -> CueShape
    ensures { result ≡ shape_for (shape_of (read book.now)) }
{
    reader::shape_of(book).into()
}

// Checks a term (01: a cue) against a book.
pub fn cue_check_term(book: &[u16], term: &[u16]) -> CueAnswer
    ensures { result ≡ answer_for (term_answer book.now term.now) }
{
    terms::check_term(book, term).into()
}

// Argument i (from 1) of the term's first symbol.
pub fn cue_argument(book: &[u16], term: &[u16], i: usize) -> CuePart
    ensures { result ≡ part_for (argument_span book.now term.now i) }
{
    terms::argument_span(book, term, i).into()
}

// How many words the subterm at the front of ws takes, by the arities that the book's words list.
pub fn cue_span(book: &[u16], ws: &[u16]) -> usize
    ensures { result ≡ span (signature_of book.now) ws.now 1 }
{
    system::words::span(book, ws)
}

// The first rule that matches the subterm at the front of ws, listed or built in.
pub fn cue_first_match(book: &[u16], ws: &[u16]) -> CueMatch
    ensures { result ≡ match_for (match_in book.now ws.now) }
{
    matching::first_match(book, ws).into()
}

// The strategy test (01: the order test).
pub fn cue_test_strategies(book: &[u16]) -> CueAnswer
    ensures tested { result ≡ answer_for (test_answer book.now) }
    ensures told { Tells book.now (as_answer result) }
{
    matching::test_strategies(book).into()
}

// The test by weights (02, F-6).
pub fn cue_test_weights(book: &[u16], weights: &[u16]) -> CueAnswer
    ensures tested { result ≡ answer_for (weights_answer book.now weights.now) }
    ensures told { TellsWeights book.now weights.now (as_answer result) }
{
    termination::test_weights(book, weights).into()
}

// What a term weighs in all, as a step limit.
pub fn cue_weigh(weights: &[u16], term: &[u16]) -> u32
    ensures { result ≡ weight_limit weights.now term.now }
{
    weigh(weights, term)
}

// The sort test (02, F-8).
pub fn cue_test_kinds(book: &[u16], term: &[u16], kinds: &[u16]) -> CueAnswer
    ensures tested { result ≡ answer_for (sorts_answer book.now term.now kinds.now) }
    ensures told { TellsSorts book.now term.now kinds.now (as_answer result) }
{
    sort_test::test_kinds(book, term, kinds).into()
}

// Expands a term over a book with at most `limit` steps (01: the allowance).
pub fn cue_expand(
    book: &[u16],
    term: &[u16],
    limit: u32,
    out: &mut [u16],
    work: &mut [u16],
) -> CueAnswer
    ensures { answer_and_buffers (as_answer result) out.new work.new
        ≡ expansion book.now term.now (unrecorded limit) out.old work.old }
{
    evaluation::expand(book, term, limit, out, work).into()
}

// Tests the book's strategies and expands the term: "done" whether or not the book passed, "found" where it did.
pub fn cue_expand_checked(
    book: &[u16],
    term: &[u16],
    limit: u32,
    out: &mut [u16],
    work: &mut [u16],
) -> CueChecked
    ensures tested { result.test ≡ answer_for (test_answer book.now) }
    ensures expanded { answer_and_buffers (as_answer result.answer) out.new work.new
        ≡ expansion book.now term.now (unrecorded limit) out.old work.old }
    ensures done { IsDone book.now term.now (unrecorded limit)
        (answer_and_buffers (as_answer result.answer) out.new work.new) }
    ensures handed { IsHandedBack book.now term.now (unrecorded limit) out.old work.old
        (answer_and_buffers (as_answer result.answer) out.new work.new) }
    ensures found { IsFound book.now (answer_and_buffers (as_answer result.answer) out.new work.new) }
    ensures stopped { IsStopped book.now term.now (unrecorded limit)
        (answer_and_buffers (as_answer result.answer) out.new work.new) }
{
    let c = demands::expand_checked(book, term, limit, out, work);
    CueChecked {
        test: c.test.into(),
        answer: c.answer.into(),
    }
}

// Expands the term, and what is handed back again with step limit 0 in a second pair of buffers; where nothing is handed back the first
// answer stands for the second.
pub fn cue_expand_twice(
    book: &[u16],
    term: &[u16],
    limit: u32,
    out: &mut [u16],
    work: &mut [u16],
    again: &mut [u16],
    spare: &mut [u16],
) -> CueTwice
    ensures tested { result.test ≡ answer_for (test_answer book.now) }
    ensures expanded { answer_and_buffers (as_answer result.first) out.new work.new
        ≡ expansion book.now term.now (unrecorded limit) out.old work.old }
    ensures second { answer_and_buffers (as_answer result.second) again.new spare.new
        ≡ secondly book.now (expansion book.now term.now (unrecorded limit) out.old work.old)
        again.old spare.old }
    ensures found { IsFound book.now (answer_and_buffers (as_answer result.first) out.new work.new) }
    ensures rests { RestsAgain book.now (answer_and_buffers (as_answer result.first) out.new work.new)
        again.old spare.old (answer_and_buffers (as_answer result.second) again.new spare.new) }
{
    let c = demands::expand_twice(book, term, limit, out, work, again, spare);
    CueTwice {
        test: c.test.into(),
        first: c.first.into(),
        second: c.second.into(),
    }
}

// Expands a term over a book with at most `limit` steps, and tells each step in the record: its index in the whole term before it, and the
// number of its rule.
pub fn cue_expand_recorded(
    book: &[u16],
    term: &[u16],
    limit: u32,
    out: &mut [u16],
    work: &mut [u16],
    record: &mut [u16],
) -> CueAnswer
    ensures expanded { answer_and_buffers (as_answer result) out.new work.new
        ≡ expansion book.now term.now (recorded limit (length «record».old))
        out.old work.old }
    ensures told { «record».new ≡ record_after book.now term.now
        (recorded limit (length «record».old)) out.old work.old «record».old }
{
    evaluation::expand_recorded(book, term, limit, out, work, record).into()
}
