// Demand 3, and what 02 says of records (F-3), of the curve (F-4) and, in `weighed`, of weights (F-6), as contracts: small functions that call the
// strategy test, the evaluator and the replay, and whose contracts are its sentences.
#![tactic(auto)]

ghost use Rattle.std.specs.Prelude.{◌≡◌, length};
ghost use Rattle.matching.specs.StrategyTest.{test_answer};
ghost use Rattle.rewriting.specs.Evaluation.{unrecorded, recorded};
ghost use Rattle.evaluation.specs.Expansion.{answer_and_buffers, expansion, record_after};
ghost use Rattle.replay.specs.Replaying.{as_answer};
ghost use Rattle.demands.specs.Retracing.{Reported, retracing, IsRetraced};
ghost use Rattle.demands.specs.Demand3.{IsDone, IsStopped, IsHandedBack, IsFound, secondly, RestsAgain};
ghost use Rattle.demands.specs.Square.{square_of, IsSquared, NeverFalls};

use evaluation::scanned::{expand_scanned, expand_within};
use matching::safety::test;
use reader::scan::scan_book;
use records::recording::Bounds;
use replay::Replayed;
use replay::scanned::replay_scanned;
use system::Answer;
use system::built_ins::{LITERAL, SQUARE};

pub mod weighed;

// The answers of a test and of the evaluator.
#[derive(Clone, Copy)]
pub struct Tested {
    pub test: Answer,
    pub answer: Answer,
}

// Tests the book's strategies and expands the term: "done" whether or not the book passed, "found" where it did, and where a limit stops it, why.
pub fn expand_checked(
    book: &[u16],
    term: &[u16],
    limit: u32,
    out: &mut [u16],
    work: &mut [u16],
) -> Tested
    ensures tested { result.test ≡ test_answer book.now }
    ensures expanded { answer_and_buffers result.answer out.new work.new
        ≡ expansion book.now term.now (unrecorded limit) out.old work.old }
    ensures done { IsDone book.now term.now (unrecorded limit)
        (answer_and_buffers result.answer out.new work.new) }
    ensures handed { IsHandedBack book.now term.now (unrecorded limit) out.old work.old
        (answer_and_buffers result.answer out.new work.new) }
    ensures found { IsFound book.now (answer_and_buffers result.answer out.new work.new) }
    ensures stopped { IsStopped book.now term.now (unrecorded limit)
        (answer_and_buffers result.answer out.new work.new) }
{
    let s = scan_book(book);
    let test = test(&s);
    let answer = expand_scanned(&s, term, limit, out, work);
    Tested { test, answer }
}

// The answers of the strategy test and of two expansions.
#[derive(Clone, Copy)]
pub struct Twice {
    pub test: Answer,
    pub first: Answer,
    pub second: Answer,
}

// Expands the term, and what is handed back again with step limit 0, in a second pair of buffers. Where nothing is handed back there is
// no second expansion, and the first answer stands for it.
pub fn expand_twice(
    book: &[u16],
    term: &[u16],
    limit: u32,
    out: &mut [u16],
    work: &mut [u16],
    again: &mut [u16],
    spare: &mut [u16],
) -> Twice
    ensures tested { result.test ≡ test_answer book.now }
    ensures expanded { answer_and_buffers result.first out.new work.new
        ≡ expansion book.now term.now (unrecorded limit) out.old work.old }
    ensures second { answer_and_buffers result.second again.new spare.new
        ≡ secondly book.now (expansion book.now term.now (unrecorded limit) out.old work.old)
        again.old spare.old }
    ensures found { IsFound book.now (answer_and_buffers result.first out.new work.new) }
    ensures rests { RestsAgain book.now (answer_and_buffers result.first out.new work.new)
        again.old spare.old (answer_and_buffers result.second again.new spare.new) }
{
    let s = scan_book(book);
    let test = test(&s);
    let first = expand_scanned(&s, term, limit, out, work);
    if !first.is_taken() {
        return Twice {
            test,
            first,
            second: first,
        };
    }
    let n = first.place;
    let second = expand_scanned(&s, &out[0..n], 0, again, spare);
    Twice {
        test,
        first,
        second,
    }
}

// The answers of an expansion with a record, and of its replay.
#[derive(Clone, Copy)]
pub struct Retraced {
    pub answer: Answer,
    pub replay: Replayed,
}

// Expands the term and tells each step in the record; then follows the record, cut to its pairs, from the same term on, in a second pair of
// buffers. Where nothing is handed back there is no replay, and the answer's numbers stand for it.
pub fn expand_retraced(
    book: &[u16],
    term: &[u16],
    limit: u32,
    out: &mut [u16],
    work: &mut [u16],
    record: &mut [u16],
    again: &mut [u16],
    spare: &mut [u16],
) -> Retraced
    ensures expanded { answer_and_buffers result.answer out.new work.new
        ≡ expansion book.now term.now (recorded limit (length «record».old))
        out.old work.old }
    ensures told { «record».new ≡ record_after book.now term.now
        (recorded limit (length «record».old)) out.old work.old «record».old }
    ensures replayed { answer_and_buffers (as_answer result.replay) again.new spare.new
        ≡ retracing book.now term.now result.answer «record».new again.old spare.old }
    ensures done { IsDone book.now term.now (recorded limit (length «record».old))
        (answer_and_buffers result.answer out.new work.new) }
    ensures retraced { IsRetraced (answer_and_buffers result.answer out.new work.new) again.old spare.old
        (answer_and_buffers (as_answer result.replay) again.new spare.new) }
    ensures stopped { IsStopped book.now term.now (recorded limit (length «record».old))
        (answer_and_buffers result.answer out.new work.new) }
    ensures reported { Reported book.now term.now (recorded limit (length «record».old))
        «record».old «record».new (answer_and_buffers result.answer out.new work.new) }
{
    let s = scan_book(book);
    let bounds = Bounds {
        limit,
        recorded: true,
    };
    let answer = expand_within(&s, term, bounds, out, work, record);
    if !answer.is_taken() {
        return Retraced {
            answer,
            replay: Replayed::from(answer),
        };
    }
    let pairs = 2 * (answer.steps as usize);
    let replay = replay_scanned(&s, term, &record[0..pairs], again, spare);
    Retraced { answer, replay }
}

// Expands curve(level n).
pub fn expand_square(book: &[u16], n: u8, limit: u32, out: &mut [u16], work: &mut [u16]) -> Answer
    ensures expanded { answer_and_buffers result out.new work.new
        ≡ expansion book.now (square_of n) (unrecorded limit) out.old work.old }
    ensures squared { IsSquared book.now n limit out.old work.old
        (answer_and_buffers result out.new work.new) }
{
    let s = scan_book(book);
    let term = [SQUARE as u16, (LITERAL + usize::from(n)) as u16];
    expand_scanned(&s, &term, limit, out, work)
}

// The answers of two expansions.
#[derive(Clone, Copy)]
pub struct Squares {
    pub first: Answer,
    pub second: Answer,
}

// Expands curve(level m) and curve(level n), with one step each, in a pair of buffers each.
pub fn expand_squares(
    book: &[u16],
    m: u8,
    n: u8,
    out: &mut [u16],
    work: &mut [u16],
    again: &mut [u16],
    spare: &mut [u16],
) -> Squares
    ensures first { answer_and_buffers result.first out.new work.new
        ≡ expansion book.now (square_of m) (unrecorded 1) out.old work.old }
    ensures second { answer_and_buffers result.second again.new spare.new
        ≡ expansion book.now (square_of n) (unrecorded 1) again.old spare.old }
    ensures rises { NeverFalls m n (answer_and_buffers result.first out.new work.new)
        (answer_and_buffers result.second again.new spare.new) }
{
    let first = expand_square(book, m, 1, out, work);
    let second = expand_square(book, n, 1, again, spare);
    Squares { first, second }
}
