// The evaluation of a term: a run of the machine from its start, in the whole term, with as many steps as the limit allows.
ghost use Rattle.std.specs.Prelude.{◌≡◌, length};
ghost use Rattle.reader.specs.Book.{system_of};
ghost use Rattle.rewriting.specs.Evaluation.{evaluation};
ghost use Rattle.rewriting.specs.Evaluation.{trace_of};
ghost use Rattle.records.specs.recording.Kept.{limits_of, kept};
ghost use Rattle.runs.specs.run.RunResult.{Runnable, Ran};

use crate::running::{End, From, run_at};
use layout::index::{Places, build_index};
use machine::advance::{FRAME, State};
use reader::book::Book;
use records::recording::Bounds;
use rows::gap::Gap;
use rows::lengths::{COUNTS, lay};
use system::numbers::Limit;

// How a run ended: the gap around which its term stands, or the limit that stopped it; and the steps taken.
#[derive(Clone, Copy)]
pub struct RunResult {
    pub outcome: Result<Gap, Limit>,
    pub steps: u32,
}

// Evaluates a term in an area of 12,288 words, whatever they hold, and writes the pair of each step behind those before it.
pub fn run(
    book: &Book<'_>,
    term: &[u16],
    bounds: Bounds,
    area: &mut [u16],
    record: &mut [u16],
) -> RunResult
    requires { Runnable book.now.words.now term.now area.old }
    ensures ran { Ran (evaluation (system_of book.now.words.now) (limits_of bounds (length «record».old)) term.now)
        result area.new }
    ensures told { «record».new ≡ kept bounds.recorded «record».old
        (trace_of (evaluation (system_of book.now.words.now) (limits_of bounds (length «record».old)) term.now)) }
{
    let mut places = Places::EMPTY;
    let book = *book; // a copy, which lives as long as the places of its index
    let index = build_index(&book, &mut places);
    let mut frame = [0u16; FRAME];
    let back = lay(book.words, area, term);
    let gap = Gap { front: 0, back };
    area[COUNTS] = 0;
    let state = State { gap, level: 0 };
    let from = From {
        bounds,
        state,
        way: 0,
        steps: 0,
        most: bounds.limit,
    };
    let r = run_at(&index, area, &mut frame, record, from);
    let outcome = match r.end {
        End::Final => Ok(r.state.gap),
        // the steps that it may take are as many as the limit, so none is left
        End::Waiting => Err(Limit::Spent),
        End::Stopped(limit) => Err(limit),
    };
    RunResult {
        outcome,
        steps: r.steps,
    }
}
