// A run of the machine from a state: advancing and rewriting in turn, at most so many steps, each told in the record.
ghost use Rattle.reader.specs.Book.{system_of};
ghost use Rattle.runs.specs.running.Reaches.{Startable, Continues};

use layout::index::Index;
use machine::advance::{State, Stop, advance};
use records::recording::{Bounds, limit_met, put_pair};
use steps::sizes::size_after;
use steps::steps::{Based, step};
use system::limits::TERM_WORDS;
use system::numbers::Limit;

// Where a run starts, and how far it goes: the limits, the state (the frame's first word is the base), how many symbols are
// on the way to the base (at the end of the third row), the steps taken so far, and how many more at most.
#[derive(Clone, Copy)]
pub struct From {
    pub bounds: Bounds,
    pub state: State,
    pub way: usize,
    pub steps: u32,
    pub most: u32,
}

// How it ended: at the end; just before a step that no limit would stop; or at a limit, 13, or 11, 16 or 12 just before the step that it stops.
#[derive(Clone, Copy)]
pub enum End {
    Final,
    Waiting,
    Stopped(Limit),
}

// Where it came to: how it ended, the state there, and the steps taken since the evaluation began.
#[derive(Clone, Copy)]
pub struct Reached {
    pub end: End,
    pub state: State,
    pub steps: u32,
}

// Runs the machine in the subterm at the base, and writes the pair of each step behind those before it. Where no step is left to take, 12 is tested
// by the length that the next one would leave, without the rewrite.
pub fn run_at(
    index: &Index<'_>,
    area: &mut [u16],
    frame: &mut [u16],
    record: &mut [u16],
    from: From,
) -> Reached
    requires { Startable index.now.book.words.now area.old frame.old from }
    ensures { Continues (system_of index.now.book.words.now) from area.old frame.old «record».old
        result area.new frame.new «record».new }
{
    let way = from.way;
    let State { mut gap, mut level } = from.state;
    let mut steps = from.steps;
    let end = loop {
        let a = advance(index, area, frame, State { gap, level });
        level = a.level;
        let redex = match a.stop {
            Stop::Final => break End::Final,
            Stop::Deep => break End::Stopped(Limit::Nested),
            Stop::Ready(redex) => redex,
        };
        if let Some(limit) = limit_met(from.bounds, record.len(), steps) {
            break End::Stopped(limit);
        }
        let state = State { gap, level };
        let here = Based { state, way };
        if from.most <= steps - from.steps {
            if TERM_WORDS < size_after(index, area, frame, here, redex) {
                break End::Stopped(Limit::Overlong);
            }
            break End::Waiting;
        }
        let at = usize::from(frame[level]);
        let r = step(index, area, frame, here, redex);
        gap = r.gap;
        if r.long {
            break End::Stopped(Limit::Overlong);
        }
        put_pair(record, from.bounds, steps, at, redex.number());
        steps += 1;
    };
    let state = State { gap, level };
    Reached { end, state, steps }
}
